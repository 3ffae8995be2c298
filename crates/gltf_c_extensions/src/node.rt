//! The extensions of nodes that the loader keeps as JSON.
ghost use Rattle.std.specs.Prelude.{◌≡◌};
ghost use Rattle.gltf_c_extensions.specs.Nodes.{IsInstancing, IsVisibility};
ghost use Rattle.gltf_c_extensions.specs.Nodes.{shown_instancing, shown_visibility};

use crate::reading::{Missing, ShownOf, shown_at};
use gltf_c_scene::kind::Kind;
use gltf_c_scene::numbers::{index_or_none, one_or_zero};
use gltf_extension_records::node::{MeshGpuInstancing, NodeVisibility};
use gltf_json::Root;
use std::alloc::Global;

/// The extension `EXT_mesh_gpu_instancing`. C declares the same struct.
#[repr(C)]
#[derive(Clone, Copy, Drop)]
pub struct GltfInstancing {
    /// The accessor of the translations of the instances, or `NONE`.
    pub translation: usize,
    /// The accessor of their rotations, or `NONE`.
    pub rotation: usize,
    /// The accessor of their scales, or `NONE`.
    pub scale: usize,
    /// 0.
    pub reserved: [usize; 5],
}

/// The extension `KHR_node_visibility`. C declares the same struct.
#[repr(C)]
#[derive(Clone, Copy, Drop)]
pub struct GltfVisibility {
    /// 1 where the node and those below it are shown, else 0.
    pub visible: u32,
    /// 0.
    pub reserved_word: u32,
    /// 0.
    pub reserved: [usize; 3],
}

/// The instances of the mesh of the node at an index (`EXT_mesh_gpu_instancing`).
pub fn instancing(alloc: Global, root: &Root, index: usize) -> Result<GltfInstancing, Missing>
    ensures { IsInstancing index root.now result }
{
    shown_at::<MeshGpuInstancing, GltfInstancing>(
        alloc,
        root,
        Kind::Nodes,
        index,
        "EXT_mesh_gpu_instancing",
    )
}

impl ShownOf<MeshGpuInstancing> for GltfInstancing {
    ghost shown = { shown_instancing };

    fn shown_of(it: &MeshGpuInstancing) -> GltfInstancing {
        GltfInstancing {
            translation: index_or_none(it.attributes.translation),
            rotation: index_or_none(it.attributes.rotation),
            scale: index_or_none(it.attributes.scale),
            reserved: [0; 5],
        }
    }
}

/// Whether the node at an index is shown (`KHR_node_visibility`).
pub fn visibility(alloc: Global, root: &Root, index: usize) -> Result<GltfVisibility, Missing>
    ensures { IsVisibility index root.now result }
{
    shown_at::<NodeVisibility, GltfVisibility>(
        alloc,
        root,
        Kind::Nodes,
        index,
        "KHR_node_visibility",
    )
}

impl ShownOf<NodeVisibility> for GltfVisibility {
    ghost shown = { shown_visibility };

    fn shown_of(it: &NodeVisibility) -> GltfVisibility {
        GltfVisibility {
            visible: one_or_zero(it.visible),
            reserved_word: 0,
            reserved: [0; 3],
        }
    }
}
