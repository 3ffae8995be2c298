//! Views whose bytes are compressed.
ghost use Rattle.std.specs.Prelude.{◌≡◌};
ghost use Rattle.gltf_handles.specs.Sizes.{code_of};
ghost use Rattle.gltf_c_extensions.specs.Views.{IsMeshopt, shown_meshopt};
ghost use Rattle.gltf_c_extensions.specs.Views.{mode_number, filter_number};

use crate::reading::{Missing, ShownOf, shown_at};
use gltf_c_scene::kind::Kind;
use gltf_extension_records::view::{MeshoptCompression, MeshoptFilter, MeshoptMode};
use gltf_json::Root;
use gltf_json_record::validation::Checked;
use std::alloc::Global;

/// The extension `EXT_meshopt_compression`. C declares the same struct.
#[repr(C)]
#[derive(Clone, Copy, Drop)]
pub struct GltfMeshopt {
    /// The buffer with the compressed bytes.
    pub buffer: usize,
    /// Where they begin in it.
    pub byte_offset: usize,
    /// How many they are.
    pub byte_length: usize,
    /// The bytes of an item that is decompressed.
    pub byte_stride: usize,
    /// How many items there are.
    pub count: usize,
    /// 0 attributes, 1 triangles, 2 indices.
    pub mode: u32,
    /// 0 none, 1 octahedral, 2 quaternion, 3 exponential.
    pub filter: u32,
    /// 0.
    pub reserved: [usize; 2],
}

/// How the view at an index is compressed (`EXT_meshopt_compression`).
pub fn meshopt(alloc: Global, root: &Root, index: usize) -> Result<GltfMeshopt, Missing>
    ensures { IsMeshopt index root.now result }
{
    shown_at::<MeshoptCompression, GltfMeshopt>(
        alloc,
        root,
        Kind::BufferViews,
        index,
        "EXT_meshopt_compression",
    )
}

impl ShownOf<MeshoptCompression> for GltfMeshopt {
    ghost shown = { shown_meshopt };

    fn shown_of(it: &MeshoptCompression) -> GltfMeshopt {
        GltfMeshopt {
            buffer: it.buffer.value(),
            byte_offset: it.byte_offset as usize,
            byte_length: it.byte_length as usize,
            byte_stride: it.byte_stride as usize,
            count: it.count as usize,
            mode: mode_number(it.mode),
            filter: filter_number(it.filter),
            reserved: [0; 2],
        }
    }
}

/// The number of a mode.
fn mode_number(mode: Checked<MeshoptMode>) -> u32
    ensures { result ≡ code_of mode_number mode }
{
    match mode {
        Checked::Valid(MeshoptMode::Attributes) | Checked::Invalid => 0,
        Checked::Valid(MeshoptMode::Triangles) => 1,
        Checked::Valid(MeshoptMode::Indices) => 2,
    }
}

/// The number of a filter.
fn filter_number(filter: Checked<MeshoptFilter>) -> u32
    ensures { result ≡ code_of filter_number filter }
{
    match filter {
        Checked::Valid(MeshoptFilter::None) | Checked::Invalid => 0,
        Checked::Valid(MeshoptFilter::Octahedral) => 1,
        Checked::Valid(MeshoptFilter::Quaternion) => 2,
        Checked::Valid(MeshoptFilter::Exponential) => 3,
    }
}
