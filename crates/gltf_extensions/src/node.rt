//! The extensions of nodes.
ghost use Rattle.std.specs.Prelude.{◌≡◌, codes};
ghost use Rattle.std.specs.Option.{option_map};
ghost use Rattle.gltf_handles.specs.Accessors.{IsAccessor};
ghost use Rattle.gltf_handles.specs.Members.{extension_named, Follows};
ghost use Rattle.gltf_scene.specs.Nodes.{node_handle};
ghost use Rattle.gltf_extension_records.specs.Nodes as kinds;
ghost use Rattle.gltf_extension_records.specs.Rules as rules;
ghost use Rattle.gltf_validation.specs.Rules.{Nothing};
ghost use Rattle.gltf_extensions.specs.Handles.{handle_of, IsRead};

use crate::fault::ExtensionFault;
use crate::handle::Handle;
use crate::reading::read_handle;
use gltf_extension_records::node::{MeshGpuInstancing, NodeVisibility};
use gltf_handles::accessor::Accessor;
use gltf_rules::Records;
use gltf_scene::scene::Node;
use std::alloc::Global;

/// Whether a node of this document and its descendants are shown (the extension
/// `KHR_node_visibility`). Where it is absent, they are.
pub fn node_visibility<'a, D: Records>(
    alloc: Global,
    node: &Node<'a, D>,
) -> Option<Result<Handle<'a, NodeVisibility, D>, ExtensionFault>>
    ensures { IsRead kinds.node_visibility (λ _ _. Nothing) (node_handle node.now).document
        (extension_named (codes "KHR_node_visibility")
        (option_map (λ e. e.others) (node_handle node.now).json.extensions)) result }
{
    read_handle(
        alloc,
        node.document(),
        node.extension_value("KHR_node_visibility"),
    )
}

/// Instances of the mesh of a node (the extension `EXT_mesh_gpu_instancing`).
pub fn mesh_gpu_instancing<'a, D: Records>(
    alloc: Global,
    node: &Node<'a, D>,
) -> Option<Result<Handle<'a, MeshGpuInstancing, D>, ExtensionFault>>
    ensures { IsRead kinds.mesh_gpu_instancing rules.mesh_gpu_instancing_rules
        (node_handle node.now).document (extension_named (codes "EXT_mesh_gpu_instancing")
        (option_map (λ e. e.others) (node_handle node.now).json.extensions)) result }
{
    read_handle(
        alloc,
        node.document(),
        node.extension_value("EXT_mesh_gpu_instancing"),
    )
}

impl<'a, D: Records> Handle<'a, NodeVisibility, D> {
    /// Whether they are shown: `visible`, by default true.
    pub fn visible(&self) -> bool
        ensures { result ≡ (handle_of self.now).json.visible }
    {
        self.json.visible
    }
}

impl<'a, D: Records> Handle<'a, MeshGpuInstancing, D> {
    /// The translations of the instances, an item an instance: `TRANSLATION`.
    pub fn translation(&self) -> Option<Accessor<'a, D>>
        ensures { Follows (IsAccessor (handle_of self.now).document)
            (handle_of self.now).json.attributes.translation result }
    {
        let index = self.json.attributes.translation?;
        Some(Accessor::new(self.document, index.value()))
    }

    /// The rotations of the instances, as quaternions x, y, z, w: `ROTATION`.
    pub fn rotation(&self) -> Option<Accessor<'a, D>>
        ensures { Follows (IsAccessor (handle_of self.now).document)
            (handle_of self.now).json.attributes.rotation result }
    {
        let index = self.json.attributes.rotation?;
        Some(Accessor::new(self.document, index.value()))
    }

    /// The scales of the instances: `SCALE`.
    pub fn scale(&self) -> Option<Accessor<'a, D>>
        ensures { Follows (IsAccessor (handle_of self.now).document)
            (handle_of self.now).json.attributes.scale result }
    {
        let index = self.json.attributes.scale?;
        Some(Accessor::new(self.document, index.value()))
    }
}
