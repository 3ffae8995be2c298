//! The extension of views.
ghost use Rattle.std.specs.Prelude.{◌≡◌, codes};
ghost use Rattle.gltf_handles.specs.Buffers.{view_handle, IsBuffer};
ghost use Rattle.gltf_handles.specs.Members.{unknown_extensions, extension_named, IsCode};
ghost use Rattle.gltf_extension_records.specs.Views.{meshopt_compression};
ghost use Rattle.gltf_extension_records.specs.Rules.{meshopt_compression_rules};
ghost use Rattle.gltf_extensions.specs.Handles.{handle_of, IsRead};

use crate::fault::ExtensionFault;
use crate::handle::Handle;
use crate::reading::read_handle;
use gltf_extension_records::view::{MeshoptCompression, MeshoptFilter, MeshoptMode};
use gltf_handles::buffer::{Buffer, View};
use gltf_handles::member::meaning;
use gltf_rules::Records;
use std::alloc::Global;

/// Where the compressed bytes of a view are, and how they are decompressed (the
/// extension `EXT_meshopt_compression`). Nothing is decompressed here.
pub fn meshopt_compression<'a, D: Records>(
    alloc: Global,
    view: &View<'a, D>,
) -> Option<Result<Handle<'a, MeshoptCompression, D>, ExtensionFault>>
    ensures { IsRead meshopt_compression meshopt_compression_rules (view_handle view.now).document
        (extension_named (codes "EXT_meshopt_compression")
        (unknown_extensions (view_handle view.now).json.extensions)) result }
{
    read_handle(
        alloc,
        view.document(),
        view.extension_value("EXT_meshopt_compression"),
    )
}

impl<'a, D: Records> Handle<'a, MeshoptCompression, D> {
    /// The buffer with the compressed bytes: `buffer`.
    pub fn buffer(&self) -> Buffer<'a, D>
        ensures { IsBuffer (handle_of self.now).document (handle_of self.now).json.buffer result }
    {
        Buffer::new(self.document, self.json.buffer.value())
    }

    /// What the items are: `mode`.
    pub fn mode(&self) -> MeshoptMode
        ensures { IsCode (handle_of self.now).json.mode result }
    {
        meaning(self.json.mode)
    }

    /// What is done to the items after they are decompressed: `filter`, by default nothing.
    pub fn filter(&self) -> MeshoptFilter
        ensures { IsCode (handle_of self.now).json.filter result }
    {
        meaning(self.json.filter)
    }
}
