//! Bytes of accessors, and why a reader returned none.
ghost use Rattle.std.specs.Prelude.{IfOk, option_map};
ghost use Rattle.gltf_handles.specs.Accessors.{accessor_handle};
ghost use Rattle.gltf_json_geometry.specs.declared.semantic.Semantic.TheVariants as attributes;
ghost use Rattle.gltf_read.specs.Primitives.{attribute};
ghost use Rattle.gltf_scene.specs.Meshes.{primitive_handle};
ghost use Rattle.gltf.specs.Shown.{bytes_of_each};
ghost use Rattle.gltf_guide.specs.Bytes.{LieAs, AreBytesOf, IsWhyNoPositions};

use gltf::buffer::{Data, bytes_of};
use gltf::{Accessor, Buffer, Primitive, Semantic};
use gltf_access::{NotRead, accessor_bytes, mesh, to_bytes};
use std::alloc::{AllocError, Global};

/// The items of an accessor where they lie, and the distance from item to item.
pub fn raw<'s>(accessor: Accessor, buffers: &'s [Data]) -> Option<(&'s [u8], usize)>
    ensures { LieAs (accessor_handle accessor.entry) (bytes_of_each buffers.now) result }
{
    let get_buffer_data = |buffer: Buffer| bytes_of(buffers, buffer);
    let raw = accessor_bytes(accessor, &get_buffer_data)?;
    Some((raw.bytes, raw.stride))
}

/// A copy of its items, one after the other.
pub fn flat(
    alloc: Global,
    accessor: Accessor,
    buffers: &[Data],
) -> Result<Option<Vec<u8>>, AllocError>
    ensures { IfOk result (λ copy. AreBytesOf (accessor_handle accessor.entry)
        (bytes_of_each buffers.now) (option_map (λ bytes. bytes.items) copy)) }
{
    let get_buffer_data = |buffer: Buffer| bytes_of(buffers, buffer);
    to_bytes(alloc, accessor, &get_buffer_data)
}

/// Why the positions of a primitive cannot be read, None where they can.
pub fn why(primitive: &Primitive, buffers: &[Data]) -> Option<NotRead>
    ensures { let p = primitive_handle primitive.now in
        IsWhyNoPositions p.document (bytes_of_each buffers.now)
        (attribute p attributes.Positions) result }
{
    let get_buffer_data = |buffer: Buffer| bytes_of(buffers, buffer);
    mesh::why_not_read(primitive, &Semantic::Positions, &get_buffer_data)
}
