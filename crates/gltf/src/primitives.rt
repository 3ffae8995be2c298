//! The positions and the indices of the vertices of a primitive, over imported buffers and from the
//! bytes of a file (glTF 2.0, section 3.7.2.1, "Meshes: Overview").

ghost use Rattle.std.specs.Prelude.{◌≡◌, ◌≢◌, IfOk, IfErr, IfSome, length, slice_get};
ghost use Rattle.std.specs.Prelude.{vec_capacity};
ghost use Rattle.std.specs.Option.{option_map};
ghost use Rattle.gltf_data.specs.Iter.{counted_items};
ghost use Rattle.gltf_glb.specs.declared.error.Error.TheVariants.{Memory};
ghost use Rattle.gltf_handles.specs.Members.{Follows};
ghost use Rattle.gltf_items.specs.Counted.{IsFresh};
ghost use Rattle.gltf_json_geometry.specs.declared.semantic.Semantic.TheVariants as attributes;
ghost use Rattle.gltf_read.specs.Members.{primitive_at, attribute_at, indices_at};
ghost use Rattle.gltf_scene.specs.Meshes.{primitive_handle};
ghost use Rattle.gltf.specs.Errors.{OutOfMemoryOr};
ghost use Rattle.gltf.specs.Import.{RefusesImport, IsNotAccepted};
ghost use Rattle.gltf.specs.OfBytes.{ReadsOfFile};
ghost use Rattle.gltf.specs.Primitives.{PositionsAt, IndicesAt, PositionListAt, IndexListAt};
ghost use Rattle.gltf.specs.Primitives.{stored_at, counted_indices};
ghost use Rattle.gltf.specs.Shown.{bytes_of_each};

use crate::accessor::Item;
use crate::buffer::{Buffer, Data, bytes_of};
use crate::document::Document;
use crate::imports::import_slice;
use crate::laws::typed_primitives_are_of_the_bytes;
use crate::listing::{listed, listed_indices};
use crate::mesh::Primitive;
use crate::mesh::util::{ReadIndices, ReadPositions};
use gltf_glb::Result;
use gltf_items::F32;
use gltf_read::laws::{typed_indices_are_by_answers, typed_items_are_by_answers};
use gltf_read::typed;
use std::alloc::Global;

/// The positions of the vertices of a primitive, over the bytes of its document's buffers:
/// `POSITION`, three numbers each, in metres. Both indices count from 0, that of the mesh in the
/// document and that of the primitive in its mesh.
///
/// None where there is no such mesh or primitive, where the primitive has no such attribute, where
/// its accessor has items of another type than three floats, or where it cannot be read over these
/// buffers, as [`crate::accessor::Iter::new`] says. It takes no memory.
pub fn imported_positions<'s>(
    document: &Document,
    buffers: &'s [Data],
    mesh: usize,
    primitive: usize,
) -> Option<ReadPositions<'s>>
    ensures positions { PositionsAt {t = ⟦<[F32; 3] as Item>⟧} mesh primitive document.now
        (slice_get (bytes_of_each buffers.now)) result }
    ensures fresh { IfSome result (λ it. IsFresh (counted_items it)
        (stored_at document.now (attribute_at document.now mesh primitive attributes.Positions))) }
{
    let bytes = |buffer: Buffer| bytes_of(buffers, buffer);
    // A law that the proof stands on; the call does nothing.
    typed_items_are_by_answers::<[F32; 3], _>(&bytes);
    let primitive = primitive_of(document, mesh, primitive)?;
    typed::read_positions(&primitive, &bytes)
}

/// The indices of the vertices of a primitive, over the bytes of its document's buffers: `indices`,
/// of one, two or four bytes each.
///
/// None as with [`imported_positions`], so also where the primitive has no indices, or where these
/// are of another type than one unsigned integer each. It takes no memory.
pub fn imported_indices<'s>(
    document: &Document,
    buffers: &'s [Data],
    mesh: usize,
    primitive: usize,
) -> Option<ReadIndices<'s>>
    ensures indices { IndicesAt mesh primitive document.now
        (slice_get (bytes_of_each buffers.now)) result }
    ensures fresh { IfSome result (λ indices. IsFresh (counted_indices indices)
        (stored_at document.now (indices_at document.now mesh primitive))) }
{
    let bytes = |buffer: Buffer| bytes_of(buffers, buffer);
    // A law that the proof stands on; the call does nothing.
    typed_indices_are_by_answers(&bytes);
    let primitive = primitive_of(document, mesh, primitive)?;
    typed::read_indices(&primitive, &bytes)
}

/// The positions of the vertices of a primitive, from the bytes of a file, in a list.
///
/// None where the file is accepted and [`imported_positions`] returns none. The error is that of
/// [`import_slice`]; or [`gltf_glb::Error::Memory`] where there is none for the list, which is
/// reserved once, before any position is read.
pub fn read_positions(
    alloc: Global,
    bytes: &[u8],
    mesh: usize,
    primitive: usize,
) -> Result<Option<Vec<[F32; 3]>>>
    ensures read { IfOk result (λ positions. ReadsOfFile
        (PositionListAt ⟦<[F32; 3] as Item>⟧ mesh primitive) bytes.now
        (option_map (λ list. list.items) positions)) }
    ensures room { IfOk result (λ positions. IfSome positions
        (λ l. vec_capacity l ≡ length l.items)) }
    ensures refused { IfErr result (OutOfMemoryOr (RefusesImport bytes.now)) }
    ensures exact { IfErr result (λ e. e ≢ Memory → IsNotAccepted bytes.now) }
{
    // A law that the proof stands on; the call does nothing.
    typed_primitives_are_of_the_bytes();
    let (document, buffers) = import_slice(alloc, bytes)?;
    listed(
        alloc,
        imported_positions(&document, &buffers, mesh, primitive),
    )
}

/// The indices of the vertices of a primitive, from the bytes of a file, in a list, each in four
/// bytes.
///
/// None and the errors as with [`read_positions`].
pub fn read_indices(
    alloc: Global,
    bytes: &[u8],
    mesh: usize,
    primitive: usize,
) -> Result<Option<Vec<u32>>>
    ensures read { IfOk result (λ indices. ReadsOfFile (IndexListAt mesh primitive) bytes.now
        (option_map (λ list. list.items) indices)) }
    ensures room { IfOk result (λ indices. IfSome indices
        (λ l. vec_capacity l ≡ length l.items)) }
    ensures refused { IfErr result (OutOfMemoryOr (RefusesImport bytes.now)) }
    ensures exact { IfErr result (λ e. e ≢ Memory → IsNotAccepted bytes.now) }
{
    // A law that the proof stands on; the call does nothing.
    typed_primitives_are_of_the_bytes();
    let (document, buffers) = import_slice(alloc, bytes)?;
    listed_indices(
        alloc,
        imported_indices(&document, &buffers, mesh, primitive),
    )
}

/// The primitive at an index of the mesh at an index.
fn primitive_of(document: &Document, mesh: usize, primitive: usize) -> Option<Primitive<'_>>
    ensures { Follows (λ json p. ((primitive_handle p).document ≡ document.now)
        × ((primitive_handle p).json ≡ json)) (primitive_at document.now mesh primitive) result }
{
    document.meshes().nth(mesh)?.primitives().nth(primitive)
}
