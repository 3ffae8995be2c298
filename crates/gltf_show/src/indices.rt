//! The indices of a primitive.
use crate::call::Place;
use crate::refusal::Refusal;
use gltf::buffer::Data;
use gltf::mesh::Reader;
use gltf::mesh::util::ReadIndices;
use gltf::mesh::util::indices::{CastingIter, U32};
use gltf::{Buffer, Document};
use std::io::{self, Write};
use std::rc::Rc;

/// Writes the indices of the primitive at a place, a line for each.
pub(crate) fn write_indices<O: Write>(
    document: &Document,
    buffers: &[Rc<Data>],
    place: Place,
    out: &mut O,
) -> Result<(), Refusal> {
    let indices = indices_at(document, buffers, place)?;
    write_lines(indices.into_u32(), out).map_err(Refusal::Write)
}

/// The indices of the primitive at a place, over the bytes of its document's buffers.
fn indices_at<'s>(
    document: &Document,
    buffers: &'s [Rc<Data>],
    place: Place,
) -> Result<ReadIndices<'s>, Refusal> {
    let mesh = document.meshes().nth(place.mesh).ok_or(Refusal::NoMesh)?;
    let primitive = mesh
        .primitives()
        .nth(place.primitive)
        .ok_or(Refusal::NoPrimitive)?;
    let bytes = |buffer: Buffer| bytes_of(buffers, buffer);
    Reader::new(&primitive, &bytes)
        .read_indices()
        .ok_or(Refusal::NoIndices)
}

/// The bytes of a buffer, among those of all.
fn bytes_of<'s>(buffers: &'s [Rc<Data>], buffer: Buffer) -> Option<&'s [u8]> {
    let data = buffers.get(buffer.index())?;
    Some(data.0.as_slice())
}

/// Writes a line for each index.
fn write_lines<O: Write>(mut indices: CastingIter<'_, U32>, out: &mut O) -> io::Result<()> {
    for _ in 0..indices.len() {
        if let Some(index) = indices.next() {
            writeln!(out, "{index}")?;
        }
    }
    Ok(())
}
