//! Bytes of accessors, views and images.
use crate::buffers::buffers_of;
use gltf::buffer::{Data, bytes_of};
use gltf::{Buffer, Document};
use gltf_access::{
    Bytes, NotWritten, accessor_bytes, image_bytes, to_bytes, view_bytes, write_components,
};
use gltf_case::asked::Asked;
use gltf_case::bytes::write_hex;
use gltf_case::shown::Written;
use std::alloc::{AllocError, Global};

/// Writes bytes of a part of a document: `CALL +DIGITS,DIGITS.. INDEX`.
///
/// - `raw`: of an accessor, where they lie, after their stride and their count.
/// - `flat`: of its items, one after the other.
/// - `components`: of their components, in a room of so many bytes, a second number says.
/// - `view`, `image`: of a view and of an image.
pub(crate) fn write(
    alloc: Global,
    asked: Asked<'_>,
    document: &Document,
    line: &mut String,
) -> Written {
    let buffers = buffers_of(alloc, asked)?;
    match asked.call {
        "raw" => write_raw(raw_of(document, asked.number(0), &buffers), line),
        "view" => write_bytes(view_of(document, asked.number(0), &buffers), line),
        "image" => write_bytes(image_of(document, asked.number(0), &buffers), line),
        "components" => {
            let mut room = Vec::new(alloc);
            room.resize(asked.number(1), 0x5a)?;
            let written = components_of(document, asked.number(0), &buffers, &mut room);
            write_components_in(written, &room, line)
        }
        _ => write_flat(flat_of(alloc, document, asked.number(0), &buffers)?, line),
    }
}

fn raw_of<'s>(document: &Document, index: usize, buffers: &'s [Data]) -> Option<Bytes<'s>> {
    let given = |buffer: Buffer| bytes_of(buffers, buffer);
    accessor_bytes(document.accessors().nth(index)?, &given)
}

fn view_of<'s>(document: &Document, index: usize, buffers: &'s [Data]) -> Option<&'s [u8]> {
    let given = |buffer: Buffer| bytes_of(buffers, buffer);
    view_bytes(document.views().nth(index)?, &given)
}

fn image_of<'s>(document: &Document, index: usize, buffers: &'s [Data]) -> Option<&'s [u8]> {
    let given = |buffer: Buffer| bytes_of(buffers, buffer);
    image_bytes(document.images().nth(index)?, &given)
}

fn components_of(
    document: &Document,
    index: usize,
    buffers: &[Data],
    room: &mut [u8],
) -> Option<Result<usize, NotWritten>> {
    let given = |buffer: Buffer| bytes_of(buffers, buffer);
    let accessor = document.accessors().nth(index)?;
    Some(write_components(accessor, &given, room))
}

/// Writes how many bytes were written, or why none, and the room.
fn write_components_in(
    written: Option<Result<usize, NotWritten>>,
    room: &[u8],
    line: &mut String,
) -> Written {
    match written {
        Some(Ok(size)) => write!(line, "{size} ")?,
        Some(Err(reason)) => write!(line, "{reason}: ")?,
        None => line.push_str("none: ")?,
    }
    write_hex(room, line)
}

fn flat_of(
    alloc: Global,
    document: &Document,
    index: usize,
    buffers: &[Data],
) -> Result<Option<Vec<u8>>, AllocError> {
    let given = |buffer: Buffer| bytes_of(buffers, buffer);
    match document.accessors().nth(index) {
        Some(accessor) => to_bytes(alloc, accessor, &given),
        None => Ok(None),
    }
}

/// Writes the bytes of an accessor, after their stride and their count.
fn write_raw(raw: Option<Bytes<'_>>, line: &mut String) -> Written {
    match raw {
        Some(raw) => {
            write!(line, "{} {} ", raw.stride, raw.count)?;
            write_hex(raw.bytes, line)
        }
        None => line.push_str("none"),
    }
}

/// Writes bytes, which are dropped here.
fn write_flat(bytes: Option<Vec<u8>>, line: &mut String) -> Written {
    match &bytes {
        Some(bytes) => write_bytes(Some(bytes.as_slice()), line),
        None => write_bytes(None, line),
    }
}

/// Writes bytes; `empty` where there are none of them.
fn write_bytes(bytes: Option<&[u8]>, line: &mut String) -> Written {
    match bytes {
        Some([]) => line.push_str("empty"),
        Some(bytes) => write_hex(bytes, line),
        None => line.push_str("none"),
    }
}
