//! Items of accessors, as a type that a word names.
use crate::told::{Told, tell};
use gltf::accessor::{Item, Iter, Step};
use gltf::buffer::Data;
use gltf::{Buffer, Document, imported_items, read_indices, read_items, read_positions};
use gltf_case::asked::Asked;
use gltf_case::by_type;
use gltf_case::shown::{Written, show};
use gltf_case::steps::{steps_of, write_walk};
use std::alloc::{AllocError, Global};
use std::fmt::Debug;

/// Writes the items of an accessor, from the bytes of a file.
pub(crate) fn read(alloc: Global, asked: Asked<'_>, bytes: &[u8], line: &mut String) -> Written {
    by_type!(asked.word(0), line, read_as(alloc, asked, bytes))
}

/// Writes the items of an accessor that are read as `T`.
fn read_as<T: Item + Debug>(
    alloc: Global,
    asked: Asked<'_>,
    bytes: &[u8],
    line: &mut String,
) -> Written {
    tell(
        alloc,
        asked,
        read_items::<T>(alloc, bytes, asked.number(1)),
        line,
    )
}

/// Writes the indices of a primitive, from the bytes of a file, or with the call `read_positions`
/// its positions.
pub(crate) fn read_vertices(
    alloc: Global,
    asked: Asked<'_>,
    bytes: &[u8],
    line: &mut String,
) -> Written {
    let (mesh, primitive) = (asked.number(0), asked.number(1));
    if asked.call == "read_positions" {
        let positions = read_positions(alloc, bytes, mesh, primitive);
        tell(alloc, asked, positions, line)
    } else {
        let indices = read_indices(alloc, bytes, mesh, primitive);
        tell(alloc, asked, indices, line)
    }
}

impl<T: Debug> Told for Option<Vec<T>> {
    fn tell(&self, _alloc: Global, _asked: Asked<'_>, line: &mut String) -> Written {
        write!(line, "{self:?}")
    }
}

/// Writes the items of the first accessor, where each buffer has these bytes.
pub(crate) fn over(
    alloc: Global,
    asked: Asked<'_>,
    document: &Document,
    bytes: Option<&[u8]>,
    line: &mut String,
) -> Written {
    by_type!(asked.word(0), line, over_as(alloc, document, bytes))
}

/// Writes the items of the first accessor that are read as `T`, where each buffer has these bytes.
fn over_as<T: Item + Debug>(
    alloc: Global,
    document: &Document,
    bytes: Option<&[u8]>,
    line: &mut String,
) -> Written {
    match document.accessors().next() {
        Some(accessor) => {
            let items = Iter::<T>::new(accessor, &|_buffer: Buffer| bytes);
            show(listed(alloc, items), line)
        }
        None => line.push_str("no accessor"),
    }
}

/// All items that are left, where there are items.
fn listed<T: Item>(
    alloc: Global,
    items: Option<Iter<'_, T>>,
) -> Result<Option<Vec<T>>, AllocError> {
    match items {
        Some(items) => Ok(Some(items.collect(alloc)?)),
        None => Ok(None),
    }
}

/// Writes what a walk over the items of an accessor answers.
pub(crate) fn walked(
    alloc: Global,
    asked: Asked<'_>,
    document: &Document,
    buffers: &[Data],
    line: &mut String,
) -> Written {
    let steps = steps_of(alloc, asked.words)?;
    walked_by(alloc, asked, document, buffers, &steps, line)
}

/// Writes what a walk by these steps answers. What has memory is held by the caller, which has one
/// exit: here there is one for each type.
fn walked_by(
    alloc: Global,
    asked: Asked<'_>,
    document: &Document,
    buffers: &[Data],
    steps: &[Step],
    line: &mut String,
) -> Written {
    by_type!(
        asked.word(0),
        line,
        walked_as(alloc, asked, document, buffers, steps)
    )
}

/// Writes what a walk over the items of an accessor answers, which are read as `T`.
fn walked_as<T: Item + Debug>(
    alloc: Global,
    asked: Asked<'_>,
    document: &Document,
    buffers: &[Data],
    steps: &[Step],
    line: &mut String,
) -> Written {
    let items = imported_items::<T>(document, buffers, asked.number(1));
    write_walk(alloc, asked.words, steps, items, line)
}
