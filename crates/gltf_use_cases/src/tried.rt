//! The items of accessors, or why there are none.
use gltf::accessor::{Item, Iter, Unreadable};
use gltf::{Buffer, Document};
use gltf_case::asked::Asked;
use gltf_case::by_type;
use gltf_case::bytes::bytes_of;
use gltf_case::shown::{Written, show};
use std::alloc::{AllocError, Global};
use std::fmt::Debug;

/// Writes the items of an accessor, or why there are none: `try +BLOB TYPE INDEX [WITHOUT]`. Each
/// buffer has the bytes of the blob, but the one of the last number, which has none.
pub(crate) fn write(
    alloc: Global,
    asked: Asked<'_>,
    document: &Document,
    line: &mut String,
) -> Written {
    let bytes = bytes_of(alloc, asked.blob.unwrap_or(""))?;
    write_by(alloc, asked, document, &bytes, line)
}

/// Writes the items of an accessor by the bytes of all buffers. It holds no memory: there is an
/// exit for each type.
fn write_by(
    alloc: Global,
    asked: Asked<'_>,
    document: &Document,
    bytes: &[u8],
    line: &mut String,
) -> Written {
    by_type!(asked.word(0), line, write_as(alloc, asked, document, bytes))
}

/// Writes the items of an accessor that are read as `T`.
fn write_as<T: Item + Debug>(
    alloc: Global,
    asked: Asked<'_>,
    document: &Document,
    bytes: &[u8],
    line: &mut String,
) -> Written {
    let without = asked.word(2).parse::<usize>().ok();
    let given = |buffer: Buffer| {
        if Some(buffer.index()) == without {
            None
        } else {
            Some(bytes)
        }
    };
    match document.accessors().nth(asked.number(1)) {
        Some(accessor) => write_tried(alloc, Iter::<T>::try_new(accessor, &given), line),
        None => line.push_str("no accessor"),
    }
}

/// Writes items, or why there are none.
fn write_tried<T: Item + Debug>(
    alloc: Global,
    tried: Result<Iter<'_, T>, Unreadable>,
    line: &mut String,
) -> Written {
    match tried {
        Ok(items) => {
            let all: Result<Vec<T>, AllocError> = items.collect(alloc);
            show(all, line)
        }
        Err(reason) => write!(line, "{reason:?}: {reason}"),
    }
}
