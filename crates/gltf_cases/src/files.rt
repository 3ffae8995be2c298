//! Imports of files that name others.
use crate::containers::container;
use gltf::buffer::Data;
use gltf::{Document, Error, Name, NamedBytes, Result, Shelf, import_from};
use gltf_case::asked::Asked;
use gltf_case::refused::write_error;
use gltf_case::shelf::shelf_of;
use gltf_case::shown::Written;
use std::alloc::Global;

/// The import of the file `a.gltf` from a shelf, where it is the given text, or a container of the
/// text and the blob. The words say what else is on the shelf, as `shelf_of` has them.
///
/// The line has the bytes of the buffers, or what is wrong, and which name failed.
pub(crate) fn of_shelf(alloc: Global, asked: Asked<'_>, line: &mut String) -> Written {
    if asked.blob.is_none() {
        return of_file(alloc, asked, asked.given.as_bytes(), line);
    }
    match &container(alloc, asked) {
        Ok(bytes) => of_file(alloc, asked, bytes, line),
        Err(error) => write_error(asked, error, line),
    }
}

fn of_file(alloc: Global, asked: Asked<'_>, file: &[u8], line: &mut String) -> Written {
    let mut shelf = shelf_of(alloc, asked)?;
    shelf.put(Name::File("a.gltf"), file)?;
    from_shelf(alloc, asked, &mut shelf, line)
}

fn from_shelf(alloc: Global, asked: Asked<'_>, shelf: &mut Shelf, line: &mut String) -> Written {
    tell_import(asked, import_from(alloc, shelf, "a.gltf"), line)?;
    match shelf.last_failed() {
        Some(name) => write!(line, "; {name} failed"),
        None => Ok(()),
    }
}

/// Writes the bytes of the buffers, or what is wrong. The answer is dropped here, at one exit.
fn tell_import(
    asked: Asked<'_>,
    answer: Result<(Document, Vec<Data>)>,
    line: &mut String,
) -> Written {
    write_import(asked, &answer, line)
}

/// Writes the bytes of the buffers, or what is wrong, by reference.
fn write_import(
    asked: Asked<'_>,
    answer: &Result<(Document, Vec<Data>)>,
    line: &mut String,
) -> Written {
    match answer {
        Ok(read) => write!(line, "{:?}", read.1),
        Err(Error::Io(_)) => line.push_str("not read"),
        Err(error) => write_error(asked, error, line),
    }
}
