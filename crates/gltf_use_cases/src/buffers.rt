//! Each buffer's own answer.
use gltf::buffer::Data;
use gltf::{Document, Error, Gltf, Result, Shelf, import_each_buffer, import_each_buffer_from};
use gltf_case::asked::Asked;
use gltf_case::refused::write_error;
use gltf_case::shelf::{blob_of, shelf_of};
use gltf_case::shown::Written;
use std::alloc::{AllocError, Global};
use std::rt::HostRuntime;

/// What a list of answers is, as far as there is memory for it.
type Answers = Result<Vec<Result<Data>>, AllocError>;

/// No source of names.
const NOWHERE: Option<&mut Shelf> = None;

/// Writes each buffer's own answer: `each [+BLOB] NAME=DIGITS..`, where names stand on a shelf.
/// Without names none is asked for.
pub(crate) fn write_each(
    alloc: Global,
    asked: Asked<'_>,
    document: &Document,
    line: &mut String,
) -> Written {
    let blob = blob_of(alloc, asked)?;
    if asked.words.is_empty() {
        let answers = import_each_buffer_from(alloc, document, NOWHERE, blob);
        return write_answers(asked, &answers?, line);
    }
    let mut shelf = shelf_of(alloc, asked)?;
    let answers = import_each_buffer_from(alloc, document, Some(&mut shelf), blob);
    write_answers(asked, &answers?, line)
}

/// The same where names stand for files in a folder: `beside [+BLOB] FOLDER`. Without one no name
/// is asked for.
pub(crate) fn write_beside(rt: &HostRuntime, asked: Asked<'_>, line: &mut String) -> Written {
    match &Gltf::from_slice(rt.alloc(), asked.given.as_bytes()) {
        Ok(file) => write_answers(asked, &answers_beside(rt, asked, &file.document)?, line),
        Err(error) => write_error(asked, error, line),
    }
}

fn answers_beside(rt: &HostRuntime, asked: Asked<'_>, document: &Document) -> Answers {
    let base = (!asked.words.is_empty()).then_some(asked.words);
    let blob = blob_of(rt.alloc(), asked)?;
    import_each_buffer(rt, rt.alloc(), document, base, blob)
}

/// Writes the bytes of each buffer, or what is wrong with it.
fn write_answers(asked: Asked<'_>, answers: &[Result<Data>], line: &mut String) -> Written {
    for answer in answers {
        if !line.is_empty() {
            line.push_str("; ")?;
        }
        match answer {
            Ok(data) => write!(line, "{data:?}")?,
            Err(Error::Io(_)) => line.push_str("not read")?,
            Err(error) => write_error(asked, error, line)?,
        }
    }
    Ok(())
}
