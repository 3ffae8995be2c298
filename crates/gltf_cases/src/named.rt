//! Named bytes, and the buffers of documents and sources that name them.
use crate::documents::document_of;
use crate::told::{Told, tell};
use gltf::buffer::{Data, Source};
use gltf::{
    Document, Error, Folder, Gltf, Name, NamedBytes, NamedFault, Result, Shelf, import,
    import_buffers, import_buffers_from,
};
use gltf_case::asked::Asked;
use gltf_case::bytes::bytes_of;
use gltf_case::refused::write_error;
use gltf_case::shelf::{blob_of, put, shelf_of};
use gltf_case::shown::{Written, tell_copy};
use gltf_names::Inside;
use std::alloc::Global;
use std::rt::HostRuntime;

/// Answers a call on files of the system, whose path or folder is given.
///
/// - `opened CALL`: the import of a file; `open`: the blob of a file without its buffers.
/// - `folder NAME..`: the bytes of these names in a folder.
/// - `beside [+BLOB] FOLDER`: the buffers of a document of the given text, where names stand for
///   files in that folder; without one no name is asked for.
pub(crate) fn of_system(rt: &HostRuntime, asked: Asked<'_>, line: &mut String) -> Written {
    let alloc = rt.alloc();
    match asked.call {
        "opened" => {
            let answer = import(rt, alloc, asked.given);
            tell(alloc, asked.inner(), answer, line)
        }
        "folder" => write_reads(alloc, asked, &mut Folder::new(rt, asked.given), line),
        "beside" => of_folder(rt, asked, line),
        _ => tell(alloc, asked, Gltf::open(rt, alloc, asked.given), line),
    }
}

/// The buffers of a document of the given text, from a folder.
fn of_folder(rt: &HostRuntime, asked: Asked<'_>, line: &mut String) -> Written {
    match &document_of(rt.alloc(), asked.given.as_bytes()) {
        Ok(document) => from_folder(rt, asked, document, line),
        Err(error) => write_error(asked, error, line),
    }
}

fn from_folder(
    rt: &HostRuntime,
    asked: Asked<'_>,
    document: &Document,
    line: &mut String,
) -> Written {
    let base = if asked.words.is_empty() {
        None
    } else {
        Some(asked.words)
    };
    let blob = blob_of(rt.alloc(), asked)?;
    let answer = import_buffers(rt, rt.alloc(), document, base, blob);
    tell(rt.alloc(), asked, answer, line)
}

/// The bytes of names on a shelf, in turn: `shelf WORD..`, where a word with `=` puts bytes on it,
/// as `files` says.
pub(crate) fn of_shelf(alloc: Global, asked: Asked<'_>, line: &mut String) -> Written {
    let mut shelf = Shelf::new(alloc);
    for word in asked.words.split_whitespace() {
        if word.contains("=") {
            put(alloc, &mut shelf, word)?;
        } else {
            write_read(alloc, &mut shelf, word, line)?;
        }
    }
    Ok(())
}

/// The bytes of names inside the folder of a document, whose path is given, and of none outside:
/// `inside WORD..`, where what words with `=` put on a shelf stands there from the first read on.
pub(crate) fn of_inside(alloc: Global, asked: Asked<'_>, line: &mut String) -> Written {
    let mut shelf = Shelf::new(alloc);
    for word in asked.words.split_whitespace() {
        if word.contains("=") {
            put(alloc, &mut shelf, word)?;
        }
    }
    let mut inside = Inside::new(shelf, asked.given);
    for word in asked.words.split_whitespace() {
        if !word.contains("=") {
            write_read(alloc, &mut inside, word, line)?;
        }
    }
    Ok(())
}

/// The bytes of these names, in turn.
fn write_reads<N: NamedBytes>(
    alloc: Global,
    asked: Asked<'_>,
    names: &mut N,
    line: &mut String,
) -> Written {
    for word in asked.words.split_whitespace() {
        write_read(alloc, names, word, line)?;
    }
    Ok(())
}

/// The bytes of a relative reference, or of the path of a file after `file:`, where `+` stands for
/// a space; or with the word `failed` the name that failed last.
fn write_read<N: NamedBytes>(
    alloc: Global,
    names: &mut N,
    word: &str,
    line: &mut String,
) -> Written {
    if !line.is_empty() {
        line.push_str("; ")?;
    }
    if word == "failed" {
        return write!(line, "{:?}", names.last_failed());
    }
    let name = word.replace(alloc, "+", " ")?;
    match name.strip_prefix("file:") {
        Some(path) => write_bytes(&names.read(alloc, Name::File(path)), line),
        None => write_bytes(&names.read(alloc, Name::Relative(name.as_str())), line),
    }
}

/// Writes the bytes that a name has.
fn write_bytes(read: &std::result::Result<Vec<u8>, NamedFault>, line: &mut String) -> Written {
    match read {
        Ok(bytes) => write!(line, "{bytes:?}"),
        Err(NamedFault::Io(_)) => line.push_str("not read"),
        Err(NamedFault::Memory) => line.push_str("out of memory"),
    }
}

/// The bytes of a source, whose URI is given; without one it is the blob: `source NAME=DIGITS..`,
/// and with `+BLOB` what is left of the blob too. Without names none is asked for.
pub(crate) fn of_source(alloc: Global, asked: Asked<'_>, line: &mut String) -> Written {
    let mut blob = blob_of(alloc, asked)?;
    tell(alloc, asked, data_of(alloc, asked, &mut blob), line)?;
    match asked.blob {
        Some(_) => write!(line, "; blob {blob:?}"),
        None => Ok(()),
    }
}

/// The bytes of a source, as the case asks for them.
fn data_of(alloc: Global, asked: Asked<'_>, blob: &mut Option<Vec<u8>>) -> Result<Data> {
    if asked.words.is_empty() {
        return data_from(alloc, asked, NOWHERE, blob);
    }
    let mut shelf = shelf_of(alloc, asked)?;
    data_from(alloc, asked, Some(&mut shelf), blob)
}

/// No source of names.
const NOWHERE: Option<&mut Shelf> = None;

fn data_from(
    alloc: Global,
    asked: Asked<'_>,
    names: Option<&mut Shelf>,
    blob: &mut Option<Vec<u8>>,
) -> Result<Data> {
    let source = if asked.given.is_empty() {
        Source::Bin
    } else {
        Source::Uri(asked.given)
    };
    match asked.blob {
        Some(_) => Data::from_source_and_blob(alloc, source, names, blob),
        None => Data::from_source(alloc, source, names),
    }
}

/// The buffers of a document of the given text: `named [+BLOB] NAME=DIGITS..`. Without names none
/// is asked for.
pub(crate) fn of_document(alloc: Global, asked: Asked<'_>, line: &mut String) -> Written {
    match &document_of(alloc, asked.given.as_bytes()) {
        Ok(document) => tell(alloc, asked, buffers_of(alloc, asked, document), line),
        Err(error) => write_error(asked, error, line),
    }
}

fn buffers_of(alloc: Global, asked: Asked<'_>, document: &Document) -> Result<Vec<Data>> {
    let blob = blob_of(alloc, asked)?;
    if asked.words.is_empty() {
        return import_buffers_from(alloc, document, NOWHERE, blob);
    }
    let mut shelf = shelf_of(alloc, asked)?;
    import_buffers_from(alloc, document, Some(&mut shelf), blob)
}

impl Told for Data {
    /// The bytes.
    fn tell(&self, alloc: Global, _asked: Asked<'_>, line: &mut String) -> Written {
        write!(line, "{self:?}")?;
        tell_copy(alloc, self.clone(alloc), self, line)
    }
}

impl Told for Vec<Data> {
    /// The bytes of each buffer.
    fn tell(&self, alloc: Global, _asked: Asked<'_>, line: &mut String) -> Written {
        write!(line, "{self:?}")?;
        for data in self {
            tell_copy(alloc, data.clone(alloc), data, line)?;
        }
        Ok(())
    }
}
