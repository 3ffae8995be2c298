//! Files that are mended before they are read, by each call of `gltf_lenient`.
use crate::mended::{mends_of, write_document};
use gltf::binary::Header;
use gltf::buffer::Data;
use gltf::{Document, Glb, Name, NamedBytes};
use gltf_case::asked::Asked;
use gltf_case::bytes::{bytes_of, write_hex};
use gltf_case::refused::write_error;
use gltf_case::shelf::shelf_of;
use gltf_case::shown::Written;
use gltf_extensions::supported;
use gltf_lenient::{
    Imported, Opened, Options, from_bytes_with, from_reader_with, from_slice_with,
    import_bytes_with, import_from_with, import_slice_with, import_with,
};
use std::alloc::Global;
use std::borrow::CowSlice;
use std::io;
use std::io::Read;
use std::rt::HostRuntime;

/// Writes what a call gives on the given text, or on a container of the text and the blob. The
/// words are the call, then what is mended, as `mends_of` has it, with the extensions that are
/// read here, or `new` for neither, and then
///
/// - `file`, `lent`, `given`: nothing. The call without buffers: of a slice, of bytes that are lent
///   and of bytes that are given up.
/// - `import`, `import_lent`, `import_given`: nothing. The same with buffers.
/// - `reader`: how many bytes the reader gives before it fails; all, and no failure, where there
///   is no number.
/// - `shelf`: a path, and what else is on the shelf with `a.gltf`, as `shelf_of` has it.
/// - `path`: the path of a file of the system. No text is given.
pub(crate) fn write(rt: &HostRuntime, asked: Asked<'_>, line: &mut String) -> gltf::Result<()> {
    let asked = asked.inner();
    let options = options_of(asked.word(0));
    if asked.call == "path" {
        let answer = import_with(rt, rt.alloc(), asked.word(1), &options);
        write_import(asked, answer, line)?;
        return Ok(());
    }
    let bytes = file_of(rt.alloc(), asked)?;
    match asked.call {
        "reader" => write_read(rt.alloc(), asked, &bytes, &options, line)?,
        "shelf" => write_shelf(rt.alloc(), asked, &bytes, &options, line)?,
        "file" | "lent" | "given" => {
            let answer = open(rt.alloc(), asked.call, bytes, &options);
            write_open(asked, answer, line)?;
        }
        _ => {
            let answer = import(rt.alloc(), asked.call, bytes, &options);
            write_import(asked, answer, line)?;
        }
    }
    Ok(())
}

fn options_of(word: &str) -> Options<'static> {
    if word == "new" {
        return Options::new();
    }
    Options {
        also_supported: supported(),
        mends: mends_of(word),
    }
}

/// The bytes of the file that is given.
fn file_of(alloc: Global, asked: Asked<'_>) -> gltf::Result<Vec<u8>> {
    let Some(digits) = asked.blob else {
        return Ok(Vec::from_slice(alloc, asked.given.as_bytes())?);
    };
    let blob = bytes_of(alloc, digits)?;
    let glb = Glb {
        header: Header {
            magic: *b"glTF",
            version: 2,
            length: 0,
        },
        json: CowSlice::Borrowed(asked.given.as_bytes()),
        bin: Some(CowSlice::Borrowed(blob.as_slice())),
    };
    glb.to_vec(alloc)
}

fn open(alloc: Global, call: &str, bytes: Vec<u8>, options: &Options<'_>) -> gltf::Result<Opened> {
    match call {
        "lent" => from_bytes_with(alloc, CowSlice::Borrowed(bytes.as_slice()), options),
        "given" => from_bytes_with(alloc, CowSlice::Owned(bytes), options),
        _ => from_slice_with(alloc, &bytes, options),
    }
}

fn import(
    alloc: Global,
    call: &str,
    bytes: Vec<u8>,
    options: &Options<'_>,
) -> gltf::Result<Imported> {
    match call {
        "import_lent" => import_bytes_with(alloc, CowSlice::Borrowed(bytes.as_slice()), options),
        "import_given" => import_bytes_with(alloc, CowSlice::Owned(bytes), options),
        _ => import_slice_with(alloc, &bytes, options),
    }
}

/// A reader that gives some bytes, and then fails.
#[derive(Drop)]
struct Failing<'b>(&'b [u8]);

impl Read for Failing<'_> {
    fn read(&mut self, buf: &mut [u8]) -> io::Result<usize> {
        if self.0.is_empty() {
            return Err(io::Error::from(io::ErrorKind::Other));
        }
        self.0.read(buf)
    }
}

fn write_read(
    alloc: Global,
    asked: Asked<'_>,
    bytes: &[u8],
    options: &Options<'_>,
    line: &mut String,
) -> Written {
    let Ok(count) = asked.word(1).parse::<usize>() else {
        let mut left = bytes;
        let answer = from_reader_with(alloc, &mut left, options);
        return write_open(asked, answer, line);
    };
    let mut reader = Failing(bytes.split_at(count.min(bytes.len())).0);
    let answer = from_reader_with(alloc, &mut reader, options);
    write_open(asked, answer, line)
}

fn write_shelf(
    alloc: Global,
    asked: Asked<'_>,
    bytes: &[u8],
    options: &Options<'_>,
    line: &mut String,
) -> Written {
    let mut shelf = shelf_of(alloc, asked.inner())?;
    shelf.put(Name::File("a.gltf"), bytes)?;
    let answer = import_from_with(alloc, &mut shelf, asked.word(1), options);
    write_import(asked, answer, line)?;
    match shelf.last_failed() {
        Some(name) => write!(line, "; {name} failed"),
        None => Ok(()),
    }
}

/// Writes what a line says of an answer, which is dropped here.
fn write_open(asked: Asked<'_>, answer: gltf::Result<Opened>, line: &mut String) -> Written {
    match &answer {
        Ok(opened) => {
            write_names(&opened.gltf.document, &opened.also_required, line)?;
            match &opened.gltf.blob {
                Some(blob) => write_bytes("blob", blob, line),
                None => Ok(()),
            }
        }
        Err(error) => write_error(asked, error, line),
    }
}

/// The same of an answer with buffers.
fn write_import(asked: Asked<'_>, answer: gltf::Result<Imported>, line: &mut String) -> Written {
    match &answer {
        Ok(imported) => {
            write_names(&imported.document, &imported.also_required, line)?;
            write_buffers(&imported.buffers, line)
        }
        Err(error) => write_error(asked, error, line),
    }
}

/// Writes what is in a document, and the names that were left out of it.
fn write_names(document: &Document, also_required: &[String], line: &mut String) -> Written {
    write_document(document, line)?;
    write!(line, ", also {also_required:?}")
}

fn write_buffers(buffers: &[Data], line: &mut String) -> Written {
    for data in buffers {
        write_bytes("buffer", &data.0, line)?;
    }
    Ok(())
}

fn write_bytes(name: &str, bytes: &[u8], line: &mut String) -> Written {
    write!(line, "; {name} ")?;
    write_hex(bytes, line)
}
