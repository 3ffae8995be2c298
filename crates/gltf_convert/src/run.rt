//! The engine of the program, over any files and any two writers.
use crate::beside::spare;
use crate::elsewhere::look;
use crate::files::files_of;
use crate::instead::{whole_container, whole_pieces};
use crate::meanwhile::text_meanwhile;
use crate::noted::Notes;
use crate::refusal::Refusal;
use crate::shared::{distinct, with_shared_files};
use crate::staying::{staying, tell};
use crate::words::{Conversion, Form, request};
use gltf::text_and_blob;
use gltf_bundle::{BundleError, BundleOptions, bundle_with};
use gltf_put::{Output, file_at, put, put_all, replace_all};
use gltf_required::Required;
use gltf_split::{Pieces, SplitOptions, split_with};
use serde_json::Value;
use std::alloc::Global;
use std::io::{self, Write};
use std::rt::Files;

/// Converts the file that the first word names to the form that the name in the second ends in,
/// where the words are the arguments after the program's name, and gives the exit status. The files
/// are asked of the source by name. After the names, `--keep-images` says that images are not
/// touched, `--keep-missing-images` that those are not that cannot be taken in, of each of which a
/// line on `err` says so, `--drop-image-views` that the views go that only images name, `--pretty`
/// that JSON has line breaks, `--force` that files beside the text are written over others that are
/// there, and `--keep-unknown` that what the objects of extensions name themselves is written as it
/// stands.
///
/// - 0: all files are whole, and a line on `out` for each says how long it is.
/// - 1: the file is refused, a file could not be written, or a line could not; the reason stands on
///   `err`, with the name of a file that could not be read or written.
/// - 2: the words are not these, or the second ends in neither `.glb` nor `.gltf`; the reason
///   stands on `err`.
pub fn run<S: Notes, O: Write, E: Write>(
    rt: &(impl Files + AllocGlobal),
    source: &mut S,
    words: &[&str],
    out: &mut O,
    err: &mut E,
) -> u8 {
    match answer(rt, source, words, out, err) {
        Ok(()) => 0,
        Err(refusal) => {
            // Where this write fails too, the status alone says so.
            let _ = report(&refusal, source.last_failed(), err);
            refusal.status()
        }
    }
}

/// Writes why nothing was converted; where a file was not read, after the name of that file.
fn report<E: Write>(refusal: &Refusal, failed: Option<&str>, err: &mut E) -> io::Result<()> {
    match failed {
        Some(name) if refusal.is_outside() => {
            writeln!(err, "{name}: {refusal}; --outside reads it")
        }
        Some(name) if refusal.is_failed_read() => writeln!(err, "{name}: {refusal}"),
        _ => writeln!(err, "{refusal}"),
    }
}

fn answer<'w, S: Notes, O: Write, E: Write>(
    rt: &(impl Files + AllocGlobal),
    source: &mut S,
    words: &[&'w str],
    out: &mut O,
    err: &mut E,
) -> Result<(), Refusal<'w>> {
    let asked = request(words)?;
    match asked.form {
        Form::Container => write_container(rt, source, &asked, out, err),
        Form::Text { base, stem } => write_text(rt, source, &asked, base, stem, out, err),
    }
}

/// Writes one container.
fn write_container<'w, S: Notes, O: Write, E: Write>(
    rt: &(impl Files + AllocGlobal),
    source: &mut S,
    asked: &Conversion<'w>,
    out: &mut O,
    err: &mut E,
) -> Result<(), Refusal<'w>> {
    let alloc = rt.alloc();
    let options = BundleOptions {
        keep_images: asked.keep_images,
        keep_missing_images: asked.keep_missing_images,
    };
    source.join();
    let bytes = bundle_with(alloc, source, asked.from, &options, &Required::All)?;
    let bytes = match source.own() {
        Some(own) => whole_container(alloc, &bytes, own)?,
        None => bytes,
    };
    look_at_container(alloc, asked, &bytes, err)?;
    put(rt, asked.to, &bytes)?;
    // Where this write fails, the file is converted all the same.
    let _ = source.left().tell(asked, err);
    report_file(out, asked.to, bytes.len())
}

/// Looks at what a container names itself, and says which images stay.
fn look_at_container<'w, E: Write>(
    alloc: Global,
    asked: &Conversion<'w>,
    bytes: &[u8],
    err: &mut E,
) -> Result<(), Refusal<'w>> {
    let document = match text_and_blob(bytes) {
        Ok((text, _)) => document_of(alloc, text.as_slice())?,
        Err(error) => return Err(Refusal::File(BundleError::Answer(error))),
    };
    look(alloc, asked, &document, err)?;
    tell(asked, &staying(alloc, &document, &[])?, err);
    Ok(())
}

/// Writes JSON text with files beside it. The base are the folders of its path, and the stem is its
/// name without its ending.
fn write_text<'w, S: Notes, O: Write, E: Write>(
    rt: &(impl Files + AllocGlobal),
    source: &mut S,
    asked: &Conversion<'w>,
    base: &str,
    stem: &str,
    out: &mut O,
    err: &mut E,
) -> Result<(), Refusal<'w>> {
    let alloc = rt.alloc();
    let options = SplitOptions {
        keep_images: asked.keep_images,
        keep_missing_images: asked.keep_missing_images,
        drop_image_views: asked.drop_image_views,
        pretty: asked.pretty,
    };
    let split = split_with(alloc, source, asked.from, stem, &options, &Required::All)?;
    let split = match source.own() {
        Some(own) => whole_pieces(alloc, split, own, asked.pretty)?,
        None => split,
    };
    let split = with_shared_files(alloc, split, source.owners(), asked.pretty)?;
    let files = distinct(alloc, files_of(alloc, &split, base, asked.to)?)?;
    let document = document_of(alloc, split.json.as_bytes())?;
    let written = Written {
        split: &split,
        files,
        document,
    };
    look_at_text(rt, source, asked, &written, err)?;
    write_files(rt, source, asked, &written, out, err)
}

/// What is written: a text and its files.
#[derive(Drop)]
struct Written<'s> {
    /// The text and the files.
    split: &'s Pieces,
    /// Each with its path, the text last.
    files: Vec<Output<'s>>,
    /// The value of the text.
    document: Value,
}

/// Looks at what a text names itself and at what stands where its files go, and says which images
/// stay.
fn look_at_text<'w, S: Notes, E: Write>(
    rt: &(impl Files + AllocGlobal),
    source: &S,
    asked: &Conversion<'w>,
    written: &Written<'_>,
    err: &mut E,
) -> Result<(), Refusal<'w>> {
    let alloc = rt.alloc();
    let document = &written.document;
    look(alloc, asked, document, err)?;
    let staying = staying(alloc, document, &written.split.images)?;
    spare(rt, asked, source.paths(), &staying, &written.files)?;
    tell(asked, &staying, err);
    Ok(())
}

/// Writes these files, which may be written over.
fn write_files<'w, S: Notes, O: Write, E: Write>(
    rt: &(impl Files + AllocGlobal),
    source: &S,
    asked: &Conversion<'w>,
    written: &Written<'_>,
    out: &mut O,
    err: &mut E,
) -> Result<(), Refusal<'w>> {
    let alloc = rt.alloc();
    let files = written.files.as_slice();
    let done = if file_at(rt, asked.to).is_some() {
        let text = text_meanwhile(alloc, &written.document, &written.split.images)?;
        replace_all(rt, files, text.as_bytes())
    } else {
        put_all(rt, files)
    };
    if let Err(fault) = done {
        return Err(Refusal::Files(format!(in alloc; "{fault}")?));
    }
    // Where this write fails, the files are converted all the same.
    let _ = source.left().tell(asked, err);
    for file in files {
        report_file(out, file.path.as_str(), file.bytes.len())?;
    }
    Ok(())
}

/// The value of a text of JSON, which was written here.
fn document_of<'w>(alloc: Global, json: &[u8]) -> Result<Value, Refusal<'w>> {
    match Value::from_slice(alloc, json) {
        Ok(document) => Ok(document),
        Err(_) => Err(Refusal::Memory),
    }
}

/// Writes the name of a file and how long it is.
fn report_file<'w, O: Write>(out: &mut O, name: &str, length: usize) -> Result<(), Refusal<'w>> {
    match writeln!(out, "{name}: {length} bytes") {
        Ok(()) => Ok(()),
        Err(cause) => Err(Refusal::Line(cause)),
    }
}
