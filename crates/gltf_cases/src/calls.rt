//! The calls by their names.
use crate::containers::container;
use crate::told::tell;
use crate::{broken, documents, files, imported, items, named, streamed};
use gltf::Glb;
use gltf_case::asked::Asked;
use gltf_case::bytes::{bytes_of, write_hex};
use gltf_case::refused::write_error;
use gltf_case::shown::Written;
use gltf_case::{iterators, texts};
use gltf_pack::repack;
use std::alloc::Global;

/// Answers a case whose given is a text or stands in hexadecimal digits.
///
/// - `uri`, `payload`, `zeros`, `attribute`: what a text or bytes are.
/// - `plain TYPE STRIDE STEP..`, `sparse TYPE STEP..`, `indices WIDTH STEP..`: iterators over
///   bytes.
/// - `broken COUNT`: a document that breaks so many rules.
/// - `files`: the import of a file that names others.
/// - `source`, `shelf`, `inside`, `named`: named bytes, and the buffers that they are.
/// - `write`: the bytes of a container of a text and a blob.
/// - all others are calls on a file, of the text or the bytes, or of a container of the text and a
///   blob.
pub(crate) fn answer(alloc: Global, asked: Asked<'_>, line: &mut String) -> Written {
    match asked.call {
        "uri" => texts::write_uri(alloc, asked.given, line),
        "payload" => texts::write_payload(alloc, asked.given, line),
        "zeros" => texts::write_zeros(alloc, asked.given, line),
        "attribute" => texts::write_attribute(alloc, asked.given, line),
        "plain" => iterators::plain(alloc, asked, line),
        "sparse" => iterators::sparse(alloc, asked, line),
        "indices" => iterators::indices(alloc, asked, line),
        "broken" => broken::write_broken(alloc, asked, line),
        "files" => files::of_shelf(alloc, asked, line),
        "source" => named::of_source(alloc, asked, line),
        "shelf" => named::of_shelf(alloc, asked, line),
        "inside" => named::of_inside(alloc, asked, line),
        "named" => named::of_document(alloc, asked, line),
        "write" => of_container(alloc, asked, line),
        "over" => of_text(alloc, asked, line),
        _ if asked.blob.is_some() => of_container(alloc, asked, line),
        _ => of_text(alloc, asked, line),
    }
}

/// Answers a case on the given text or bytes.
fn of_text(alloc: Global, asked: Asked<'_>, line: &mut String) -> Written {
    match asked.given.strip_prefix("%") {
        Some(digits) => of_bytes(alloc, asked, &bytes_of(alloc, digits)?, line),
        None => of_bytes(alloc, asked, asked.given.as_bytes(), line),
    }
}

/// Answers a case on a container of the given text and the blob.
fn of_container(alloc: Global, asked: Asked<'_>, line: &mut String) -> Written {
    match &container(alloc, asked) {
        Ok(bytes) if asked.call == "write" => write_hex(bytes, line),
        Ok(bytes) => of_bytes(alloc, asked, bytes, line),
        Err(error) => write_error(asked, error, line),
    }
}

/// Answers a call on the bytes of a file.
///
/// - `glb`: the parts of a container, and the same written again.
/// - `root MEMBER`: the records of a text; `document` the same, validated.
/// - `file MEMBER`, `records MEMBER`: the document of a file, with the rules and without.
/// - `read TYPE INDEX`: the items of an accessor.
/// - `read_positions MESH PRIMITIVE`, `read_indices MESH PRIMITIVE`: those of a primitive.
/// - `by WAY MEMBER`: the records of a text that come by another way.
/// - `streamed glb`, `streamed records MEMBER`, `streamed file MEMBER`: the same as those calls, by
///   a reader that gives a byte a call; `drawn PACE CALL ..`: by one of another pace.
/// - `written PACE`: what a writer takes of a container.
/// - `over TYPE`: those of the first accessor, where each buffer has the bytes of the blob.
/// - `each`: what several calls answer, where they answer the same.
/// - `repack`: the bytes that a file is repacked to.
/// - `repacked CALL WORD..`: what a call answers on a file that was repacked, and what it answers
///   otherwise on the file before.
/// - handles and lists, as `documents` says, and calls on an import, as `imported` says.
pub(crate) fn of_bytes(
    alloc: Global,
    asked: Asked<'_>,
    bytes: &[u8],
    line: &mut String,
) -> Written {
    match asked.call {
        "each" => of_each(alloc, asked, bytes, line),
        "repack" => tell(alloc, asked, repack(alloc, bytes), line),
        "repacked" => of_repacked(alloc, asked, bytes, line),
        _ => of_one(alloc, asked, bytes, line),
    }
}

/// Answers one call on the bytes of a file. What the calls give is held in a function for each: a
/// proof goes through the drops of all that a function holds at each of its exits.
fn of_one(alloc: Global, asked: Asked<'_>, bytes: &[u8], line: &mut String) -> Written {
    match asked.call {
        "glb" => tell(alloc, asked, Glb::from_slice(bytes), line),
        "root" => documents::tell_root(alloc, asked, bytes, line),
        "document" => documents::tell_document(alloc, asked, bytes, line),
        "records" => documents::tell_records(alloc, asked, bytes, line),
        "by" => documents::tell_by(alloc, asked, bytes, line),
        "read" => items::read(alloc, asked, bytes, line),
        "read_positions" | "read_indices" => items::read_vertices(alloc, asked, bytes, line),
        "streamed" => streamed::tell_streamed(alloc, asked, bytes, line),
        "drawn" => streamed::tell_drawn(alloc, asked, bytes, line),
        "written" => streamed::tell_written(alloc, asked, bytes, line),
        "import" | "check" | "walk" | "readers" | "cast" => {
            imported::tell_import(alloc, asked, bytes, line)
        }
        _ => documents::tell_file(alloc, asked, bytes, line),
    }
}

/// What an import answers, and after it what each other call that reads a file answers otherwise.
fn of_each(alloc: Global, asked: Asked<'_>, bytes: &[u8], line: &mut String) -> Written {
    of_one(
        alloc,
        Asked {
            call: "import",
            ..asked
        },
        bytes,
        line,
    )?;
    for (call, words) in [("read", "u8 7"), ("file", ""), ("records", "")] {
        let other = Asked {
            call,
            words,
            ..asked
        };
        tell_other(alloc, other, bytes, line)?;
    }
    Ok(())
}

/// What a call answers on a file that was repacked, and what it answers otherwise on the file
/// before.
fn of_repacked(alloc: Global, asked: Asked<'_>, bytes: &[u8], line: &mut String) -> Written {
    match &repack(alloc, bytes) {
        Ok(packed) => of_both(alloc, asked.inner(), packed, bytes, line),
        Err(error) => write_error(asked, error, line),
    }
}

/// What a call answers on a file, and what it answers otherwise on another.
fn of_both(
    alloc: Global,
    asked: Asked<'_>,
    bytes: &[u8],
    other: &[u8],
    line: &mut String,
) -> Written {
    of_one(alloc, asked, bytes, line)?;
    tell_other(alloc, asked, other, line)
}

/// What a call answers, where the line does not say it yet.
fn tell_other(alloc: Global, asked: Asked<'_>, bytes: &[u8], line: &mut String) -> Written {
    let mut other = String::new(alloc);
    of_one(alloc, asked, bytes, &mut other)?;
    if other.as_str() != line.as_str() {
        write!(line, " but by {}: {other}", asked.call)?;
    }
    Ok(())
}
