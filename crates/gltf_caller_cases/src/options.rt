//! Files that require extensions which the caller handles.
use crate::opened::tell;
use crate::sources::{Source, container};
use gltf::{Name, NamedBytes, import_slice};
use gltf_case::asked::Asked;
use gltf_case::refused::write_error;
use gltf_case::shelf::shelf_of;
use gltf_case::shown::Written;
use gltf_options::{
    Options, from_reader_with, from_slice_with, import_from_with, import_slice_with, import_with,
};
use std::alloc::{AllocError, Global};
use std::rt::HostRuntime;

/// Writes what a call answers on a file: on the given text, or on a container of the text and the
/// blob. `NAMES` are the names of extensions that the caller handles, with commas between them;
/// none with `-`.
///
/// - `import`: the call of `gltf`, which has no such names.
/// - `slice NAMES`, `file NAMES`: with its buffers, and without.
/// - `reader NAMES HOW`: out of a reader, as `Source` says, and how many bytes this gave.
/// - `shelf NAMES WORD..`: the file `a.gltf` on a shelf, and which name failed. The words say what
///   else is there, as `shelf_of` has them; with `file:a.gltf=` the file is another one.
pub(crate) fn write(alloc: Global, asked: Asked<'_>, line: &mut String) -> Written {
    let Some(digits) = asked.blob else {
        return of_bytes(alloc, asked, asked.given.as_bytes(), line);
    };
    match &container(alloc, asked, digits) {
        Ok(bytes) => of_bytes(alloc, asked, bytes, line),
        Err(error) => write_error(asked, error, line),
    }
}

fn of_bytes(alloc: Global, asked: Asked<'_>, bytes: &[u8], line: &mut String) -> Written {
    let names = names_of(alloc, asked.word(0))?;
    by_options(alloc, asked, bytes, &options_of(&names), line)
}

/// The names that a word lists.
fn names_of<'t>(alloc: Global, word: &'t str) -> Result<Vec<&'t str>, AllocError> {
    let mut names = Vec::new(alloc);
    if word != "-" {
        for name in word.split(",") {
            names.push(name)?;
        }
    }
    Ok(names)
}

/// What a caller handles who handles these names.
fn options_of<'n>(names: &'n [&'n str]) -> Options<'n> {
    if names.is_empty() {
        Options::new()
    } else {
        Options {
            also_supported: names,
        }
    }
}

fn by_options(
    alloc: Global,
    asked: Asked<'_>,
    bytes: &[u8],
    options: &Options<'_>,
    line: &mut String,
) -> Written {
    match asked.call {
        "slice" => tell(asked, import_slice_with(alloc, bytes, options), line),
        "file" => tell(asked, from_slice_with(alloc, bytes, options), line),
        "reader" => write_read(alloc, asked, bytes, options, line),
        "shelf" => write_shelf(alloc, asked, bytes, options, line),
        _ => tell(asked, import_slice(alloc, bytes), line),
    }
}

fn write_read(
    alloc: Global,
    asked: Asked<'_>,
    bytes: &[u8],
    options: &Options<'_>,
    line: &mut String,
) -> Written {
    let mut source = Source::of(bytes, asked.word(1));
    tell(asked, from_reader_with(alloc, &mut source, options), line)?;
    write!(line, "; {} given", source.given)
}

fn write_shelf(
    alloc: Global,
    asked: Asked<'_>,
    bytes: &[u8],
    options: &Options<'_>,
    line: &mut String,
) -> Written {
    let mut shelf = shelf_of(alloc, asked.inner())?;
    shelf.put(Name::File("a.gltf"), bytes)?;
    let answer = import_from_with(alloc, &mut shelf, asked.word(1), options);
    tell(asked, answer, line)?;
    match shelf.last_failed() {
        Some(name) => write!(line, "; {name} failed"),
        None => Ok(()),
    }
}

/// The same of a file in a folder: `beside NAMES PATH`.
pub(crate) fn write_beside(rt: &HostRuntime, asked: Asked<'_>, line: &mut String) -> Written {
    let names = names_of(rt.alloc(), asked.word(0))?;
    let options = options_of(&names);
    let answer = import_with(rt, rt.alloc(), asked.word(1), &options);
    tell(asked, answer, line)
}
