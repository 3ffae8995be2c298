//! A text and its files, written over an earlier text that may name the same files.
use crate::fault::PutFault;
use crate::output::Output;
use crate::putting::{
    NewFile, followed, give_name, give_names, keep_names_of, remove, write_new, write_part,
    write_parts,
};
use std::io::ErrorKind;
use std::rt::Files;
use std::{fs, io};

/// What stands behind the name that a file has meanwhile.
pub const MEANWHILE: &str = ".next";

/// Writes these files as [`crate::put_all`] writes them, of which the last is a text that names the
/// others, over an earlier text, which may name the same. `meanwhile` is the text where each of
/// them has the name `NAME.next`.
///
/// Each file has that name too at first, and `meanwhile` stands at the name of the text; then the
/// files take their names, and the text its own; at last those other names go. So at any time the
/// text that stands there names files with the bytes that it was written with, also where the
/// program is stopped.
///
/// Where a write fails, all files are what they were before, and the new ones are removed. Where a
/// new file cannot take its name, `meanwhile` stays, and the files that it names. Where a name
/// cannot be removed, it stays.
pub fn replace_all<'w>(
    rt: &(impl Files + AllocGlobal),
    files: &'w [Output<'_>],
    meanwhile: &[u8],
) -> Result<(), PutFault<'w>> {
    let parts = write_parts(rt, files)?;
    let others = match name_otherwise(rt, files, &parts, meanwhile) {
        Ok(others) => others,
        Err(fault) => {
            remove(rt, &parts);
            return Err(fault);
        }
    };
    keep_names_of(rt, &parts);
    give_names(rt, &parts)?;
    keep_names_of(rt, &parts);
    remove_names(rt, &others);
    Ok(())
}

/// Gives each file but the text its other name, and the name of the text to one that names those.
/// Where that fails, none has another name.
fn name_otherwise<'w>(
    rt: &(impl Files + AllocGlobal),
    files: &'w [Output<'_>],
    parts: &[NewFile],
    meanwhile: &[u8],
) -> Result<Vec<String>, PutFault<'w>> {
    let mut others = Vec::with_capacity(rt.alloc(), files.len())?;
    let named = match files.split_last() {
        Some((text, beside)) => {
            name_all(rt, beside, parts, &mut others).and_then(|_| put_text(
                rt,
                text.path.as_str(),
                meanwhile,
            ))
        }
        None => Ok(()),
    };
    match named {
        Ok(()) => Ok(others),
        Err(fault) => {
            remove_names(rt, &others);
            Err(fault)
        }
    }
}

/// Gives each file another name, and adds this to the others.
fn name_all<'w>(
    rt: &(impl Files + AllocGlobal),
    files: &'w [Output<'_>],
    parts: &[NewFile],
    others: &mut Vec<String>,
) -> Result<(), PutFault<'w>> {
    for (file, part) in files.iter().zip(parts.iter()) {
        let other = followed(rt.alloc(), file.path.as_str(), MEANWHILE)?;
        if let Err(cause) = name_one(rt, part.part.as_str(), other.as_str(), file.bytes) {
            return Err(PutFault::Write(other, cause));
        }
        // There is room for it.
        others.push(other).map_err(|_| PutFault::Memory)?;
    }
    Ok(())
}

/// Gives a new file another name. Where the system cannot, its bytes are written once more.
fn name_one(rt: &impl Files, part: &str, other: &str, bytes: &[u8]) -> io::Result<()> {
    match fs::hard_link(rt, part, other) {
        Err(cause) if cause.kind() != ErrorKind::AlreadyExists => {
            write_new(rt, other, None, bytes)
        }
        named => named,
    }
}

/// Puts a text to its name, by way of `NAME.next`.
fn put_text<'w>(
    rt: &(impl Files + AllocGlobal),
    name: &'w str,
    bytes: &[u8],
) -> Result<(), PutFault<'w>> {
    let text = write_part(rt, name, MEANWHILE, bytes)?;
    give_name(rt, &text)
}

/// Removes files of these names.
fn remove_names(rt: &impl Files, names: &[String]) {
    for name in names {
        // Where this fails, the file keeps this name too.
        let _ = fs::remove_file(rt, name.as_str());
    }
}
