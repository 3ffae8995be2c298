//! What stands already where a text's files go.
use crate::noted::{Noted, join};
use crate::refusal::Refusal;
use crate::words::Conversion;
use gltf::{Shelf, base_of};
use gltf_buffers::bytes_of_uri;
use gltf_put::{FileId, Output, Standing, file_at, stays};
use serde_json::Value;
use std::alloc::{AllocError, Global};
use std::fs;
use std::rt::Files;

/// Refuses to write over what stands at a path, but for the files that an earlier text of that name
/// names; with `--force` over each one. A file that was read is never written over, unless the text
/// takes the place of the file that names it. `read` are the paths of the files that were read, and
/// `staying` the images of the new text that keep their URIs.
pub(crate) fn spare<'w>(
    rt: &(impl Files + AllocGlobal),
    asked: &Conversion<'w>,
    read: &[String],
    staying: &[(usize, &str)],
    files: &[Output<'_>],
) -> Result<(), Refusal<'w>> {
    let there = those_there(rt, files)?;
    if there.is_empty() {
        return Ok(());
    }
    let sources = sources_of(rt, asked, read, staying)?;
    let own = own_of(rt, asked.to)?;
    for (path, file) in &there {
        if let Some(why) = stays(*file, &sources, &own, asked.force) {
            return Err(Refusal::Files(reason(rt.alloc(), *path, why, asked)?));
        }
    }
    Ok(())
}

/// The paths of those files beside the text where a regular file stands, each with that file.
fn those_there<'p>(
    rt: &(impl Files + AllocGlobal),
    files: &'p [Output<'_>],
) -> Result<Vec<(&'p str, FileId)>, AllocError> {
    let mut there = Vec::new(rt.alloc());
    let Some((_text, beside)) = files.split_last() else {
        return Ok(there);
    };
    for file in beside {
        let path = file.path.as_str();
        if let Some(file) = file_at(rt, path) {
            there.push((path, file))?;
        }
    }
    Ok(there)
}

/// Why a file is not written, and the way out.
fn reason(
    alloc: Global,
    path: &str,
    why: Standing,
    asked: &Conversion<'_>,
) -> Result<String, AllocError> {
    let Conversion { from, to, .. } = asked;
    match why {
        Standing::Source => {
            format!(in alloc; "{path}: not written, {from} needs it; give the text another name")
        }
        Standing::Other => {
            format!(in alloc; "{path}: is there, and no earlier {to} names it; --force replaces it")
        }
    }
}

/// The files that may not be written over: the first one, those that were read for it, and those
/// that the new text still names. None, where the text takes the place of the first one.
fn sources_of(
    rt: &(impl Files + AllocGlobal),
    asked: &Conversion<'_>,
    read: &[String],
    staying: &[(usize, &str)],
) -> Result<Vec<FileId>, AllocError> {
    let alloc = rt.alloc();
    let mut files = Vec::new(alloc);
    let from = file_at(rt, asked.from);
    if from.is_some() && from == file_at(rt, asked.to) {
        return Ok(files);
    }
    for path in read {
        add(rt, path.as_str(), &mut files)?;
    }
    let mut names = Noted::new(alloc, Shelf::new(alloc), base_of(asked.from));
    for (_, uri) in staying {
        ask_for(alloc, *uri, &mut names);
    }
    let kept = names.into_paths();
    for path in &kept {
        add(rt, path.as_str(), &mut files)?;
    }
    Ok(files)
}

/// The files that an earlier text names: its buffers and its images.
fn own_of(rt: &(impl Files + AllocGlobal), to: &str) -> Result<Vec<FileId>, AllocError> {
    let alloc = rt.alloc();
    let mut files = Vec::new(alloc);
    if file_at(rt, to).is_none() {
        return Ok(files);
    }
    // One that cannot be read names nothing.
    let Ok(text) = fs::read(rt, to) else {
        return Ok(files);
    };
    let named = named_in(alloc, &text, base_of(to), &["buffers", "images"])?;
    for path in &named {
        add(rt, path.as_str(), &mut files)?;
    }
    Ok(files)
}

fn add(rt: &impl Files, path: &str, files: &mut Vec<FileId>) -> Result<(), AllocError> {
    if let Some(file) = file_at(rt, path) {
        files.push(file)?;
    }
    Ok(())
}

/// The paths of the files that the members of these names lead to. A text that is no JSON has none.
fn named_in(
    alloc: Global,
    text: &[u8],
    base: &str,
    members: &[&str],
) -> Result<Vec<String>, AllocError> {
    let mut names = Noted::new(alloc, Shelf::new(alloc), base);
    if let Ok(value) = Value::from_slice(alloc, text) {
        for member in members {
            if let Some(items) = value.get(*member).and_then(Value::as_array) {
                for item in items {
                    if let Some(uri) = item.get("uri").and_then(Value::as_str) {
                        ask_for(alloc, uri, &mut names);
                    }
                }
            }
        }
    }
    Ok(names.into_paths())
}

/// Asks for the file that the URI of a buffer or an image leads to.
fn ask_for(alloc: Global, uri: &str, names: &mut Noted<'_, Shelf>) {
    if !uri.starts_with("data:") {
        // The shelf is empty: that it was asked is noted.
        let _ = bytes_of_uri(alloc, uri, names);
    }
}
