//! The images that keep their URIs.
use crate::words::Conversion;
use gltf_detach::Part;
use serde_json::Value;
use std::alloc::{AllocError, Global};
use std::io::Write;

/// The images of a document that have a URI and no file of their own, each by its index and its
/// URI, in order. `parts` are the files that images have, by index.
pub(crate) fn staying<'v>(
    alloc: Global,
    document: &'v Value,
    parts: &[Option<Part>],
) -> Result<Vec<(usize, &'v str)>, AllocError> {
    let mut all = Vec::new(alloc);
    let Some(images) = document.get("images").and_then(Value::as_array) else {
        return Ok(all);
    };
    for (index, image) in images.iter().enumerate() {
        if matches!(parts.get(index), Some(Some(_))) {
            continue;
        }
        if let Some(uri) = image.get("uri").and_then(Value::as_str) {
            all.push((index, uri))?;
        }
    }
    Ok(all)
}

/// Says of each image that stays since it is missing where it stands, with its URI.
pub(crate) fn tell<E: Write>(asked: &Conversion<'_>, all: &[(usize, &str)], err: &mut E) {
    if !asked.keep_missing_images {
        return;
    }
    for (index, uri) in all {
        let from = asked.from;
        let uri = shown(*uri);
        // Where this write fails, the file is converted all the same.
        let _ = writeln!(
            err,
            "{from}: /images/{index}/uri: {uri:?}: not taken in, stays as it is"
        );
    }
}

/// A URI, without the data that stand in it.
fn shown(uri: &str) -> &str {
    match uri.split_once(',') {
        Some((head, _)) if uri.starts_with("data:") => head,
        _ => uri,
    }
}
