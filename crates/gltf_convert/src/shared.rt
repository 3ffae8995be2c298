//! Images that have one file: those that are read from one view, or by one URI.
use crate::instead::items_of;
use crate::refusal::Refusal;
use gltf_detach::Part;
use gltf_edit::{size_at, with_some};
use gltf_put::Output;
use gltf_split::Pieces;
use serde_json::Value;
use std::alloc::{AllocError, Global};
use std::collections::BTreeMap;

/// For each image of a document the first one that is read from the same view, or where it names
/// none by the same URI: itself, where none before it is.
pub(crate) fn owners_of(alloc: Global, document: &Value) -> Result<Vec<usize>, AllocError> {
    let images = items_of(document, "images");
    let mut owners = Vec::with_capacity(alloc, images.len())?;
    let mut firsts = BTreeMap::new(alloc);
    for (index, image) in images.iter().enumerate() {
        let owner = match source_of(alloc, image)? {
            Some(source) => owner_of(&mut firsts, source, index)?,
            None => index,
        };
        owners.push(owner)?;
    }
    Ok(owners)
}

/// What an image is read from.
fn source_of(alloc: Global, image: &Value) -> Result<Option<String>, AllocError> {
    if let Some(index) = size_at(image, "bufferView") {
        let source = format!(in alloc; "view {index}")?;
        return Ok(Some(source));
    }
    match image.get("uri").and_then(Value::as_str) {
        Some(uri) => {
            let source = format!(in alloc; "URI {uri}")?;
            Ok(Some(source))
        }
        None => Ok(None),
    }
}

/// The first image of a source, which is this one where none was before.
fn owner_of(
    firsts: &mut BTreeMap<String, usize>,
    source: String,
    index: usize,
) -> Result<usize, AllocError> {
    if let Some(owner) = firsts.get(source.as_str()) {
        return Ok(*owner);
    }
    firsts.insert(source, index)?;
    Ok(index)
}

/// A text whose images have the files of their owners, which have one where they do.
pub(crate) fn with_shared_files<'w>(
    alloc: Global,
    pieces: Pieces,
    owners: &[usize],
    pretty: bool,
) -> Result<Pieces, Refusal<'w>> {
    if !has_shared(owners) {
        return Ok(pieces);
    }
    let Pieces {
        json,
        buffers,
        images,
    } = pieces;
    let Ok(document) = Value::from_slice(alloc, json.as_bytes()) else {
        return Err(Refusal::Memory);
    };
    let owners = owners_by_ending(alloc, &images, owners)?;
    let named = named_alike(alloc, items_of(&document, "images"), &owners)?;
    let document = with_some(alloc, document, "images", Some(Value::Array(named)))?;
    let json = if pretty {
        document.to_string_pretty(alloc)?
    } else {
        document.to_string(alloc)?
    };
    let images = renamed(alloc, images, &owners)?;
    Ok(Pieces {
        json,
        buffers,
        images,
    })
}

/// The same, where the names of files have to end alike too: one view may be said to be of two
/// media types. An image without a file is its own owner.
fn owners_by_ending(
    alloc: Global,
    parts: &[Option<Part>],
    owners: &[usize],
) -> Result<Vec<usize>, AllocError> {
    let mut all = Vec::with_capacity(alloc, owners.len())?;
    let mut firsts = BTreeMap::new(alloc);
    for (index, owner) in owners.iter().enumerate() {
        let owner = match parts.get(index) {
            Some(Some(part)) => {
                let ending = ending_of(part.name.as_str());
                let source = format!(in alloc; "{owner} {ending}")?;
                owner_of(&mut firsts, source, index)?
            }
            _ => index,
        };
        all.push(owner)?;
    }
    Ok(all)
}

/// What stands behind the last dot of a name.
fn ending_of(name: &str) -> &str {
    match name.rsplit_once('.') {
        Some((_, ending)) => ending,
        None => "",
    }
}

/// Whether an image has another owner than itself.
fn has_shared(owners: &[usize]) -> bool {
    for (index, owner) in owners.iter().enumerate() {
        if *owner != index {
            return true;
        }
    }
    false
}

/// The owner of an image, where it is another one.
fn other_owner(owners: &[usize], index: usize) -> Option<usize> {
    let owner = *owners.get(index)?;
    if owner == index { None } else { Some(owner) }
}

/// The images of a text, with the URIs of their owners.
fn named_alike(
    alloc: Global,
    images: &[Value],
    owners: &[usize],
) -> Result<Vec<Value>, AllocError> {
    let mut all = Vec::with_capacity(alloc, images.len())?;
    for (index, image) in images.iter().enumerate() {
        let uri = match other_owner(owners, index) {
            Some(owner) => uri_of(images, owner)?,
            None => None,
        };
        all.push(with_some(alloc, image.clone()?, "uri", uri)?)?;
    }
    Ok(all)
}

/// The URI of an image.
fn uri_of(images: &[Value], index: usize) -> Result<Option<Value>, AllocError> {
    match images.get(index).and_then(|image| image.get("uri")) {
        Some(uri) => Ok(Some(uri.clone()?)),
        None => Ok(None),
    }
}

/// The files of images, with the names of their owners' and then without bytes.
fn renamed(
    alloc: Global,
    parts: Vec<Option<Part>>,
    owners: &[usize],
) -> Result<Vec<Option<Part>>, AllocError> {
    let mut all: Vec<Option<Part>> = Vec::with_capacity(alloc, parts.len())?;
    for (index, part) in parts.into_iter().enumerate() {
        let owner = match other_owner(owners, index) {
            Some(owner) => all.get(owner),
            None => None,
        };
        let part = match owner {
            Some(Some(Part { name, .. })) => Some(Part {
                name: name.clone()?,
                bytes: Vec::new(alloc),
            }),
            _ => part,
        };
        all.push(part)?;
    }
    Ok(all)
}

/// Files, each path once: that of an owner comes before those of the others.
pub(crate) fn distinct(
    alloc: Global,
    files: Vec<Output<'_>>,
) -> Result<Vec<Output<'_>>, AllocError> {
    let mut all = Vec::with_capacity(alloc, files.len())?;
    let mut paths = BTreeMap::new(alloc);
    for file in files {
        if paths.get(file.path.as_str()).is_none() {
            paths.insert(file.path.clone()?, ())?;
            all.push(file)?;
        }
    }
    Ok(all)
}
