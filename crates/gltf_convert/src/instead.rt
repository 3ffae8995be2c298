//! Files that are read in place of others, which leave to their extensions what the loader needs:
//! buffers have no bytes, textures no source, targets of channels no node. A conversion moves what
//! views are compressed to, and writes all of these as they stand.
use crate::refusal::Refusal;
use gltf::{Error, text_and_blob};
use gltf_bundle::BundleError;
use gltf_detach::Part;
use gltf_fallback::{OWN, emptied, filled, is_bare, lifted, lowered, with_bare};
use gltf_pack::container;
use gltf_split::Pieces;
use serde_json::Value;
use std::alloc::{AllocError, Global};
use std::borrow::CowSlice;

/// A file that is read in place of another one.
#[derive(Drop)]
pub struct Instead {
    /// The bytes of the file.
    pub(crate) bytes: Vec<u8>,
    /// The other one.
    pub(crate) own: Own,
}

/// A file in whose place another one was read.
#[derive(Drop)]
pub struct Own {
    /// Its document.
    document: Value,
    /// Whether buffers of it have no bytes.
    lacks_bytes: bool,
}

/// What is read in place of a file of this document and blob; `None` where each buffer has bytes
/// and each record what the loader needs, or what a record says already could not be told from what
/// is kept there. `behind` says that the buffers become one.
pub(crate) fn instead_of(
    alloc: Global,
    document: Value,
    blob: Option<CowSlice<'_, u8>>,
    behind: bool,
) -> Result<Option<Instead>, AllocError> {
    let lacks_bytes = lacks_bytes(&document, blob.is_some());
    if !(lacks_bytes || lacks_members(&document)) || is_marked(&document) {
        return Ok(None);
    }
    let mut other = filled(alloc, document.clone()?)?;
    if lacks_bytes {
        other = lifted(alloc, other, behind)?;
    }
    let own = Own {
        document,
        lacks_bytes,
    };
    let json = other.to_string(alloc)?;
    if blob.is_none() {
        let bytes = json.into_bytes();
        return Ok(Some(Instead { bytes, own }));
    }
    match container(alloc, CowSlice::Borrowed(json.as_bytes()), blob) {
        Ok(bytes) => Ok(Some(Instead { bytes, own })),
        // The file itself is refused then.
        Err(_) => Ok(None),
    }
}

/// Whether a buffer of a document has no bytes. The first has those of a blob, where there is one.
fn lacks_bytes(document: &Value, has_blob: bool) -> bool {
    let mut takes_blob = has_blob;
    let mut lacks = false;
    for buffer in buffers_of(document) {
        if is_bare(buffer) {
            if takes_blob {
                return false;
            }
            lacks = true;
        }
        takes_blob = false;
    }
    lacks
}

/// Whether a texture of a document that has images has no source, or a target of one that has nodes
/// no node.
fn lacks_members(document: &Value) -> bool {
    let has_images = !items_of(document, "images").is_empty();
    let has_nodes = !items_of(document, "nodes").is_empty();
    has_images && lacks_source(document) || has_nodes && lacks_node(document)
}

fn lacks_source(document: &Value) -> bool {
    for texture in items_of(document, "textures") {
        if !has(texture, "source") {
            return true;
        }
    }
    false
}

fn lacks_node(document: &Value) -> bool {
    for animation in items_of(document, "animations") {
        for channel in items_of(animation, "channels") {
            if let Some(target) = channel.get("target") {
                if !has(target, "node") {
                    return true;
                }
            }
        }
    }
    false
}

/// Whether a record has the member already in which it would be kept as it is.
fn is_marked(document: &Value) -> bool {
    for list in ["buffers", "bufferViews", "textures"] {
        for one in items_of(document, list) {
            if one.get(OWN).is_some() {
                return true;
            }
        }
    }
    for animation in items_of(document, "animations") {
        for channel in items_of(animation, "channels") {
            if channel
                .get("target")
                .is_some_and(|target| target.get(OWN).is_some())
            {
                return true;
            }
        }
    }
    false
}

/// Whether a value has a member that is not null.
pub(crate) fn has(value: &Value, name: &str) -> bool {
    match value.get(name) {
        None | Some(Value::Null) => false,
        Some(_) => true,
    }
}

/// The buffers of a document.
pub(crate) fn buffers_of(document: &Value) -> &[Value] {
    items_of(document, "buffers")
}

/// The items of a list of a document, or of an animation.
pub(crate) fn items_of<'v>(document: &'v Value, name: &str) -> &'v [Value] {
    match document.get(name) {
        Some(Value::Array(items)) => items,
        _ => &[],
    }
}

/// The container that was made in place of one of this file, with what that left to its extensions
/// as it stood. Its buffers that have no bytes stand behind those that have some.
pub(crate) fn whole_container<'w>(
    alloc: Global,
    bytes: &[u8],
    own: &Own,
) -> Result<Vec<u8>, Refusal<'w>> {
    match with_own(alloc, bytes, own) {
        Ok(bytes) => Ok(bytes),
        Err(error) => Err(Refusal::File(BundleError::Answer(error))),
    }
}

fn with_own(alloc: Global, bytes: &[u8], own: &Own) -> Result<Vec<u8>, Error> {
    let (text, blob) = text_and_blob(bytes)?;
    let Ok(document) = Value::from_slice(alloc, text.as_slice()) else {
        return Err(Error::Memory);
    };
    let mut document = restored(alloc, document, own)?;
    if own.lacks_bytes {
        document = with_bare(alloc, document, &own.document)?;
    }
    let json = document.to_string(alloc)?;
    container(alloc, CowSlice::Borrowed(json.as_bytes()), blob)
}

/// A document with the records that a file left to its extensions as they stood.
fn restored(alloc: Global, document: Value, own: &Own) -> Result<Value, AllocError> {
    let document = emptied(alloc, document)?;
    if own.lacks_bytes {
        lowered(alloc, document)
    } else {
        Ok(document)
    }
}

/// The text and the files that were made in place of those of this file, with what that left to its
/// extensions as it stood. Its buffers that have no bytes have no files.
pub(crate) fn whole_pieces<'w>(
    alloc: Global,
    pieces: Pieces,
    own: &Own,
    pretty: bool,
) -> Result<Pieces, Refusal<'w>> {
    let Pieces {
        json,
        buffers,
        images,
    } = pieces;
    let Ok(document) = Value::from_slice(alloc, json.as_bytes()) else {
        return Err(Refusal::Memory);
    };
    let document = restored(alloc, document, own)?;
    let json = if pretty {
        document.to_string_pretty(alloc)?
    } else {
        document.to_string(alloc)?
    };
    let buffers = if own.lacks_bytes {
        parts_of(alloc, buffers, buffers_of(&own.document))?
    } else {
        buffers
    };
    Ok(Pieces {
        json,
        buffers,
        images,
    })
}

/// The files of the buffers that have bytes.
fn parts_of(alloc: Global, parts: Vec<Part>, buffers: &[Value]) -> Result<Vec<Part>, AllocError> {
    let mut all = Vec::with_capacity(alloc, parts.len())?;
    for (index, part) in parts.into_iter().enumerate() {
        match buffers.get(index) {
            Some(buffer) if is_bare(buffer) => {}
            _ => all.push(part)?,
        }
    }
    Ok(all)
}
