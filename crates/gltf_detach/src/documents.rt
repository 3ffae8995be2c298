//! The JSON value of a document whose buffers and images are in files of their own.
ghost use Rattle.std.specs.Prelude.{◌≡◌, IfOk, option_map, drop, option_copied, string_bytes};
ghost use Rattle.serde_json.specs.View.{view};
ghost use Rattle.gltf_detach.specs.Detached.{detached, list_elsewhere, all_elsewhere, elsewhere};
ghost use Rattle.gltf_detach.specs.Detached.{first, texts};
ghost use Rattle.gltf_detach.specs.Naming.{buffer_uris, image_uris};

use crate::naming::{buffer_uris, image_uris};
use crate::owner::Owner;
use crate::part::Part;
use gltf_edit::{with_some, without_member};
use serde_json::Value;
use std::alloc::{AllocError, Global};

/// The value of a document in which each buffer has the URI of its file, by index, and so has each
/// image that has a file (glTF 2.0, sections 2.8, 5.10 and 5.18).
///
/// Such an image names no view any more. All else stays as it is.
pub fn detached(
    alloc: Global,
    document: Value,
    buffers: &[Part],
    images: &[Option<Part>],
) -> Result<Value, AllocError>
    ensures { IfOk result (λ v. view v
        ≡ detached (buffer_uris buffers.now) (image_uris images.now) (view document)) }
{
    let images = image_uris(alloc, images)?;
    let buffers = buffer_uris(alloc, buffers)?;
    with_uris(alloc, document, &buffers, &images)
}

/// The value of a document in which each buffer and each image that has a URI here, by index, has
/// it.
fn with_uris(
    alloc: Global,
    document: Value,
    buffers: &[Option<String>],
    images: &[Option<String>],
) -> Result<Value, AllocError>
    ensures { IfOk result (λ v. view v
        ≡ detached (texts buffers.now) (texts images.now) (view document)) }
{
    let buffers = list_elsewhere(alloc, &document, Owner::Buffer, buffers)?;
    let images = list_elsewhere(alloc, &document, Owner::Image, images)?;
    let document = with_some(alloc, document, "images", images)?;
    with_some(alloc, document, "buffers", buffers)
}

/// The list of the buffers or of the images, with their URIs, where there is one.
fn list_elsewhere(
    alloc: Global,
    document: &Value,
    owner: Owner,
    uris: &[Option<String>],
) -> Result<Option<Value>, AllocError>
    ensures { IfOk result (λ o. option_map view o
        ≡ list_elsewhere owner (texts uris.now) (view document.now)) }
{
    let name = match owner {
        Owner::Buffer => "buffers",
        Owner::Image => "images",
    };
    match document.get(name) {
        Some(list) => Ok(Some(all_elsewhere(alloc, list, owner, uris)?)),
        None => Ok(None),
    }
}

/// The elements of a list with their URIs.
fn all_elsewhere(
    alloc: Global,
    list: &Value,
    owner: Owner,
    uris: &[Option<String>],
) -> Result<Value, AllocError>
    ensures { IfOk result (λ v. view v ≡ all_elsewhere owner (texts uris.now) (view list.now)) }
{
    let Value::Array(elements) = list else {
        return list.clone();
    };
    let mut all = Vec::with_capacity(alloc, elements.len())?;
    for (i, one) in elements.iter().enumerate() {
        all.push(elsewhere(alloc, one, owner, uri_at(uris, i))?)?;
    }
    Ok(Value::Array(all))
}

/// The URI of the element at an index.
#[tactic(auto, using(crate::proofs::Lists::is_past))]
fn uri_at(uris: &[Option<String>], index: usize) -> Option<&String>
    ensures { option_map string_bytes (option_copied result)
        ≡ first (drop index (texts uris.now)) }
{
    match uris.get(index) {
        Some(Some(uri)) => Some(uri),
        Some(None) => None,
        None => None,
    }
}

/// One of them with its URI, where it has one here.
fn elsewhere(
    alloc: Global,
    one: &Value,
    owner: Owner,
    uri: Option<&String>,
) -> Result<Value, AllocError>
    ensures { IfOk result (λ v. view v
        ≡ elsewhere owner (option_map string_bytes (option_copied uri.entry)) (view one.now)) }
{
    let Some(uri) = uri else {
        return one.clone();
    };
    let text = Value::String(uri.clone()?);
    let one = one.clone()?;
    let bare = match owner {
        Owner::Buffer => one,
        Owner::Image => without_member(one, "bufferView"),
    };
    with_some(alloc, bare, "uri", Some(text))
}
