//! The JSON value of a document with fewer views and shorter buffers.
ghost use Rattle.std.specs.Prelude.{◌≡◌, IfOk, option_map, drop, codes};
ghost use Rattle.serde_json.specs.Find.{get};
ghost use Rattle.serde_json.specs.View.{view};
ghost use Rattle.gltf_trim.specs.Trimmed.{trimmed_to, first_of, with_views, with_buffers};
ghost use Rattle.gltf_trim.specs.Trimmed.{all_short, short, first};

use crate::trim::Trim;
use gltf_edit::{with_some, without_member};
use serde_json::Value;
use std::alloc::{AllocError, Global};

/// The value of a document of which that is left (glTF 2.0, sections 5.10 and 5.11): the list of
/// views has the first of them, and is not there where none is left; each buffer that becomes
/// shorter has the `byteLength`. All else stays as it is.
pub fn trimmed(alloc: Global, document: Value, trim: &Trim) -> Result<Value, AllocError>
    ensures { IfOk result (λ v. view v
        ≡ trimmed_to trim.now.views trim.now.lengths.items (view document)) }
{
    let views = first_views(alloc, &document, trim.views)?;
    let buffers = all_short_at(alloc, &document, &trim.lengths)?;
    let document = with_some(alloc, document, "buffers", buffers)?;
    if trim.views == 0 {
        return Ok(without_member(document, "bufferViews"));
    }
    with_some(alloc, document, "bufferViews", views)
}

/// The first views of a document, where it has a list of them.
fn first_views(alloc: Global, document: &Value, count: usize) -> Result<Option<Value>, AllocError>
    ensures { IfOk result (λ o. option_map view o
        ≡ option_map (first_of count) (get (codes "bufferViews") (view document.now))) }
{
    match document.get("bufferViews") {
        Some(views) => Ok(Some(first_of(views.clone()?, count))),
        None => Ok(None),
    }
}

/// The first elements of a list.
fn first_of(list: Value, count: usize) -> Value
    ensures { view result ≡ first_of count (view list) }
{
    match list {
        Value::Array(mut elements) => {
            elements.truncate(count);
            Value::Array(elements)
        }
        other => other,
    }
}

/// The buffers of a document with these lengths, where it has a list of them.
fn all_short_at(
    alloc: Global,
    document: &Value,
    lengths: &[Option<u64>],
) -> Result<Option<Value>, AllocError>
    ensures { IfOk result (λ o. option_map view o
        ≡ option_map (all_short lengths.now) (get (codes "buffers") (view document.now))) }
{
    match document.get("buffers") {
        Some(list) => Ok(Some(all_short(alloc, list, lengths)?)),
        None => Ok(None),
    }
}

/// The buffers of a list with these lengths.
fn all_short(alloc: Global, list: &Value, lengths: &[Option<u64>]) -> Result<Value, AllocError>
    ensures { IfOk result (λ v. view v ≡ all_short lengths.now (view list.now)) }
{
    let Value::Array(elements) = list else {
        return list.clone();
    };
    let mut all = Vec::with_capacity(alloc, elements.len())?;
    for (i, one) in elements.iter().enumerate() {
        all.push(short(alloc, one, length_at(lengths, i))?)?;
    }
    Ok(Value::Array(all))
}

/// The length at an index, where there is one.
fn length_at(lengths: &[Option<u64>], index: usize) -> Option<u64>
    ensures { result ≡ first (drop index lengths.now) }
{
    lengths.get(index).copied().flatten()
}

/// A buffer of this length, where there is one.
fn short(alloc: Global, one: &Value, length: Option<u64>) -> Result<Value, AllocError>
    ensures { IfOk result (λ v. view v ≡ short length (view one.now)) }
{
    let one = one.clone()?;
    with_some(alloc, one, "byteLength", length.map(Value::from))
}
