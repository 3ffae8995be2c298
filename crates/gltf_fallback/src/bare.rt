//! Which buffers have no bytes.
ghost use Rattle.std.specs.Prelude.{◌≡◌, IfOk, OnOk, codes, option_map};
ghost use Rattle.serde_json.specs.Data.{no_items, item};
ghost use Rattle.serde_json.specs.View.{view, items_view};
ghost use Rattle.gltf_edit.specs.Bundled.{member_at};
ghost use Rattle.gltf_edit.specs.Embedded.{items_at, with_items};
ghost use Rattle.gltf_fallback.specs.Bare.{said_at, says_fallback, is_fallback, is_bare};
ghost use Rattle.gltf_fallback.specs.Bare.{first_seat, next_seat, seats, seat_of, bare_of};

use gltf_edit::size_at;
use serde_json::Value;
use std::alloc::{AllocError, Global};

/// Whether a buffer has no bytes: `EXT_meshopt_compression` or `KHR_meshopt_compression` says that
/// it is a fallback, and it has no URI. The first buffer of a container may have those of its blob
/// all the same.
pub fn is_bare(buffer: &Value) -> bool
    ensures { result ≡ is_bare (view buffer.now) }
{
    is_fallback(buffer) && member_at(buffer, "uri").is_none()
}

fn is_fallback(buffer: &Value) -> bool
    ensures { result ≡ is_fallback (view buffer.now) }
{
    says_fallback(buffer, "EXT_meshopt_compression")
        || says_fallback(buffer, "KHR_meshopt_compression")
}

/// Whether an extension says of a buffer that it is a fallback.
fn says_fallback(buffer: &Value, name: &str) -> bool
    ensures { result ≡ says_fallback name.now (view buffer.now) }
{
    let Some(said) = said_at(buffer, name) else {
        return false;
    };
    match said.get("fallback") {
        Some(Value::Bool(said)) => *said,
        _ => false,
    }
}

/// What an extension says of a buffer or of a view, where it is not null.
pub(crate) fn said_at<'a>(of: &'a Value, name: &str) -> Option<&'a Value>
    ensures { option_map (λ v. view v.now) result ≡ said_at name.now (view of.now) }
{
    member_at(of.get("extensions")?, name)
}

/// A member that is there, and not null.
pub(crate) fn member_at<'a>(value: &'a Value, name: &str) -> Option<&'a Value>
    ensures { option_map (λ v. view v.now) result ≡ member_at name.now (view value.now) }
{
    match value.get(name) {
        Some(Value::Null) => None,
        member => member,
    }
}

/// For each buffer of a document that has no bytes its index, or, where these are `behind` one
/// other, the index that it has there.
pub(crate) fn seats_in(
    alloc: Global,
    document: &Value,
    behind: bool,
) -> Result<Vec<Option<u64>>, AllocError>
    ensures { IfOk result (λ all. all.items
        ≡ seats behind (first_seat behind) (items_at (codes "buffers") (view document.now))) }
{
    let Some(list) = document.get("buffers") else {
        return Ok(Vec::new(alloc));
    };
    match list {
        Value::Array(buffers) => seats(alloc, buffers, behind),
        _ => Ok(Vec::new(alloc)),
    }
}

fn seats(alloc: Global, buffers: &[Value], behind: bool) -> Result<Vec<Option<u64>>, AllocError>
    ensures { IfOk result (λ all. all.items
        ≡ seats behind (first_seat behind) (items_view buffers.now)) }
{
    let mut all = Vec::with_capacity(alloc, buffers.len())?;
    let mut next: u64 = if behind { 1 } else { 0 };
    for buffer in buffers {
        let is_bare = is_bare(buffer);
        all.push(if is_bare { Some(next) } else { None })?;
        if is_bare || !behind {
            next += 1;
        }
    }
    Ok(all)
}

/// That of the buffer that a view names.
pub(crate) fn seat_of(one: &Value, seats: &[Option<u64>]) -> Option<u64>
    ensures { result ≡ seat_of seats.now (view one.now) }
{
    let index = size_at(one, "buffer")?;
    match seats.get(index as usize) {
        Some(seat) => *seat,
        None => None,
    }
}

/// The buffers of a document that have no bytes.
pub(crate) fn bare_in(alloc: Global, document: &Value) -> Result<Vec<Value>, AllocError>
    ensures { IfOk result (λ all. items_view all.items
        ≡ bare_of (items_at (codes "buffers") (view document.now))) }
{
    let Some(list) = document.get("buffers") else {
        return Ok(Vec::new(alloc));
    };
    match list {
        Value::Array(buffers) => bare_of(alloc, buffers),
        _ => Ok(Vec::new(alloc)),
    }
}

fn bare_of(alloc: Global, buffers: &[Value]) -> Result<Vec<Value>, AllocError>
    ensures { IfOk result (λ all. items_view all.items ≡ bare_of (items_view buffers.now)) }
{
    let mut all = Vec::new(alloc);
    for buffer in buffers {
        add_bare(&mut all, buffer)?;
    }
    Ok(all)
}

/// One buffer more, where it has no bytes.
fn add_bare(all: &mut Vec<Value>, buffer: &Value) -> Result<(), AllocError>
    ensures { OnOk result (items_view all.new.items
        ≡ with_items (items_view all.old.items) (bare_of (item (view buffer.now) no_items))) }
{
    if is_bare(buffer) {
        all.push(buffer.clone()?)?;
    }
    Ok(())
}
