//! How far buffers are passed by the views that go, without a copy of their bytes.
ghost use Rattle.std.specs.Prelude.{◌≡◌, ◌≤◌, ◌<◌, ◌⊎◌, ℕ, IfOk, get_or, true};
ghost use Rattle.serde_json.specs.View.{view, items_view};
ghost use Rattle.gltf_trim.specs.Passed.{covers, MayGoUpTo, MayGoBy, ArePassed};
ghost use Rattle.gltf_trim.specs.Tails.{bytes_of};

use crate::lengths::view_end;
use crate::marks::set_mark;
use crate::tails::number_at;
use gltf_edit::size_at;
use serde_json::Value;
use std::alloc::{AllocError, Global};

/// The marks but for those of buffers of which one walk over the views that go shows that all
/// behind these ends may go. It is seen where views stand in the order of their places, as
/// `gltf_bundle` writes them; of another buffer the mark stays.
pub(crate) fn unpassed(
    alloc: Global,
    marks: &[bool],
    ends: &[u64],
    bytes: &[Vec<u8>],
    views: &[Value],
) -> Result<Vec<bool>, AllocError>
    ensures { IfOk result (λ left. ArePassed marks.now ends.now (bytes_of bytes.now)
        (items_view views.now) left.items) }
{
    let places = places(alloc, ends, bytes, views)?;
    let mut left = Vec::from_slice(alloc, marks)?;
    for (i, one) in bytes.iter().enumerate() {
        if is_blank_from(one, number_at(&places, i)) {
            set_mark(&mut left, Some(i as u64), false);
        }
    }
    Ok(left)
}

/// For each buffer a place up to which all from its end on may go.
fn places(
    alloc: Global,
    ends: &[u64],
    bytes: &[Vec<u8>],
    views: &[Value],
) -> Result<Vec<u64>, AllocError>
    ensures { IfOk result (λ places. MayGoUpTo ends.now (bytes_of bytes.now)
        (items_view views.now) places.items) }
{
    let mut places = Vec::from_slice(alloc, ends)?;
    for one in views {
        pass(&mut places, bytes, one);
    }
    Ok(places)
}

/// Moves the place of the buffer of a view on, as far as this view and zeros before it lead.
fn pass(places: &mut Vec<u64>, bytes: &[Vec<u8>], one: &Value)
    ensures { MayGoBy (view one.now) (bytes_of bytes.now) places.old.items places.new.items }
{
    let Some(buffer) = size_at(one, "buffer") else {
        return;
    };
    let buffer = buffer as usize;
    if buffer < places.len() && buffer < bytes.len() {
        places[buffer] = passed_by(one, &bytes[buffer], places[buffer]);
    }
}

/// The place behind a view, where only zeros stand between this place and the view; else that of
/// the first byte that is none.
fn passed_by(one: &Value, bytes: &[u8], place: u64) -> u64
    ensures { (p : ℕ) → place ≤ p → p < result
        → (covers (view one.now) p ≡ true) ⊎ (get_or bytes.now p 0 ≡ 0) }
{
    let from = size_at(one, "byteOffset").unwrap_or(0);
    let begin = behind_zeros(bytes, place, from);
    if begin < from {
        begin
    } else {
        begin.max(view_end(one))
    }
}

/// The place of the first byte that is not zero, from this place on; this end where there is none
/// before it.
fn behind_zeros(bytes: &[u8], place: u64, end: u64) -> u64
    ensures { (p : ℕ) → place ≤ p → p < result → get_or bytes.now p 0 ≡ 0 }
{
    let end = end.min(bytes.len() as u64);
    for at in place..end {
        if bytes[at as usize] != 0 {
            return at;
        }
    }
    place.max(end)
}

/// Whether only zeros stand from this place on.
fn is_blank_from(bytes: &[u8], place: u64) -> bool
    ensures { result ≡ true → (p : ℕ) → place ≤ p → get_or bytes.now p 0 ≡ 0 }
{
    let end = bytes.len() as u64;
    behind_zeros(bytes, place, end) >= end
}
