//! Copies of the bytes behind the views that stay.
ghost use Rattle.std.specs.Prelude.{◌≡◌, ◌+◌, ℕ, [], IfOk, get_or, if◌then◌else◌};
ghost use Rattle.serde_json.specs.View.{view, items_view};
ghost use Rattle.gltf_trim.specs.Lengths.{is_between, is_in, is_in_some};
ghost use Rattle.gltf_trim.specs.Tails.{bytes_of, tail, all_tails, byte_at, is_blank};

use crate::lengths::view_end;
use crate::marks::is_marked;
use gltf_edit::size_at;
use serde_json::Value;
use std::alloc::{AllocError, Global};

/// Copies of what stands behind the ends of buffers with marks.
pub(crate) fn tails(
    alloc: Global,
    marks: &[bool],
    ends: &[u64],
    bytes: &[Vec<u8>],
) -> Result<Vec<Vec<u8>>, AllocError>
    ensures { IfOk result (λ ts. bytes_of ts.items
        ≡ all_tails marks.now ends.now 0 (bytes_of bytes.now)) }
{
    let mut all = Vec::with_capacity(alloc, bytes.len())?;
    for (i, one) in bytes.iter().enumerate() {
        all.push(tail(alloc, is_marked(marks, i), number_at(ends, i), one)?)?;
    }
    Ok(all)
}

/// A copy of what stands behind this place, where there is a mark.
fn tail(alloc: Global, mark: bool, end: u64, bytes: &[u8]) -> Result<Vec<u8>, AllocError>
    ensures { IfOk result (λ t. t.items ≡ tail mark end bytes.now) }
{
    if !mark {
        return Ok(Vec::new(alloc));
    }
    let end = (end as usize).min(bytes.len());
    Vec::from_slice(alloc, &bytes[end..])
}

/// The number at an index, zero where there is none.
pub(crate) fn number_at(numbers: &[u64], index: usize) -> u64
    ensures { result ≡ get_or numbers.now index 0 }
{
    numbers.get(index).copied().unwrap_or(0)
}

/// Makes the bytes of these views zero.
pub(crate) fn clear_views(tails: &mut Vec<Vec<u8>>, ends: &[u64], views: &[Value])
    ensures { (b i : ℕ) → byte_at (bytes_of tails.new.items) b i
        ≡ (if is_in_some b (get_or ends.now b 0 + i) (items_view views.now) then 0
        else byte_at (bytes_of tails.old.items) b i) }
{
    for one in views {
        clear_view(tails, ends, one);
    }
}

/// Makes the bytes of a view zero.
fn clear_view(tails: &mut Vec<Vec<u8>>, ends: &[u64], one: &Value)
    ensures { (b i : ℕ) → byte_at (bytes_of tails.new.items) b i
        ≡ (if is_in b (get_or ends.now b 0 + i) (view one.now) then 0
        else byte_at (bytes_of tails.old.items) b i) }
{
    let Some(buffer) = size_at(one, "buffer") else {
        return;
    };
    let buffer = buffer as usize;
    if buffer < tails.len() {
        let end = number_at(ends, buffer);
        let from = size_at(one, "byteOffset").unwrap_or(0).saturating_sub(end);
        let to = view_end(one).saturating_sub(end);
        clear(&mut tails[buffer], from, to);
    }
}

/// Makes the bytes zero from one place up to another.
fn clear(bytes: &mut Vec<u8>, from: u64, to: u64)
    ensures { (i : ℕ) → get_or bytes.new.items i 0
        ≡ (if is_between from to i then 0 else get_or bytes.old.items i 0) }
{
    let to = (to as usize).min(bytes.len());
    let from = (from as usize).min(to);
    bytes[from..to].fill(0);
}

/// Whether there are only zeros at an index, or nothing.
pub(crate) fn is_blank_at(tails: &[Vec<u8>], index: usize) -> bool
    ensures { result ≡ is_blank (get_or (bytes_of tails.now) index []) }
{
    match tails.get(index) {
        Some(tail) => is_blank(tail),
        None => true,
    }
}

/// Whether there are only zeros.
fn is_blank(tail: &[u8]) -> bool
    ensures { result ≡ is_blank tail.now }
{
    tail.iter().all(|byte| *byte == 0)
}
