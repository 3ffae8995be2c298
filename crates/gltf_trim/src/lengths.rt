//! Where buffers end.
ghost use Rattle.std.specs.Prelude.{◌≡◌, [], IfOk, get_or, false, ◌&&◌};
ghost use Rattle.serde_json.specs.View.{view, items_view};
ghost use Rattle.gltf_trim.specs.Lengths.{marked_buffer, view_end, raised, raised_by};
ghost use Rattle.gltf_trim.specs.Lengths.{shorter, shorter_if, all_shorter, lengths};
ghost use Rattle.gltf_trim.specs.Marks.{folded};
ghost use Rattle.gltf_trim.specs.Tails.{bytes_of, is_blank};

use crate::lists::list_at;
use crate::marks::{is_marked, set_mark};
use crate::passed::unpassed;
use crate::tails::{clear_views, is_blank_at, number_at, tails};
use gltf_edit::size_at;
use serde_json::Value;
use std::alloc::{AllocError, Global};

/// Of each buffer of a document, how many bytes it has once only so many views stay, where it
/// becomes shorter: the buffer of a view that goes ends where the last of the others ends, if only
/// bytes of views that go stand behind, and zeros.
pub(crate) fn lengths(
    alloc: Global,
    document: &Value,
    stay: usize,
    bytes: &[Vec<u8>],
) -> Result<Vec<Option<u64>>, AllocError>
    ensures { IfOk result (λ ls. ls.items
        ≡ lengths stay (view document.now) (bytes_of bytes.now)) }
{
    let buffers = list_at(document, "buffers");
    let mut marks = vec![in alloc; false; buffers.len()]?;
    let mut ends = vec![in alloc; 0u64; buffers.len()]?;
    let views = list_at(document, "bufferViews");
    let stay = stay.min(views.len());
    mark_buffers(&mut marks, &views[stay..]);
    raise_ends(&mut ends, &views[..stay]);
    let left = unpassed(alloc, &marks, &ends, bytes, &views[stay..])?;
    let mut tails = tails(alloc, &left, &ends, bytes)?;
    clear_views(&mut tails, &ends, &views[stay..]);
    all_shorter(alloc, &marks, &ends, &tails, buffers)
}

/// Marks the buffers of views that go.
fn mark_buffers(marks: &mut Vec<bool>, views: &[Value])
    ensures { marks.new.items ≡ folded marked_buffer (items_view views.now) marks.old.items }
{
    for one in views {
        set_mark(marks, size_at(one, "buffer"), true);
    }
}

/// Makes the end of each buffer that of the last view in it.
fn raise_ends(ends: &mut Vec<u64>, views: &[Value])
    ensures { ends.new.items ≡ folded raised_by (items_view views.now) ends.old.items }
{
    for one in views {
        raise(ends, size_at(one, "buffer"), view_end(one));
    }
}

/// Makes an end no less than this, where there is one.
#[tactic(auto, using(std::proofs::lemmas::List::set_past))]
fn raise(ends: &mut Vec<u64>, buffer: Option<u64>, end: u64)
    ensures { ends.new.items ≡ raised buffer end ends.old.items }
{
    let Some(buffer) = buffer else {
        return;
    };
    let buffer = buffer as usize;
    if buffer < ends.len() {
        ends[buffer] = ends[buffer].max(end);
    }
}

/// Where a view ends in its buffer.
pub(crate) fn view_end(one: &Value) -> u64
    ensures { result ≡ view_end (view one.now) }
{
    let offset = size_at(one, "byteOffset").unwrap_or(0);
    let length = size_at(one, "byteLength").unwrap_or(0);
    offset.saturating_add(length)
}

/// The lengths of buffers with marks and only zeros in their tails, where these ends are less.
fn all_shorter(
    alloc: Global,
    marks: &[bool],
    ends: &[u64],
    tails: &[Vec<u8>],
    buffers: &[Value],
) -> Result<Vec<Option<u64>>, AllocError>
    ensures { IfOk result (λ ls. ls.items ≡ all_shorter
        (λ b. get_or marks.now b false && is_blank (get_or (bytes_of tails.now) b []))
        ends.now 0 (items_view buffers.now)) }
{
    let mut all = Vec::with_capacity(alloc, buffers.len())?;
    for (i, buffer) in buffers.iter().enumerate() {
        let may = is_marked(marks, i) && is_blank_at(tails, i);
        all.push(shorter_if(may, number_at(ends, i), buffer))?;
    }
    Ok(all)
}

fn shorter_if(may: bool, end: u64, buffer: &Value) -> Option<u64>
    ensures { result ≡ shorter_if may end (view buffer.now) }
{
    if may { shorter(end, buffer) } else { None }
}

/// How many bytes a buffer has that becomes shorter: at least one.
fn shorter(end: u64, buffer: &Value) -> Option<u64>
    ensures { result ≡ shorter end (view buffer.now) }
{
    let length = end.max(1);
    if length < size_at(buffer, "byteLength").unwrap_or(0) {
        Some(length)
    } else {
        None
    }
}
