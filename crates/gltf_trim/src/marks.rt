//! How many views stay.
ghost use Rattle.std.specs.Prelude.{◌≡◌, ◌≤◌, IfOk, false, get_or};
ghost use Rattle.serde_json.specs.View.{view, items_view};
ghost use Rattle.gltf_trim.specs.Marks.{folded, marked, marked_image, marked_accessor};
ghost use Rattle.gltf_trim.specs.Marks.{sparse_view, before_marked, staying};

use crate::known::is_plain;
use crate::lists::list_at;
use gltf_edit::size_at;
use serde_json::Value;
use std::alloc::{AllocError, Global};

/// How many views of a document stay: all but those at the end of the list that images name, and
/// that no accessor names. All stay where the document lists an extension that is not known here,
/// or one stands in it: it might name a view.
pub(crate) fn staying(alloc: Global, document: &Value) -> Result<usize, AllocError>
    ensures { IfOk result (λ n. n ≡ staying (view document.now)) }
{
    let count = list_at(document, "bufferViews").len();
    if !is_plain(document) {
        return Ok(count);
    }
    let mut marks = vec![in alloc; false; count]?;
    mark_images(&mut marks, list_at(document, "images"));
    unmark_accessors(&mut marks, list_at(document, "accessors"));
    Ok(before_marked(count, &marks))
}

/// Sets the mark at an index, where there is one.
#[tactic(auto, using(std::proofs::lemmas::List::set_past))]
pub(crate) fn set_mark(marks: &mut Vec<bool>, index: Option<u64>, mark: bool)
    ensures { marks.new.items ≡ marked mark index marks.old.items }
{
    let Some(index) = index else {
        return;
    };
    let index = index as usize;
    if index < marks.len() {
        marks[index] = mark;
    }
}

/// Marks the views that images name.
fn mark_images(marks: &mut Vec<bool>, images: &[Value])
    ensures { marks.new.items ≡ folded marked_image (items_view images.now) marks.old.items }
{
    for image in images {
        set_mark(marks, size_at(image, "bufferView"), true);
    }
}

/// Takes the marks of the views away that accessors name.
fn unmark_accessors(marks: &mut Vec<bool>, accessors: &[Value])
    ensures { marks.new.items ≡ folded marked_accessor (items_view accessors.now) marks.old.items }
{
    for accessor in accessors {
        unmark_accessor(marks, accessor);
    }
}

fn unmark_accessor(marks: &mut Vec<bool>, accessor: &Value)
    ensures { marks.new.items ≡ marked_accessor (view accessor.now) marks.old.items }
{
    set_mark(marks, size_at(accessor, "bufferView"), false);
    set_mark(marks, sparse_view(accessor, "indices"), false);
    set_mark(marks, sparse_view(accessor, "values"), false);
}

/// The view that this part of the sparse part of an accessor names.
fn sparse_view(accessor: &Value, name: &str) -> Option<u64>
    ensures { result ≡ sparse_view name.now (view accessor.now) }
{
    let part = accessor.get("sparse")?.get(name)?;
    size_at(part, "bufferView")
}

/// Of the first so many, all but those with marks at the end.
fn before_marked(count: usize, marks: &[bool]) -> usize
    ensures is { result ≡ before_marked count marks.now }
    ensures within { result ≤ count }
{
    let mut stay = count;
    while stay > 0 && is_marked(marks, stay - 1) {
        stay -= 1;
    }
    stay
}

/// Whether there is a mark at an index.
pub(crate) fn is_marked(marks: &[bool], index: usize) -> bool
    ensures { result ≡ get_or marks.now index false }
{
    index < marks.len() && marks[index]
}
