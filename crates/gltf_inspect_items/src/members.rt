//! Items to be looked at in no order. Those of a sparse accessor without a view are few, whatever
//! its count is (glTF 2.0, section 3.6.2.3, "Sparse Accessors").
ghost use Rattle.std.specs.Prelude.{◌≡◌, ◌≢◌, ◌≤◌, IfSome, IsTrue, [], map, length};
ghost use Rattle.std.specs.Prelude.{option_map, slice_get};
ghost use Rattle.gltf_shared.specs.Shown.{lent_bytes};
ghost use Rattle.gltf_items.specs.ItemIter.{items_left as left};
ghost use Rattle.gltf_inspect_items.specs.Members.{HaveSameItems, members_left, placed};
ghost use Rattle.gltf_inspect_items.specs.Members.{indices_in, values_in, viewless};
ghost use Rattle.gltf_inspect_items.specs.Parts.{part_in, part_given};
ghost use Rattle.gltf_inspect_items.specs.Reading.{items_at, items_left};

use crate::number::Number;
use crate::part::part_at;
use crate::read::items_at;
use gltf::Document;
use gltf::accessor::Iter;
use gltf_items::{Item, ItemIter};
use gltf_json_geometry::accessor::ComponentType;
use gltf_json_geometry::accessor::sparse::Sparse;
use gltf_json_record::boxed::lent;
use gltf_json_record::validation::Checked;

/// Items to be looked at in no order, of which each may be there more than once.
#[derive(Drop)]
pub struct Members<'s, T: Item> {
    /// Whether zero is one of them, besides the others.
    pub zero: bool,
    /// The others, where there are some.
    pub others: Option<Iter<'s, T>>,
}

/// How many of the stored indices count: they rise, and are below the number of items.
#[tactic(auto, using(crate::proofs::Placed::stops_low, crate::proofs::Placed::stops_past, crate::proofs::Placed::goes_on))]
fn placed<T: Number>(mut indices: ItemIter<'_, T>, count: u64) -> usize
    ensures { result ≡ placed 0 count (map T.number (left indices.entry)) }
{
    let mut placed = 0;
    let mut least = 0;
    while let Some(item) = indices.next() {
        let index = item.number();
        if index < least {
            return placed;
        }
        if count <= index {
            return placed;
        }
        placed += 1;
        least = index + 1;
    }
    placed
}

/// The same, where they can be read as numbers of this type.
fn placed_as<T: Number>(
    document: &Document,
    buffers: &[&[u8]],
    sparse: &Sparse,
    count: u64,
) -> Option<usize>
    requires { T.size ≤ 64 }
    ensures { let s = sparse.now in
        result ≡ option_map (λ xs. placed 0 count (map T.number xs)) (part_given T.value
        (part_in T.size document.now s.indices.buffer_view s.indices.byte_offset s.count)
        (slice_get (lent_bytes buffers.now))) }
{
    let view = sparse.indices.buffer_view.value();
    let (offset, stored) = (sparse.indices.byte_offset as usize, sparse.count as usize);
    match part_at::<T>(document, buffers, view, offset, stored) {
        None => None,
        Some(indices) => Some(placed(indices, count)),
    }
}

/// The same, by the type of stored indices.
fn placed_at(document: &Document, buffers: &[&[u8]], sparse: &Sparse, count: u64) -> Option<usize>
    ensures { IfSome result (λ many. many ≡ placed 0 count
        (indices_in document.now (slice_get (lent_bytes buffers.now)) sparse.now)) }
{
    match sparse.indices.component_type {
        Checked::Invalid => None,
        Checked::Valid(component) => match component {
            ComponentType::U8 => placed_as::<u8>(document, buffers, sparse, count),
            ComponentType::U16 => placed_as::<u16>(document, buffers, sparse, count),
            ComponentType::U32 => placed_as::<u32>(document, buffers, sparse, count),
            _ => None,
        },
    }
}

/// The first so many values of a sparse part, where they can be read and there are some.
fn values_of<'s, T: Item>(
    document: &Document,
    buffers: &[&'s [u8]],
    sparse: &Sparse,
    count: usize,
) -> Option<ItemIter<'s, T>>
    requires { T.size ≤ 64 }
    ensures { let s = sparse.now in
        option_map left result ≡ part_given T.value
        (part_in T.size document.now s.values.buffer_view s.values.byte_offset count)
        (slice_get (lent_bytes buffers.now)) }
{
    let view = sparse.values.buffer_view.value();
    let offset = sparse.values.byte_offset as usize;
    part_at(document, buffers, view, offset, count)
}

/// Whether all values of a sparse part can be read.
fn are_given<T: Item>(document: &Document, buffers: &[&[u8]], sparse: &Sparse) -> bool
    requires { T.size ≤ 64 }
    ensures { IsTrue result → length (values_in ⟦<T as Item>⟧ document.now
        (slice_get (lent_bytes buffers.now)) sparse.now) ≡ sparse.now.count }
{
    match values_of::<T>(document, buffers, sparse, sparse.count as usize) {
        None => false,
        Some(_) => true,
    }
}

/// The items of a sparse accessor without a view, of whose indices so many count: the values at
/// these, and zero where there are more items.
fn few_with<'s, T: Item>(
    document: &Document,
    buffers: &[&'s [u8]],
    sparse: &Sparse,
    count: u64,
    many: usize,
) -> Option<Members<'s, T>>
    requires size { T.size ≤ 64 }
    requires many { many ≡ placed 0 count
        (indices_in document.now (slice_get (lent_bytes buffers.now)) sparse.now) }
    requires values { length (values_in ⟦<T as Item>⟧ document.now
        (slice_get (lent_bytes buffers.now)) sparse.now) ≡ sparse.now.count }
    ensures { IfSome result (λ few. HaveSameItems (members_left few) (viewless ⟦<T as Item>⟧
        document.now (slice_get (lent_bytes buffers.now)) count sparse.now)) }
{
    let zero = (many as u64) < count;
    if many == 0 {
        return Some(Members { zero, others: None });
    }
    match values_of(document, buffers, sparse, many) {
        None => None,
        Some(values) => Some(Members {
            zero,
            others: Some(Iter::Standard(values)),
        }),
    }
}

/// The same, where its parts can be read.
fn few_of<'s, T: Item>(
    document: &Document,
    buffers: &[&'s [u8]],
    sparse: &Sparse,
    count: u64,
) -> Option<Members<'s, T>>
    requires { T.size ≤ 64 }
    ensures { IfSome result (λ few. HaveSameItems (members_left few) (viewless ⟦<T as Item>⟧
        document.now (slice_get (lent_bytes buffers.now)) count sparse.now)) }
{
    let Some(many) = placed_at(document, buffers, sparse, count) else {
        return None;
    };
    if are_given::<T>(document, buffers, sparse) {
        few_with(document, buffers, sparse, count, many)
    } else {
        None
    }
}

/// The same of the accessor at an index, where it is a sparse one without a view.
fn few_at<'s, T: Item>(
    document: &Document,
    buffers: &[&'s [u8]],
    index: usize,
) -> Option<Members<'s, T>>
    requires { T.size ≤ 64 }
    ensures { let items = items_at ⟦<T as Item>⟧ document.now
        (slice_get (lent_bytes buffers.now)) index in
        IfSome result (λ few. items ≢ [] → HaveSameItems (members_left few) items) }
{
    let Some(accessor) = document.as_json().accessors.as_slice().get(index) else {
        return None;
    };
    if accessor.buffer_view.is_some() {
        return None;
    }
    let Some(sparse) = lent(&accessor.sparse) else {
        return None;
    };
    few_of(document, buffers, sparse, accessor.count)
}

/// These items, each once.
fn each_of<T: Item>(items: Option<Iter<'_, T>>) -> Members<'_, T>
    ensures { members_left result ≡ items_left items.entry }
{
    Members {
        zero: false,
        others: items,
    }
}

/// The items of the accessor at an index, as `items_at` gives them, but in no order. Of a sparse
/// accessor without a view there are at most as many as it has values, and one zero, whatever its
/// count is. An item has at most 64 bytes, as those of the standard.
pub fn members_at<'s, T: Item>(
    document: &Document,
    buffers: &[&'s [u8]],
    index: usize,
) -> Members<'s, T>
    requires { T.size ≤ 64 }
    ensures { HaveSameItems (members_left result) (items_at ⟦<T as Item>⟧ document.now
        (slice_get (lent_bytes buffers.now)) index) }
{
    let items: Option<Iter<'s, T>> = items_at(document, buffers, index);
    if some_left(&items) {
        if let Some(few) = few_at(document, buffers, index) {
            return few;
        }
    }
    each_of(items)
}

/// Whether there are items.
fn some_left<T: Item>(items: &Option<Iter<'_, T>>) -> bool
    ensures { IsTrue result → items_left items.now ≢ [] }
{
    match items {
        Some(items) => items.len() != 0,
        None => false,
    }
}
