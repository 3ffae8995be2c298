//! The items of an accessor as items of a size that need not be its own, at a distance of their own:
//! with padding an item ends later, and the next one begins later.

ghost use Rattle.std.specs.Prelude.{◌≡◌, ◌<◌, Some};
ghost use Rattle.std.specs.Option.{option_map};
ghost use Rattle.byteorder.specs.Endian.{little_number};
ghost use Rattle.gltf_handles.specs.Accessors.{accessor_handle, sparse_handle};
ghost use Rattle.gltf_handles.specs.Buffers.{view_handle};
ghost use Rattle.gltf_handles.specs.Sizes.{index_size};
ghost use Rattle.gltf_items.specs.ItemIter.{items_left};
ghost use Rattle.gltf_items.specs.SparseIndicesIter.{indices_left};
ghost use Rattle.gltf_data.specs.Iter.{counted_items};
ghost use Rattle.gltf_data.specs.Parts.{part_of};
ghost use Rattle.gltf_access.specs.Components.{spaced, base_at, values_at};
ghost use Rattle.gltf_access.specs.Taken.{TakesPart, TakesIndices, TakesBase, TakesParts};

use crate::raw::{part_bytes, spaced_bytes};
use gltf_data::accessor::sparse::{IndexType, Sparse};
use gltf_data::accessor::{Accessor, Item, ItemIter, Iter, SparseIndicesIter, SparseIter};
use gltf_data::buffer::{Buffer, View};
use gltf_items::laws::items_of_a_cut;

/// The items of an accessor that has a view or a sparse part, as items of the size of `T`, so many
/// bytes apart where a view states no distance. None where it has neither, and where such items
/// can't be read.
pub(crate) fn read<'s, T: Item, F: Fn(Buffer) -> Option<&'s [u8]>>(
    accessor: Accessor,
    apart: usize,
    get_buffer_data: &F,
) -> Option<Iter<'s, T>>
    requires callable { F.IsAlwaysCallable get_buffer_data.now }
    requires fits { T.size < usize.MAX }
    requires some { 0 < apart }
    ensures { TakesParts (λ b o. F.post get_buffer_data.now b o) apart ⟦<T as Item>⟧
        (accessor_handle accessor.entry).document (accessor_handle accessor.entry).json
        (accessor_handle accessor.entry).json.sparse
        (option_map (λ it. (counted_items it).items) result) }
{
    match accessor.sparse() {
        None => Some(Iter::Standard(plain(accessor, apart, get_buffer_data)?)),
        Some(sparse) => Some(Iter::Sparse(overridden(accessor, sparse, apart, get_buffer_data)?)),
    }
}

/// The items of an accessor without a sparse part.
fn plain<'s, T: Item, F: Fn(Buffer) -> Option<&'s [u8]>>(
    accessor: Accessor,
    apart: usize,
    get_buffer_data: &F,
) -> Option<ItemIter<'s, T>>
    requires callable { F.IsAlwaysCallable get_buffer_data.now }
    requires fits { T.size < usize.MAX }
    requires some { 0 < apart }
    ensures { let a = accessor_handle accessor.entry in
        TakesPart (λ b o. F.post get_buffer_data.now b o) T.value a.document
        (base_at apart T.size a.document a.json) (option_map items_left result) }
{
    let Some(view) = accessor.view() else {
        return None;
    };
    let (offset, count) = (accessor.offset(), accessor.count());
    spaced_items_at(view, offset, count, apart, get_buffer_data)
}

/// The items of a sparse accessor: those of its view, or zeros, with values in place of some.
fn overridden<'s, T: Item, F: Fn(Buffer) -> Option<&'s [u8]>>(
    accessor: Accessor,
    sparse: Sparse,
    apart: usize,
    get_buffer_data: &F,
) -> Option<SparseIter<'s, T>>
    requires callable { F.IsAlwaysCallable get_buffer_data.now }
    requires fits { T.size < usize.MAX }
    requires some { 0 < apart }
    requires one_document { (sparse_handle sparse).document
        ≡ (accessor_handle accessor).document }
    ensures { TakesParts (λ b o. F.post get_buffer_data.now b o) apart ⟦<T as Item>⟧
        (accessor_handle accessor.entry).document (accessor_handle accessor.entry).json
        (Some (sparse_handle sparse.entry).json) (option_map (λ it. it.items) result) }
{
    let base = base(accessor, apart, get_buffer_data)?;
    let indices = indices(sparse, get_buffer_data)?;
    let values = values(sparse, apart, get_buffer_data)?;
    let count = accessor.count();
    Some(SparseIter::with_base_count(base, count, indices, values))
}

/// What the values of a sparse accessor are put over: the items of its view, or zeros without one.
fn base<'s, T: Item, F: Fn(Buffer) -> Option<&'s [u8]>>(
    accessor: Accessor,
    apart: usize,
    get_buffer_data: &F,
) -> Option<Option<ItemIter<'s, T>>>
    requires callable { F.IsAlwaysCallable get_buffer_data.now }
    requires fits { T.size < usize.MAX }
    requires some { 0 < apart }
    ensures { let a = accessor_handle accessor.entry in
        TakesBase (λ b o. F.post get_buffer_data.now b o) apart ⟦<T as Item>⟧ a.document a.json
        (option_map (λ base. option_map items_left base) result) }
{
    let count = accessor.count();
    let Some(view) = accessor.view() else {
        if count == 0 {
            return None;
        }
        return Some(None);
    };
    let items = spaced_items_at(view, accessor.offset(), count, apart, get_buffer_data)?;
    Some(Some(items))
}

/// The values of a sparse part.
fn values<'s, T: Item, F: Fn(Buffer) -> Option<&'s [u8]>>(
    sparse: Sparse,
    apart: usize,
    get_buffer_data: &F,
) -> Option<ItemIter<'s, T>>
    requires callable { F.IsAlwaysCallable get_buffer_data.now }
    requires fits { T.size < usize.MAX }
    requires some { 0 < apart }
    ensures { let s = sparse_handle sparse.entry in
        TakesPart (λ b o. F.post get_buffer_data.now b o) T.value s.document
        (values_at apart T.size s.document s.json) (option_map items_left result) }
{
    let values = sparse.values();
    spaced_items_at(
        values.view(),
        values.offset(),
        sparse.count(),
        apart,
        get_buffer_data,
    )
}

/// The stored indices of a sparse part.
fn indices<'s, F: Fn(Buffer) -> Option<&'s [u8]>>(
    sparse: Sparse,
    get_buffer_data: &F,
) -> Option<SparseIndicesIter<'s>>
    requires { F.IsAlwaysCallable get_buffer_data.now }
    ensures { let s = sparse_handle sparse.entry in
        TakesIndices (λ b o. F.post get_buffer_data.now b o) s.document s.json
        (option_map indices_left result) }
{
    let indices = sparse.indices();
    indices_at(
        indices.view(),
        indices.offset(),
        sparse.count(),
        indices.index_type(),
        get_buffer_data,
    )
}

/// Stored indices in a view.
fn indices_at<'s, F: Fn(Buffer) -> Option<&'s [u8]>>(
    view: View,
    offset: usize,
    count: usize,
    index_type: IndexType,
    get_buffer_data: &F,
) -> Option<SparseIndicesIter<'s>>
    requires { F.IsAlwaysCallable get_buffer_data.now }
    ensures { let v = view_handle view.entry in let size = index_size index_type in
        TakesPart (λ b o. F.post get_buffer_data.now b o) (little_number size) v.document
        (Some (part_of v.json offset count size)) (option_map indices_left result) }
{
    match index_type {
        IndexType::U8 => Some(SparseIndicesIter::U8(items_at(
            view,
            offset,
            count,
            get_buffer_data,
        )?)),
        IndexType::U16 => Some(SparseIndicesIter::U16(items_at(
            view,
            offset,
            count,
            get_buffer_data,
        )?)),
        IndexType::U32 => Some(SparseIndicesIter::U32(items_at(
            view,
            offset,
            count,
            get_buffer_data,
        )?)),
    }
}

/// The items in a view, one right behind the other where it states no distance.
fn items_at<'s, T: Item, F: Fn(Buffer) -> Option<&'s [u8]>>(
    view: View,
    offset: usize,
    count: usize,
    get_buffer_data: &F,
) -> Option<ItemIter<'s, T>>
    requires callable { F.IsAlwaysCallable get_buffer_data.now }
    requires fits { T.size < usize.MAX }
    ensures { let v = view_handle view.entry in
        TakesPart (λ b o. F.post get_buffer_data.now b o) T.value v.document
        (Some (part_of v.json offset count T.size)) (option_map items_left result) }
{
    // A law that the proof stands on; the call does nothing.
    items_of_a_cut::<T>();
    let raw = part_bytes(view, offset, count, T::size(), get_buffer_data)?;
    Some(ItemIter::new(raw.bytes, raw.stride))
}

/// The items in a view that are so many bytes apart where it states no distance.
fn spaced_items_at<'s, T: Item, F: Fn(Buffer) -> Option<&'s [u8]>>(
    view: View,
    offset: usize,
    count: usize,
    apart: usize,
    get_buffer_data: &F,
) -> Option<ItemIter<'s, T>>
    requires callable { F.IsAlwaysCallable get_buffer_data.now }
    requires fits { T.size < usize.MAX }
    requires some { 0 < apart }
    ensures { let v = view_handle view.entry in
        TakesPart (λ b o. F.post get_buffer_data.now b o) T.value v.document
        (Some (part_of (spaced apart v.json) offset count T.size)) (option_map items_left result) }
{
    // A law that the proof stands on; the call does nothing.
    items_of_a_cut::<T>();
    let raw = spaced_bytes(view, offset, count, T::size(), apart, get_buffer_data)?;
    Some(ItemIter::new(raw.bytes, raw.stride))
}
