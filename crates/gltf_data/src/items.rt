//! How the items of an accessor are found.

ghost use Rattle.std.specs.Prelude.{◌≡◌, ◌<◌, IfSome, Some, IfOk, is_some};
ghost use Rattle.std.specs.Option.{option_map};
ghost use Rattle.std.specs.Result.{result_ok, result_map_both};
ghost use Rattle.byteorder.specs.Endian.{little_number};
ghost use Rattle.gltf_handles.specs.Accessors.{accessor_handle, sparse_handle};
ghost use Rattle.gltf_handles.specs.Buffers.{view_handle};
ghost use Rattle.gltf_handles.specs.Sizes.{index_size};
ghost use Rattle.gltf_items.specs.ItemIter.{items_left};
ghost use Rattle.gltf_items.specs.SparseIndicesIter.{indices_left};
ghost use Rattle.gltf_items.specs.Counted.{IsFresh};
ghost use Rattle.gltf_data.specs.Answers.{ReadsAny, ReadsParts, Reads, ReadsAlike};
ghost use Rattle.gltf_data.specs.Answers.{Tries, TriesAlike};
ghost use Rattle.gltf_data.specs.Iter.{counted_items, is_sparse};
ghost use Rattle.gltf_data.specs.Parts.{part_of, base_part, index_part, value_part, index_items};
ghost use Rattle.gltf_data.specs.Parts.{base_items, part_items, stored_count};
ghost use Rattle.gltf_data.specs.Unreadable.{viewed_conditions, base_conditions};
ghost use Rattle.gltf_data.specs.declared.unreadable.Part.TheVariants.{Items, SparseIndices};
ghost use Rattle.gltf_data.specs.declared.unreadable.Part.TheVariants.{SparseValues};

use crate::accessor_iter::Iter;
use crate::part;
use crate::unreadable::{Part, Unreadable};
use gltf_handles::accessor::Accessor;
use gltf_handles::accessor::sparse::{IndexType, Sparse};
use gltf_handles::buffer::{Buffer, View};
use gltf_items::{Item, ItemIter, SparseIndicesIter, SparseIter};

/// Stored indices in a view.
fn indices_at<'s, F: Fn(Buffer) -> Option<&'s [u8]>>(
    view: View,
    offset: usize,
    count: usize,
    index_type: IndexType,
    get_buffer_data: &F,
) -> Result<SparseIndicesIter<'s>, Unreadable>
    requires { F.IsAlwaysCallable get_buffer_data.now }
    ensures { let size = index_size index_type in
        let part = Some (part_of (view_handle view.entry).json offset count size) in
        ReadsAny (λ b o. F.post get_buffer_data.now b o) (view_handle view.entry).document part
        (viewed_conditions SparseIndices part) (part_items (little_number size) part)
        (result_map_both indices_left (λ e. e) result) }
{
    let which = Part::SparseIndices;
    match index_type {
        IndexType::U8 => Ok(SparseIndicesIter::U8(part::items(
            which,
            view,
            offset,
            count,
            get_buffer_data,
        )?)),
        IndexType::U16 => Ok(SparseIndicesIter::U16(part::items(
            which,
            view,
            offset,
            count,
            get_buffer_data,
        )?)),
        IndexType::U32 => Ok(SparseIndicesIter::U32(part::items(
            which,
            view,
            offset,
            count,
            get_buffer_data,
        )?)),
    }
}

/// The stored indices of a sparse part.
fn indices<'s, F: Fn(Buffer) -> Option<&'s [u8]>>(
    sparse: Sparse,
    get_buffer_data: &F,
) -> Result<SparseIndicesIter<'s>, Unreadable>
    requires { F.IsAlwaysCallable get_buffer_data.now }
    ensures { let s = sparse_handle sparse.entry in
        let part = index_part s.document s.json in
        ReadsAny (λ b o. F.post get_buffer_data.now b o) s.document part
        (viewed_conditions SparseIndices part) (index_items s.document s.json)
        (result_map_both indices_left (λ e. e) result) }
{
    let indices = sparse.indices();
    indices_at(
        indices.view(),
        indices.offset(),
        sparse.count(),
        indices.index_type(),
        get_buffer_data,
    )
}

/// The values of a sparse part.
fn values<'s, T: Item, F: Fn(Buffer) -> Option<&'s [u8]>>(
    sparse: Sparse,
    get_buffer_data: &F,
) -> Result<ItemIter<'s, T>, Unreadable>
    requires callable { F.IsAlwaysCallable get_buffer_data.now }
    requires fits { T.size < usize.MAX }
    ensures { let s = sparse_handle sparse.entry in
        let part = value_part T.size s.document s.json in
        ReadsAny (λ b o. F.post get_buffer_data.now b o) s.document part
        (viewed_conditions SparseValues part) (part_items T.value part)
        (result_map_both items_left (λ e. e) result) }
{
    let values = sparse.values();
    part::items(
        Part::SparseValues,
        values.view(),
        values.offset(),
        sparse.count(),
        get_buffer_data,
    )
}

/// The items of a plain accessor.
fn standard<'s, T: Item, F: Fn(Buffer) -> Option<&'s [u8]>>(
    accessor: Accessor,
    get_buffer_data: &F,
) -> Result<ItemIter<'s, T>, Unreadable>
    requires callable { F.IsAlwaysCallable get_buffer_data.now }
    requires fits { T.size < usize.MAX }
    ensures { let a = accessor_handle accessor.entry in
        let part = base_part T.size a.document a.json in
        ReadsAny (λ b o. F.post get_buffer_data.now b o) a.document part
        (viewed_conditions Items part) (part_items T.value part)
        (result_map_both items_left (λ e. e) result) }
{
    let Some(view) = accessor.view() else {
        return Err(Unreadable::NoView);
    };
    let (offset, count) = (accessor.offset(), accessor.count());
    part::items(Part::Items, view, offset, count, get_buffer_data)
}

/// What the values of a sparse accessor are put over: the items of its view, or zeros without one.
fn base<'s, T: Item, F: Fn(Buffer) -> Option<&'s [u8]>>(
    accessor: Accessor,
    get_buffer_data: &F,
) -> Result<Option<ItemIter<'s, T>>, Unreadable>
    requires callable { F.IsAlwaysCallable get_buffer_data.now }
    requires fits { T.size < usize.MAX }
    ensures { let a = accessor_handle accessor.entry in
        let part = base_part T.size a.document a.json in
        ReadsAny (λ b o. F.post get_buffer_data.now b o) a.document part
        (base_conditions a.json.count part) (base_items T.value part)
        (result_map_both (λ base. option_map items_left base) (λ e. e) result) }
{
    let count = accessor.count();
    let Some(view) = accessor.view() else {
        return if count == 0 {
            Err(Unreadable::NoItems { part: Part::Items })
        } else {
            Ok(None)
        };
    };
    let items = part::items(Part::Items, view, accessor.offset(), count, get_buffer_data)?;
    Ok(Some(items))
}

/// The items of a sparse accessor.
fn sparse_items<'s, T: Item, F: Fn(Buffer) -> Option<&'s [u8]>>(
    accessor: Accessor,
    sparse: Sparse,
    get_buffer_data: &F,
) -> Result<SparseIter<'s, T>, Unreadable>
    requires callable { F.IsAlwaysCallable get_buffer_data.now }
    requires fits { T.size < usize.MAX }
    requires one_document { (sparse_handle sparse).document
        ≡ (accessor_handle accessor).document }
    ensures items { ReadsParts (λ b o. F.post get_buffer_data.now b o) ⟦<T as Item>⟧
        (accessor_handle accessor.entry).document (accessor_handle accessor.entry).json
        (Some (sparse_handle sparse.entry).json)
        (result_map_both (λ it. it.items) (λ e. e) result) }
    ensures fresh { IfOk result (λ it. IsFresh it (sparse_handle sparse.entry).json.count) }
{
    let base = base(accessor, get_buffer_data)?;
    let indices = indices(sparse, get_buffer_data)?;
    let values = values(sparse, get_buffer_data)?;
    let count = accessor.count();
    Ok(SparseIter::with_base_count(base, count, indices, values))
}

/// The items of an accessor, by the answers of the closure.
fn read<'s, T: Item, F: Fn(Buffer) -> Option<&'s [u8]>>(
    accessor: Accessor,
    get_buffer_data: &F,
) -> Result<Iter<'s, T>, Unreadable>
    requires callable { F.IsAlwaysCallable get_buffer_data.now }
    ensures outcome { Tries (λ b o. F.post get_buffer_data.now b o) ⟦<T as Item>⟧
        (accessor_handle accessor.entry).document (accessor_handle accessor.entry).json
        (result_map_both (λ it. (counted_items it).items) (λ e. e) result) }
    ensures fresh { IfOk result (λ it. IsFresh (counted_items it)
        (stored_count (accessor_handle accessor.entry).json.sparse)) }
    ensures variant { IfOk result (λ it. is_sparse it
        ≡ is_some (accessor_handle accessor.entry).json.sparse) }
{
    if T::size() != accessor.size() {
        return Err(Unreadable::ItemSize {
            wanted: T::size(),
            found: accessor.size(),
        });
    }
    match accessor.sparse() {
        None => Ok(Iter::Standard(standard(accessor, get_buffer_data)?)),
        Some(sparse) => Ok(Iter::Sparse(sparse_items(accessor, sparse, get_buffer_data)?)),
    }
}

impl<'s, T: Item> Iter<'s, T> {
    /// The items of an accessor; None where it cannot be read. It can where the size of an item is
    /// that of the accessor, and each of its parts is there: the view, the view of the stored
    /// indices and that of the values. A part is there where the closure gives bytes for the view's
    /// buffer, the view is within them, there are some items, these do not overlap, and the last
    /// one ends within the view. An accessor with neither a view nor a sparse part cannot be read;
    /// a sparse one without a view is zeros under its values, and has some. They are `Sparse`
    /// exactly where the accessor has a sparse part.
    ///
    /// It takes no memory, reads each stored index at most once, and no item.
    pub fn new<F: Fn(Buffer) -> Option<&'s [u8]>>(
        accessor: Accessor,
        get_buffer_data: &F,
    ) -> Option<Self>
        requires { F.IsAlwaysCallable get_buffer_data.now }
        ensures items { Reads (λ b o. F.post get_buffer_data.now b o) ⟦<T as Item>⟧
            (accessor_handle accessor.entry).document (accessor_handle accessor.entry).json
            (option_map (λ it. (counted_items it).items) result) }
        ensures alike { ReadsAlike (λ b o. F.post get_buffer_data.now b o) ⟦<T as Item>⟧
            (accessor_handle accessor.entry).document (accessor_handle accessor.entry).json
            (option_map (λ it. (counted_items it).items) result) }
        ensures fresh { IfSome result (λ it. IsFresh (counted_items it)
            (stored_count (accessor_handle accessor.entry).json.sparse)) }
        ensures variant { IfSome result (λ it. is_sparse it
            ≡ is_some (accessor_handle accessor.entry).json.sparse) }
    {
        match Self::try_new(accessor, get_buffer_data) {
            Ok(items) => Some(items),
            Err(_) => None,
        }
    }

    /// The same as `new`, but with the reason where the accessor cannot be read: the first
    /// condition that fails, in the order of `Unreadable`.
    pub fn try_new<F: Fn(Buffer) -> Option<&'s [u8]>>(
        accessor: Accessor,
        get_buffer_data: &F,
    ) -> Result<Self, Unreadable>
        requires { F.IsAlwaysCallable get_buffer_data.now }
        ensures outcome { Tries (λ b o. F.post get_buffer_data.now b o) ⟦<T as Item>⟧
            (accessor_handle accessor.entry).document (accessor_handle accessor.entry).json
            (result_map_both (λ it. (counted_items it).items) (λ e. e) result) }
        ensures outcome_alike { TriesAlike (λ b o. F.post get_buffer_data.now b o) ⟦<T as Item>⟧
            (accessor_handle accessor.entry).document (accessor_handle accessor.entry).json
            (result_map_both (λ it. (counted_items it).items) (λ e. e) result) }
        ensures items { Reads (λ b o. F.post get_buffer_data.now b o) ⟦<T as Item>⟧
            (accessor_handle accessor.entry).document (accessor_handle accessor.entry).json
            (option_map (λ it. (counted_items it).items) (result_ok result)) }
        ensures alike { ReadsAlike (λ b o. F.post get_buffer_data.now b o) ⟦<T as Item>⟧
            (accessor_handle accessor.entry).document (accessor_handle accessor.entry).json
            (option_map (λ it. (counted_items it).items) (result_ok result)) }
        ensures fresh { IfOk result (λ it. IsFresh (counted_items it)
            (stored_count (accessor_handle accessor.entry).json.sparse)) }
        ensures variant { IfOk result (λ it. is_sparse it
            ≡ is_some (accessor_handle accessor.entry).json.sparse) }
    {
        read(accessor, get_buffer_data)
    }
}
