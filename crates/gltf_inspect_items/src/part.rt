//! A part of an accessor by itself: its stored indices, or the values at these (glTF 2.0, section
//! 3.6.2.3, "Sparse Accessors").
ghost use Rattle.std.specs.Prelude.{◌≡◌, ◌+◌, ◌-◌, ◌*◌, ◌^◌, ◌<◌, ◌≤◌, nat_le, if◌then◌else◌};
ghost use Rattle.std.specs.Prelude.{IfSome, SomeIff, option_map, slice_get};
ghost use Rattle.std.specs.Option.{option_copied};
ghost use Rattle.gltf_shared.specs.Shown.{lent_bytes};
ghost use Rattle.gltf_items.specs.ItemIter.{items_left};
ghost use Rattle.gltf_data.specs.Parts.{part_of, stride, view_offset};
ghost use Rattle.gltf_data.specs.Unreadable.{items_end};
ghost use Rattle.gltf_inspect_items.specs.Parts.{part_in, cut, given, part_given};

use gltf::Document;
use gltf_items::laws::items_of_a_cut;
use gltf_items::{Item, ItemIter};
use gltf_json_geometry::buffer::View;

/// The distance in bytes from item to item.
fn stride_of(view: &View, size: usize) -> usize
    ensures { result ≡ stride view.now size }
{
    match view.byte_stride {
        None | Some(0) => size,
        Some(stride) => stride as usize,
    }
}

/// Where a view begins in its buffer.
fn offset_of(view: &View) -> usize
    ensures { result ≡ view_offset view.now }
{
    view.byte_offset.unwrap_or(0) as usize
}

/// The bytes from the first of some items to the end of the last one.
fn span(stride: usize, count: usize, size: usize) -> Option<usize>
    requires { 0 < count }
    ensures { SomeIff result (stride * (count - 1) + size < 2 ^ 64) (stride * (count - 1) + size) }
{
    stride.checked_mul(count - 1)?.checked_add(size)
}

/// Where the last of some items ends.
fn end_of(offset: usize, stride: usize, count: usize, size: usize) -> Option<usize>
    requires { 0 < count }
    ensures { SomeIff result (offset + stride * (count - 1) + size < 2 ^ 64)
        (offset + stride * (count - 1) + size) }
{
    offset.checked_add(span(stride, count, size)?)
}

/// The same, where it is within the view.
fn end_in(view: &View, offset: usize, count: usize, size: usize) -> Option<usize>
    requires { 0 < count }
    ensures { let p = part_of view.now offset count size in
        result ≡ if nat_le (items_end p) view.now.byte_length then Some (items_end p) else None }
{
    let length = view.byte_length as usize;
    let end = end_of(offset, stride_of(view, size), count, size)?;
    if end <= length { Some(end) } else { None }
}

/// Whether a view is within so many bytes.
fn is_within(view: &View, len: usize) -> bool
    ensures { result ≡ nat_le (view_offset view.now + view.now.byte_length) len }
{
    let length = view.byte_length as usize;
    length <= len && offset_of(view) <= len - length
}

/// The bytes of some items of a view, from the first one to the end of the last one, where they are
/// all there and do not overlap.
fn cut<'s>(
    view: &View,
    bytes: &'s [u8],
    offset: usize,
    count: usize,
    size: usize,
) -> Option<&'s [u8]>
    ensures cut { option_copied result ≡ cut (part_of view.now offset count size) bytes.now }
    ensures apart { IfSome result (λ _. size ≤ stride view.now size) }
{
    if count == 0 || stride_of(view, size) < size || !is_within(view, bytes.len()) {
        return None;
    }
    let end = end_in(view, offset, count, size)?;
    let start = offset_of(view) + offset;
    Some(&bytes[start..start + (end - offset)])
}

/// The items of a part in these bytes, where they are all there and do not overlap.
fn given<'s, T: Item>(
    view: &View,
    bytes: &'s [u8],
    offset: usize,
    count: usize,
) -> Option<ItemIter<'s, T>>
    requires { T.size ≤ 64 }
    ensures { option_map items_left result
        ≡ given T.value (part_of view.now offset count T.size) (Some bytes.now) }
{
    // A law that the proof stands on; the call does nothing.
    items_of_a_cut::<T>();
    match cut(view, bytes, offset, count, T::size()) {
        None => None,
        Some(cut) => Some(ItemIter::new(cut, stride_of(view, T::size()))),
    }
}

/// So many items at an offset in the view at an index, where they are all there and do not overlap.
/// None also where there is no such view, and of no items. An item has at most 64 bytes, as those
/// of the standard.
pub fn part_at<'s, T: Item>(
    document: &Document,
    buffers: &[&'s [u8]],
    view: usize,
    offset: usize,
    count: usize,
) -> Option<ItemIter<'s, T>>
    requires { T.size ≤ 64 }
    ensures { option_map items_left result
        ≡ part_given T.value (part_in T.size document.now view offset count)
        (slice_get (lent_bytes buffers.now)) }
{
    let view = document.as_json().buffer_views.as_slice().get(view)?;
    let data = buffers.get(view.buffer.value())?;
    given(view, data, offset, count)
}
