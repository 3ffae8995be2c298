//! The bytes of a part of an accessor, and the items in them.

ghost use Rattle.std.specs.Prelude.{◌≡◌, ◌+◌, ◌-◌, ◌*◌, ◌^◌, ◌<◌, Some, SomeIff};
ghost use Rattle.std.specs.Option.{option_copied};
ghost use Rattle.std.specs.Result.{result_map_both};
ghost use Rattle.gltf_handles.specs.Buffers.{view_handle};
ghost use Rattle.gltf_items.specs.ItemIter.{items_left};
ghost use Rattle.gltf_data.specs.Answers.{IsAnswered, ReadsAny};
ghost use Rattle.gltf_data.specs.Parts.{part_of, part_items, stride};
ghost use Rattle.gltf_data.specs.Unreadable.{where_all_hold, room_conditions, items_end, bytes_in};
ghost use Rattle.gltf_data.specs.Unreadable.{view_conditions, given_bytes, part_conditions};
ghost use Rattle.gltf_data.specs.Unreadable.{viewed_conditions};

use crate::unreadable::{Part, Unreadable};
use gltf_handles::buffer::{Buffer, View};
use gltf_items::laws::items_of_a_cut;
use gltf_items::{Item, ItemIter};

/// What the closure gives for a view's buffer.
fn ask<'s, F: Fn(Buffer) -> Option<&'s [u8]>>(view: View, get_buffer_data: &F) -> Option<&'s [u8]>
    requires { F.IsAlwaysCallable get_buffer_data.now }
    ensures { IsAnswered (λ b o. F.post get_buffer_data.now b o) (view_handle view.entry).document
        (view_handle view.entry).json.buffer (option_copied result) }
{
    get_buffer_data(view.buffer())
}

/// The view's stride, or the size of an item.
fn stride_of(view: View, size: usize) -> usize
    ensures { result ≡ stride (view_handle view.entry).json size }
{
    view.stride().unwrap_or(size)
}

/// The bytes from the first of some items to the end of the last one.
fn span(stride: usize, count: usize, size: usize) -> Option<usize>
    requires { 0 < count }
    ensures { SomeIff result (stride * (count - 1) + size < 2 ^ 64) (stride * (count - 1) + size) }
{
    stride.checked_mul(count - 1)?.checked_add(size)
}

/// Where the last of some items ends.
fn end_of(offset: usize, stride: usize, count: usize, size: usize) -> Option<usize>
    requires { 0 < count }
    ensures { SomeIff result (offset + stride * (count - 1) + size < 2 ^ 64)
        (offset + stride * (count - 1) + size) }
{
    offset.checked_add(span(stride, count, size)?)
}

/// Where the last of some items ends in a view that has room for them.
fn end_in(
    which: Part,
    view: View,
    offset: usize,
    count: usize,
    size: usize,
) -> Result<usize, Unreadable>
    requires { 0 < count }
    ensures { let part = part_of (view_handle view.entry).json offset count size in
        result ≡ where_all_hold (room_conditions which part) (items_end part) }
{
    let length = view.length();
    let stride = stride_of(view, size);
    match end_of(offset, stride, count, size) {
        Some(end) if end <= length => Ok(end),
        Some(end) => Err(Unreadable::ItemsPastView {
            part: which,
            end,
            length,
        }),
        None => Err(Unreadable::Overflow {
            part: which,
            offset,
            stride,
            count,
            size,
        }),
    }
}

/// The bytes of a view's buffer, where they were given and the view is within them.
fn within<'s>(which: Part, given: Option<&'s [u8]>, view: View) -> Result<&'s [u8], Unreadable>
    ensures { result_map_both (λ bytes. bytes.now) (λ e. e) result
        ≡ where_all_hold
        (view_conditions which (view_handle view.entry).json (option_copied given.entry))
        (given_bytes (option_copied given.entry)) }
{
    let Some(bytes) = given else {
        return Err(Unreadable::NoBufferData {
            part: which,
            buffer: view.buffer().index(),
        });
    };
    let (offset, length, available) = (view.offset(), view.length(), bytes.len());
    if available < length || available - length < offset {
        return Err(Unreadable::ViewPastBuffer {
            part: which,
            offset,
            length,
            available,
        });
    }
    Ok(bytes)
}

/// The bytes of some items, where these are all there; else the first condition that fails.
fn cut<'s>(
    which: Part,
    given: Option<&'s [u8]>,
    view: View,
    offset: usize,
    count: usize,
    size: usize,
) -> Result<&'s [u8], Unreadable>
    ensures { let part = part_of (view_handle view.entry).json offset count size in
        result_map_both (λ cut. cut.now) (λ e. e) result
        ≡ where_all_hold (part_conditions which part (option_copied given.entry))
        (bytes_in part (option_copied given.entry)) }
{
    let stride = stride_of(view, size);
    if count == 0 {
        return Err(Unreadable::NoItems { part: which });
    }
    if stride < size {
        return Err(Unreadable::Overlap {
            part: which,
            stride,
            size,
        });
    }
    let bytes = within(which, given, view)?;
    let end = end_in(which, view, offset, count, size)?;
    let start = view.offset() + offset;
    Ok(&bytes[start..start + (end - offset)])
}

/// The items of a part, by one answer of the closure.
pub(crate) fn items<'s, T: Item, F: Fn(Buffer) -> Option<&'s [u8]>>(
    which: Part,
    view: View,
    offset: usize,
    count: usize,
    get_buffer_data: &F,
) -> Result<ItemIter<'s, T>, Unreadable>
    requires callable { F.IsAlwaysCallable get_buffer_data.now }
    requires fits { T.size < usize.MAX }
    ensures { let part = Some (part_of (view_handle view.entry).json offset count T.size) in
        ReadsAny (λ b o. F.post get_buffer_data.now b o) (view_handle view.entry).document part
        (viewed_conditions which part) (part_items T.value part)
        (result_map_both items_left (λ e. e) result) }
{
    // A law that the proof stands on; the call does nothing.
    items_of_a_cut::<T>();
    let bytes = ask(view, get_buffer_data);
    let size = T::size();
    let items = cut(which, bytes, view, offset, count, size)?;
    Ok(ItemIter::new(items, stride_of(view, size)))
}
