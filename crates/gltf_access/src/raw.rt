//! Bytes where they lie in a buffer, without a copy.

ghost use Rattle.std.specs.Prelude.{◌≡◌, ◌+◌, ◌-◌, ◌*◌, ◌^◌, ◌<◌, SomeIff, Some, option_map};
ghost use Rattle.std.specs.Option.{option_copied};
ghost use Rattle.gltf_data.specs.Parts.{part_of, Fits};
ghost use Rattle.gltf_handles.specs.Accessors.{accessor_handle};
ghost use Rattle.gltf_handles.specs.Buffers.{view_handle};
ghost use Rattle.gltf_look.specs.Images.{image_handle};
ghost use Rattle.gltf_access.specs.Raw.{shown, raw_bytes, raw_view, ViewFits, IsAnsweredIn};
ghost use Rattle.gltf_access.specs.Raw.{IsLent, whole_part, part_view, IsRawPart, IsRawView};
ghost use Rattle.gltf_access.specs.Raw.{image_view};
ghost use Rattle.gltf_access.specs.Components.{spaced};
ghost use Rattle.gltf_access.specs.Taken.{LiesIn, bytes_at};

use gltf_data::accessor::Accessor;
use gltf_data::buffer::{Buffer, View};
use gltf_look::image::{Image, Source};

/// The items of an accessor where they lie in a buffer.
#[derive(Clone, Copy, Debug)]
pub struct Bytes<'s> {
    /// The bytes from the first item to the end of the last one. Item i begins at byte
    /// `i * stride`, and all its bytes are there. After each item but the last one there may be
    /// bytes of others.
    pub bytes: &'s [u8],
    /// The distance in bytes from item to item: the view's `byteStride`, or the size of an item
    /// where that is absent or 0.
    pub stride: usize,
    /// The number of items.
    pub count: usize,
}

/// The bytes of the items of an accessor where they lie (glTF 2.0, section 3.6.2, "Accessors").
/// None exactly where it has a sparse part or no view, where the closure gives no bytes for the
/// view's buffer or the view ends past these, where the count is 0, where the stride is below the
/// size of an item, or where the last item ends past the view. All this is by one answer of the
/// closure, for the view's buffer.
pub fn accessor_bytes<'s, F: Fn(Buffer) -> Option<&'s [u8]>>(
    accessor: Accessor,
    get_buffer_data: &F,
) -> Option<Bytes<'s>>
    requires { F.IsAlwaysCallable get_buffer_data.now }
    ensures { let a = accessor_handle accessor.entry in
        let part = whole_part a.document a.json a.json.sparse in
        IsLent (λ b o. F.post get_buffer_data.now b o) a.document (part_view part)
        (λ given. IsRawPart part given (option_map shown result)) }
{
    if accessor.sparse().is_some() {
        return None;
    }
    part_bytes(
        accessor.view()?,
        accessor.offset(),
        accessor.count(),
        accessor.size(),
        get_buffer_data,
    )
}

/// The bytes of a view (glTF 2.0, section 3.6.1, "Buffers and Buffer Views"). None exactly where
/// the closure gives no bytes for its buffer, or the view ends past these.
pub fn view_bytes<'s, F: Fn(Buffer) -> Option<&'s [u8]>>(
    view: View,
    get_buffer_data: &F,
) -> Option<&'s [u8]>
    requires { F.IsAlwaysCallable get_buffer_data.now }
    ensures { let v = view_handle view.entry in
        IsLent (λ b o. F.post get_buffer_data.now b o) v.document (Some v.json)
        (λ given. IsRawView (Some v.json) given (option_copied result)) }
{
    within(ask(view, get_buffer_data)?, view)
}

/// The bytes of an image that stands in a view (glTF 2.0, section 3.8.3, "Images"): those of the
/// view, whether it has a URI as well or not. None where it names no view, and as of [`view_bytes`].
pub fn image_bytes<'s, F: Fn(Buffer) -> Option<&'s [u8]>>(
    image: Image,
    get_buffer_data: &F,
) -> Option<&'s [u8]>
    requires { F.IsAlwaysCallable get_buffer_data.now }
    ensures { let i = image_handle image.entry in
        let view = image_view i.document i.json in
        IsLent (λ b o. F.post get_buffer_data.now b o) i.document view
        (λ given. IsRawView view given (option_copied result)) }
{
    match image.source() {
        Source::View { view, .. } => view_bytes(view, get_buffer_data),
        Source::Uri { .. } => None,
    }
}

/// What the closure gives for a view's buffer.
fn ask<'s, F: Fn(Buffer) -> Option<&'s [u8]>>(view: View, get_buffer_data: &F) -> Option<&'s [u8]>
    requires { F.IsAlwaysCallable get_buffer_data.now }
    ensures { IsAnsweredIn (λ b o. F.post get_buffer_data.now b o) (view_handle view.entry).document
        (Some (view_handle view.entry).json) (option_copied result) }
{
    get_buffer_data(view.buffer())
}

/// The bytes of a view, where it is within those of its buffer.
fn within<'s>(given: &'s [u8], view: View) -> Option<&'s [u8]>
    ensures { let v = (view_handle view.entry).json in
        SomeIff (option_copied result) (ViewFits v given.now) (raw_view v given.now) }
{
    let (offset, length) = (view.offset(), view.length());
    if given.len() < length || given.len() - length < offset {
        return None;
    }
    Some(&given[offset..offset + length])
}

/// The bytes of some items of a view, by one answer of the closure.
pub(crate) fn part_bytes<'s, F: Fn(Buffer) -> Option<&'s [u8]>>(
    view: View,
    offset: usize,
    count: usize,
    size: usize,
    get_buffer_data: &F,
) -> Option<Bytes<'s>>
    requires { F.IsAlwaysCallable get_buffer_data.now }
    ensures { let v = view_handle view.entry in
        let part = Some (part_of v.json offset count size) in
        IsLent (λ b o. F.post get_buffer_data.now b o) v.document (part_view part)
        (λ given. IsRawPart part given (option_map shown result)) }
{
    items(ask(view, get_buffer_data)?, view, offset, count, size)
}

/// The bytes from the first of some items to the end of the last one.
fn span(stride: usize, count: usize, size: usize) -> Option<usize>
    requires { 0 < count }
    ensures { SomeIff result (stride * (count - 1) + size < 2 ^ 64) (stride * (count - 1) + size) }
{
    stride.checked_mul(count - 1)?.checked_add(size)
}

/// Some items of a view, where they are all there and do not overlap.
fn items<'s>(
    given: &'s [u8],
    view: View,
    offset: usize,
    count: usize,
    size: usize,
) -> Option<Bytes<'s>>
    ensures { let part = part_of (view_handle view.entry).json offset count size in
        SomeIff (option_map shown result) (Fits part given.now) (raw_bytes part given.now) }
{
    cut(
        given,
        view,
        offset,
        count,
        view.stride().unwrap_or(size),
        size,
    )
}

/// The bytes of some items of a view, by one answer of the closure. They are so many bytes apart
/// where the view states no distance.
pub(crate) fn spaced_bytes<'s, F: Fn(Buffer) -> Option<&'s [u8]>>(
    view: View,
    offset: usize,
    count: usize,
    size: usize,
    apart: usize,
    get_buffer_data: &F,
) -> Option<Bytes<'s>>
    requires callable { F.IsAlwaysCallable get_buffer_data.now }
    requires some { 0 < apart }
    ensures { let v = view_handle view.entry in
        let part = Some (part_of (spaced apart v.json) offset count size) in
        IsLent (λ b o. F.post get_buffer_data.now b o) v.document (part_view part)
        (λ given. IsRawPart part given (option_map shown result)) }
{
    spaced_items(
        ask(view, get_buffer_data)?,
        view,
        offset,
        count,
        size,
        apart,
    )
}

/// The same of the bytes that were answered.
fn spaced_items<'s>(
    given: &'s [u8],
    view: View,
    offset: usize,
    count: usize,
    size: usize,
    apart: usize,
) -> Option<Bytes<'s>>
    requires { 0 < apart }
    ensures { let part = part_of (spaced apart (view_handle view.entry).json) offset count size in
        SomeIff (option_map shown result) (Fits part given.now) (raw_bytes part given.now) }
{
    cut(
        given,
        view,
        offset,
        count,
        view.stride().unwrap_or(apart),
        size,
    )
}

/// Some items of a view at that distance, where they are all there and do not overlap.
fn cut<'s>(
    given: &'s [u8],
    view: View,
    offset: usize,
    count: usize,
    stride: usize,
    size: usize,
) -> Option<Bytes<'s>>
    ensures { let v = (view_handle view.entry).json in
        SomeIff (option_map shown result) (LiesIn v offset count stride size given.now)
        (bytes_at v offset count stride size given.now) }
{
    if count == 0 || stride < size {
        return None;
    }
    let (start, length) = (view.offset(), view.length());
    if given.len() < length || given.len() - length < start {
        return None;
    }
    let span = span(stride, count, size)?;
    if length < span || length - span < offset {
        return None;
    }
    let first = start + offset;
    Some(Bytes {
        bytes: &given[first..first + span],
        stride,
        count,
    })
}
