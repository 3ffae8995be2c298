//! Where bytes lie: those of buffers, of views and of the items of accessors.
ghost use Rattle.std.specs.Prelude.{◌≡◌, unwrap_or};
ghost use Rattle.gltf_c_bytes.specs.Places.{buffer_place, waits, placed, view_place, place_of_view};
ghost use Rattle.gltf_c_bytes.specs.Places.{lies_in, accessor_place, place_of_items, stride_of};
ghost use Rattle.gltf_c_bytes.specs.Places.{span_of};

use crate::shape::{is_packed, item_size};
use gltf::buffer::Data;
use gltf_c_open::file::File;
use gltf_json::accessor::Accessor;
use gltf_json::buffer::View;

/// Bytes that lie in a buffer. C declares the same struct.
#[repr(C)]
#[derive(Clone, Copy, Drop)]
pub struct GltfBytes {
    /// The first byte of the buffer.
    pub at: *const u8,
    /// How many bytes of the buffer come before these.
    pub offset: usize,
    /// How many bytes there are.
    pub size: usize,
    /// The bytes from one item to the next; 0 where there are no items.
    pub stride: usize,
}

/// The bytes of the buffer at an index. None where there is no such buffer, or it waits for its
/// bytes.
pub fn buffer(file: &File, index: usize) -> Option<GltfBytes>
    ensures { result ≡ buffer_place index file.now }
{
    if waits(file, index) {
        return None;
    }
    let buffer = file.buffers.get(index)?;
    Some(placed(buffer, 0, buffer.0.len(), 0))
}

/// Whether a buffer waits for its bytes.
pub(crate) fn waits(file: &File, index: usize) -> bool
    ensures { result ≡ waits index file.now }
{
    match file.waiting.get(index) {
        Some(waits) => *waits,
        None => false,
    }
}

/// Bytes of a buffer.
fn placed(buffer: &Data, offset: usize, size: usize, stride: usize) -> GltfBytes
    ensures { result ≡ placed buffer.now offset size stride }
{
    GltfBytes {
        at: buffer.0.as_ptr(),
        offset,
        size,
        stride,
    }
}

/// The bytes of the view at an index. None where there is no such view, or its buffer waits for its
/// bytes, or the view does not lie in these.
pub fn view(file: &File, index: usize) -> Option<GltfBytes>
    ensures { result ≡ view_place index file.now }
{
    let view = file.document.as_json().buffer_views.get(index)?;
    if waits(file, view.buffer.value()) {
        return None;
    }
    of_view(view, file.buffers.get(view.buffer.value())?)
}

fn of_view(view: &View, buffer: &Data) -> Option<GltfBytes>
    ensures { result ≡ place_of_view view.now buffer.now }
{
    let (offset, length) = (or_zero(view.byte_offset), view.byte_length as usize);
    if lies_in(offset, length, buffer.0.len()) {
        Some(placed(buffer, offset, length, 0))
    } else {
        None
    }
}

/// Whether so many bytes lie in so many others, from an offset on.
fn lies_in(offset: usize, length: usize, total: usize) -> bool
    ensures { result ≡ lies_in offset length total }
{
    length <= total && offset <= total - length
}

/// A number, or 0 where it is absent.
pub(crate) fn or_zero(number: Option<u64>) -> usize
    ensures { result ≡ unwrap_or number 0 }
{
    match number {
        Some(number) => number as usize,
        None => 0,
    }
}

/// The bytes of the items of the accessor at an index, from the first one to the end of the last
/// one. None where there is no such accessor, or no view, or it has sparse values, or padding
/// inside its items, or where the items do not lie in the view, or that not in its buffer.
pub fn accessor(file: &File, index: usize) -> Option<GltfBytes>
    ensures { result ≡ accessor_place index file.now }
{
    let root = file.document.as_json();
    let accessor = root.accessors.get(index)?;
    let view = root.buffer_views.get(accessor.buffer_view?.value())?;
    let buffer = file.buffers.get(view.buffer.value())?;
    if accessor.sparse.is_none() && is_packed(accessor) {
        of_items(accessor, view, buffer)
    } else {
        None
    }
}

fn of_items(accessor: &Accessor, view: &View, buffer: &Data) -> Option<GltfBytes>
    ensures { result ≡ place_of_items accessor.now view.now buffer.now }
{
    let stride = stride(view, item_size(accessor));
    let size = span(accessor.count as usize, item_size(accessor), stride)?;
    let (first, offset) = (or_zero(accessor.byte_offset), or_zero(view.byte_offset));
    let length = view.byte_length as usize;
    if lies_in(first, size, length) && lies_in(offset, length, buffer.0.len()) {
        Some(placed(buffer, offset + first, size, stride))
    } else {
        None
    }
}

/// The bytes from one item of a view to the next.
pub(crate) fn stride(view: &View, size: usize) -> usize
    ensures { result ≡ stride_of view.now size }
{
    let stride = or_zero(view.byte_stride);
    if stride == 0 { size } else { stride }
}

/// The bytes from the first of so many items to the end of the last one. None where there is no
/// item, where items overlap, or where there are more bytes than memory can have.
fn span(count: usize, size: usize, stride: usize) -> Option<usize>
    ensures { result ≡ span_of count size stride }
{
    if count == 0 || stride < size {
        return None;
    }
    (count - 1).checked_mul(stride)?.checked_add(size)
}
