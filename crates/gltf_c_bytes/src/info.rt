//! Buffers, accessors and images as structs for C. Where their bytes lie is said by other calls:
//! the member of each struct that C has a pointer at is 0 here, and the header's calls write it.
ghost use Rattle.std.specs.Prelude.{◌≡◌};
ghost use Rattle.gltf_c_bytes.specs.Info.{shown_buffer, buffer_of, shown_accessor, accessor_of};
ghost use Rattle.gltf_c_bytes.specs.Info.{image_of, view_stride_of, sparse_count, view_length};

use crate::place::{or_zero, stride, waits};
use crate::shape::{component_number, is_matrix, item_size, multiplicity, padded_item_size};
use gltf_c_open::file::File;
use gltf_c_scene::numbers::{index_or_none, one_or_zero};
use gltf_json::accessor::Accessor;
use gltf_json::boxed::lent;
use gltf_json::{Index, Root, kinds};

/// What a buffer is (glTF 2.0, section 5.10). C declares the same struct.
#[repr(C)]
#[derive(Clone, Copy, Drop)]
pub struct GltfBuffer {
    /// 0; C has the pointer to the bytes here.
    pub no_bytes: usize,
    /// How many bytes there are: those that the document declares, and zeros up to a multiple of
    /// four.
    pub size: usize,
    /// How many bytes the document declares.
    pub byte_length: usize,
    /// 1 where it waits for its bytes, else 0.
    pub waits: u32,
    /// 0.
    pub reserved_word: u32,
    /// 0.
    pub reserved: [usize; 2],
}

/// What an accessor is (glTF 2.0, section 5.1). C declares the same struct.
#[repr(C)]
#[derive(Clone, Copy, Drop)]
pub struct GltfAccessor {
    /// How many items there are.
    pub count: usize,
    /// The bytes of an item, without padding.
    pub item_size: usize,
    /// The type of a component, by its number in the format.
    pub component_type: u32,
    /// How many components an item has.
    pub components: u32,
    /// 1 of matrices, else 0.
    pub is_matrix: u32,
    /// 1 where whole numbers stand for fractions, else 0.
    pub normalized: u32,
    /// How many items are overridden.
    pub sparse: usize,
    /// The view, or `NONE`.
    pub view: usize,
    /// The bytes of the view before the first item.
    pub byte_offset: usize,
    /// The bytes from one item to the next in the view, with the padding of a matrix.
    pub stride: usize,
    /// 0; C has the pointer to the first item here.
    pub no_data: usize,
    /// 0.
    pub reserved: [usize; 4],
}

/// Where the bytes of an image are (glTF 2.0, section 5.18). C declares the same struct.
#[repr(C)]
#[derive(Clone, Copy, Drop)]
pub struct GltfImage {
    /// The view, or `NONE`.
    pub view: usize,
    /// 0; C has the pointer to the bytes here.
    pub no_bytes: usize,
    /// How many bytes there are; 0 where the image has a URI.
    pub size: usize,
    /// 0.
    pub reserved: [usize; 2],
}

/// What the buffer at an index is.
pub fn buffer(file: &File, index: usize) -> Option<GltfBuffer>
    ensures { result ≡ buffer_of index file.now }
{
    let buffer = file.document.as_json().buffers.get(index)?;
    let data = file.buffers.get(index)?;
    Some(shown_buffer(
        buffer.byte_length as usize,
        data.0.len(),
        waits(file, index),
    ))
}

fn shown_buffer(byte_length: usize, size: usize, waits: bool) -> GltfBuffer
    ensures { result ≡ shown_buffer byte_length size waits }
{
    GltfBuffer {
        no_bytes: 0,
        size,
        byte_length,
        waits: one_or_zero(waits),
        reserved_word: 0,
        reserved: [0; 2],
    }
}

/// What the accessor at an index is.
pub fn accessor(file: &File, index: usize) -> Option<GltfAccessor>
    ensures { result ≡ accessor_of index file.now }
{
    let root = file.document.as_json();
    let accessor = root.accessors.get(index)?;
    Some(shown_accessor(accessor, view_stride(root, accessor)))
}

/// The bytes from one item of an accessor to the next: those that its view states, else those of an
/// item with its padding.
fn view_stride(root: &Root, accessor: &Accessor) -> usize
    ensures { result ≡ view_stride_of root.now accessor.now }
{
    let size = padded_item_size(accessor);
    let Some(index) = accessor.buffer_view else {
        return size;
    };
    match root.buffer_views.get(index.value()) {
        Some(view) => stride(view, size),
        None => size,
    }
}

fn shown_accessor(accessor: &Accessor, stride: usize) -> GltfAccessor
    ensures { result ≡ shown_accessor accessor.now stride }
{
    GltfAccessor {
        count: accessor.count as usize,
        item_size: item_size(accessor),
        component_type: component_number(accessor.component_type),
        components: multiplicity(accessor.type_) as u32,
        is_matrix: one_or_zero(is_matrix(accessor.type_)),
        normalized: one_or_zero(accessor.normalized),
        sparse: sparse_count(accessor),
        view: index_or_none(accessor.buffer_view),
        byte_offset: or_zero(accessor.byte_offset),
        stride,
        no_data: 0,
        reserved: [0; 4],
    }
}

fn sparse_count(accessor: &Accessor) -> usize
    ensures { result ≡ sparse_count accessor.now }
{
    match lent(&accessor.sparse) {
        Some(sparse) => sparse.count as usize,
        None => 0,
    }
}

/// Where the bytes of the image at an index are.
pub fn image(file: &File, index: usize) -> Option<GltfImage>
    ensures { result ≡ image_of index file.now }
{
    let root = file.document.as_json();
    let view = root.images.get(index)?.buffer_view;
    Some(GltfImage {
        view: index_or_none(view),
        no_bytes: 0,
        size: view_length(root, view),
        reserved: [0; 2],
    })
}

/// The bytes of a view, 0 where none is named.
fn view_length(root: &Root, view: Option<Index<kinds::View>>) -> usize
    ensures { result ≡ view_length root.now view }
{
    let Some(index) = view else {
        return 0;
    };
    match root.buffer_views.get(index.value()) {
        Some(view) => view.byte_length as usize,
        None => 0,
    }
}
