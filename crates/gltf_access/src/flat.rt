//! The bytes of all items of an accessor, one item after the other.

ghost use Rattle.std.specs.Prelude.{◌≡◌, ◌*◌, ◌≤◌, IfOk, option_map};
ghost use Rattle.std.specs.Option.{option_copied};
ghost use Rattle.gltf_data.specs.Answers.{Reads, ReadsAlike};
ghost use Rattle.gltf_data.specs.Iter.{counted_items};
ghost use Rattle.gltf_handles.specs.Accessors.{accessor_handle};
ghost use Rattle.gltf_handles.specs.Sizes.{component_size, item_size, multiplicity};
ghost use Rattle.gltf_access.specs.Flat.{IsFlat, IsFlatIn, IsWritten};

use crate::item::ItemBytes;
use crate::packed::{is_packed, packed_bytes, write_packed};
use crate::write::write_items;
use gltf_data::accessor::{Accessor, DataType, Dimensions, Item, Iter};
use gltf_data::buffer::Buffer;
use std::alloc::{AllocError, Global};
use std::fmt;

/// Why the items of an accessor were not written: the first of these that is so.
#[derive(Clone, Copy, Debug, PartialEq, Eq)]
pub enum NotWritten {
    /// The accessor cannot be read as items of its own size.
    Unreadable,
    /// The items have more bytes than there is room for.
    NoRoom,
}

impl fmt::Display for NotWritten {
    ghost use Rattle.std.specs.Prelude.{Some};
    ghost use Rattle.gltf_access.specs.Texts.{not_written_text};

    ghost output = { λ reason. Some (not_written_text reason) };

    fn fmt<W: fmt::Write>(&self, f: &mut fmt::Formatter<W>) -> fmt::Result {
        match self {
            NotWritten::Unreadable => write!(f, "the accessor cannot be read"),
            NotWritten::NoRoom => write!(f, "the items have more bytes than there is room for"),
        }
    }
}

impl std::error::Error for NotWritten {}

/// The bytes of all items of an accessor one after the other, without padding between items, and
/// with the values of its sparse part in their places (glTF 2.0, section 3.6.2, "Accessors"). None
/// exactly where the accessor cannot be read as items of its own size, as [`Iter::new`] says: so
/// also where it has no items, or neither a view nor a sparse part. The closure gives the bytes of
/// buffers.
///
/// There are `accessor.count() * accessor.size()` of them. A sparse accessor without a view may
/// have any count, whatever the size of the file: ask before you make room.
pub fn to_bytes<'s, F: Fn(Buffer) -> Option<&'s [u8]>>(
    alloc: Global,
    accessor: Accessor,
    get_buffer_data: &F,
) -> Result<Option<Vec<u8>>, AllocError>
    requires { F.IsAlwaysCallable get_buffer_data.now }
    ensures { let a = accessor_handle accessor.entry in
        IfOk result (λ flat. IsFlat (λ b o. F.post get_buffer_data.now b o) (item_size a.json)
        a.document a.json (option_map (λ bytes. bytes.items) flat)) }
{
    // The bytes of packed items are those of the view: one copy of these is all.
    if is_packed(accessor) {
        return copy(alloc, packed_bytes(accessor, get_buffer_data));
    }
    if write_bytes(accessor, get_buffer_data, &mut []) == Err(NotWritten::Unreadable) {
        return Ok(None);
    }
    let Some(size) = accessor.count().checked_mul(accessor.size()) else {
        return Err(AllocError);
    };
    let mut bytes = Vec::new(alloc);
    bytes.resize(size, 0)?;
    match write_bytes(accessor, get_buffer_data, &mut bytes) {
        Ok(_) => Ok(Some(bytes)),
        Err(_) => Ok(None),
    }
}

/// A copy of these bytes, where there are any.
fn copy(alloc: Global, bytes: Option<&[u8]>) -> Result<Option<Vec<u8>>, AllocError>
    ensures { IfOk result (λ copied. option_map (λ bytes. bytes.items) copied
        ≡ option_copied bytes.entry) }
{
    match bytes {
        Some(bytes) => Ok(Some(Vec::from_slice(alloc, bytes)?)),
        None => Ok(None),
    }
}

/// Writes what [`to_bytes`] gives to the front of `out`, and returns how many bytes that are. What
/// follows them stays; where nothing is written, all of `out` stays. It takes no memory.
pub fn write_bytes<'s, F: Fn(Buffer) -> Option<&'s [u8]>>(
    accessor: Accessor,
    get_buffer_data: &F,
    out: &mut [u8],
) -> Result<usize, NotWritten>
    requires { F.IsAlwaysCallable get_buffer_data.now }
    ensures { let a = accessor_handle accessor.entry in
        IsFlatIn (λ b o. F.post get_buffer_data.now b o) (item_size a.json) a.document a.json
        result out.old out.new }
{
    // The bytes of packed items are those of the view: one copy of these writes all items.
    if is_packed(accessor) {
        return write_packed(packed_bytes(accessor, get_buffer_data), out);
    }
    of_type(
        accessor.data_type(),
        accessor.dimensions(),
        accessor,
        get_buffer_data,
        out,
    )
}

/// The same where an item is made of such components in such a shape.
fn of_type<'s, F: Fn(Buffer) -> Option<&'s [u8]>>(
    component: DataType,
    shape: Dimensions,
    accessor: Accessor,
    get_buffer_data: &F,
    out: &mut [u8],
) -> Result<usize, NotWritten>
    requires { F.IsAlwaysCallable get_buffer_data.now }
    ensures { let a = accessor_handle accessor.entry in
        IsFlatIn (λ b o. F.post get_buffer_data.now b o)
        (component_size component * multiplicity shape) a.document a.json result out.old out.new }
{
    match component {
        DataType::I8 => of_bytes(shape, accessor, get_buffer_data, out),
        DataType::U8 => of_bytes(shape, accessor, get_buffer_data, out),
        DataType::I16 => of_halves(shape, accessor, get_buffer_data, out),
        DataType::U16 => of_halves(shape, accessor, get_buffer_data, out),
        DataType::U32 => of_words(shape, accessor, get_buffer_data, out),
        DataType::F32 => of_words(shape, accessor, get_buffer_data, out),
    }
}

/// The same where a component has one byte.
fn of_bytes<'s, F: Fn(Buffer) -> Option<&'s [u8]>>(
    shape: Dimensions,
    accessor: Accessor,
    get_buffer_data: &F,
    out: &mut [u8],
) -> Result<usize, NotWritten>
    requires { F.IsAlwaysCallable get_buffer_data.now }
    ensures { let a = accessor_handle accessor.entry in
        IsFlatIn (λ b o. F.post get_buffer_data.now b o) (1 * multiplicity shape) a.document
        a.json result out.old out.new }
{
    match shape {
        Dimensions::Scalar => write::<1>(read::<ItemBytes<1>, F>(accessor, get_buffer_data), out),
        Dimensions::Vec2 => write::<2>(read::<ItemBytes<2>, F>(accessor, get_buffer_data), out),
        Dimensions::Vec3 => write::<3>(read::<ItemBytes<3>, F>(accessor, get_buffer_data), out),
        Dimensions::Vec4 => write::<4>(read::<ItemBytes<4>, F>(accessor, get_buffer_data), out),
        Dimensions::Mat2 => write::<4>(read::<ItemBytes<4>, F>(accessor, get_buffer_data), out),
        Dimensions::Mat3 => write::<9>(read::<ItemBytes<9>, F>(accessor, get_buffer_data), out),
        Dimensions::Mat4 => write::<16>(read::<ItemBytes<16>, F>(accessor, get_buffer_data), out),
    }
}

/// The same where a component has two bytes.
fn of_halves<'s, F: Fn(Buffer) -> Option<&'s [u8]>>(
    shape: Dimensions,
    accessor: Accessor,
    get_buffer_data: &F,
    out: &mut [u8],
) -> Result<usize, NotWritten>
    requires { F.IsAlwaysCallable get_buffer_data.now }
    ensures { let a = accessor_handle accessor.entry in
        IsFlatIn (λ b o. F.post get_buffer_data.now b o) (2 * multiplicity shape) a.document
        a.json result out.old out.new }
{
    match shape {
        Dimensions::Scalar => write::<2>(read::<ItemBytes<2>, F>(accessor, get_buffer_data), out),
        Dimensions::Vec2 => write::<4>(read::<ItemBytes<4>, F>(accessor, get_buffer_data), out),
        Dimensions::Vec3 => write::<6>(read::<ItemBytes<6>, F>(accessor, get_buffer_data), out),
        Dimensions::Vec4 => write::<8>(read::<ItemBytes<8>, F>(accessor, get_buffer_data), out),
        Dimensions::Mat2 => write::<8>(read::<ItemBytes<8>, F>(accessor, get_buffer_data), out),
        Dimensions::Mat3 => write::<18>(read::<ItemBytes<18>, F>(accessor, get_buffer_data), out),
        Dimensions::Mat4 => write::<32>(read::<ItemBytes<32>, F>(accessor, get_buffer_data), out),
    }
}

/// The same where a component has four bytes.
fn of_words<'s, F: Fn(Buffer) -> Option<&'s [u8]>>(
    shape: Dimensions,
    accessor: Accessor,
    get_buffer_data: &F,
    out: &mut [u8],
) -> Result<usize, NotWritten>
    requires { F.IsAlwaysCallable get_buffer_data.now }
    ensures { let a = accessor_handle accessor.entry in
        IsFlatIn (λ b o. F.post get_buffer_data.now b o) (4 * multiplicity shape) a.document
        a.json result out.old out.new }
{
    match shape {
        Dimensions::Scalar => write::<4>(read::<ItemBytes<4>, F>(accessor, get_buffer_data), out),
        Dimensions::Vec2 => write::<8>(read::<ItemBytes<8>, F>(accessor, get_buffer_data), out),
        Dimensions::Vec3 => write::<12>(read::<ItemBytes<12>, F>(accessor, get_buffer_data), out),
        Dimensions::Vec4 => write::<16>(read::<ItemBytes<16>, F>(accessor, get_buffer_data), out),
        Dimensions::Mat2 => write::<16>(read::<ItemBytes<16>, F>(accessor, get_buffer_data), out),
        Dimensions::Mat3 => write::<36>(read::<ItemBytes<36>, F>(accessor, get_buffer_data), out),
        Dimensions::Mat4 => write::<64>(read::<ItemBytes<64>, F>(accessor, get_buffer_data), out),
    }
}

/// The items of an accessor.
fn read<'s, T: Item, F: Fn(Buffer) -> Option<&'s [u8]>>(
    accessor: Accessor,
    get_buffer_data: &F,
) -> Option<Iter<'s, T>>
    requires { F.IsAlwaysCallable get_buffer_data.now }
    ensures items { Reads (λ b o. F.post get_buffer_data.now b o) ⟦<T as Item>⟧
        (accessor_handle accessor.entry).document (accessor_handle accessor.entry).json
        (option_map (λ it. (counted_items it).items) result) }
    ensures alike { ReadsAlike (λ b o. F.post get_buffer_data.now b o) ⟦<T as Item>⟧
        (accessor_handle accessor.entry).document (accessor_handle accessor.entry).json
        (option_map (λ it. (counted_items it).items) result) }
{
    Iter::new(accessor, get_buffer_data)
}

/// The bytes of these items, where there are items and room for them.
fn write<const N: usize>(
    items: Option<Iter<'_, ItemBytes<N>>>,
    out: &mut [u8],
) -> Result<usize, NotWritten>
    requires small { N ≤ 64 }
    ensures { IsWritten N (option_map (λ it. (counted_items it).items) items.entry) result out.old
        out.new }
{
    let Some(items) = items else {
        return Err(NotWritten::Unreadable);
    };
    match items.len().checked_mul(N) {
        Some(size) if size <= out.len() => {
            write_items(items, out);
            Ok(size)
        }
        _ => Err(NotWritten::NoRoom),
    }
}
