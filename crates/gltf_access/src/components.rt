//! The bytes of the components of all items, without the padding of small matrices.

ghost use Rattle.std.specs.Prelude.{◌≡◌, ◌<◌, ◌≤◌, ◌++◌, length, drop, map, replicate};
ghost use Rattle.std.specs.Option.{option_map};
ghost use Rattle.gltf_data.specs.Iter.{counted_items};
ghost use Rattle.gltf_handles.specs.Accessors.{accessor_handle};
ghost use Rattle.gltf_access.specs.Flat.{IsWritten};
ghost use Rattle.gltf_access.specs.Components.{end_size, padded_size, AreComponentsIn};
ghost use Rattle.gltf_access.specs.Components.{bare_size, components};
ghost use Rattle.gltf_access.specs.Components.{is_zeros, zeros};
ghost use Rattle.gltf_access.specs.Taken.{AreBareIn, IsPadded};

use crate::columns::write_bare;
use crate::flat::{NotWritten, write_bytes};
use crate::item::ItemBytes;
use crate::layout::{Layout, layout_of, padded_size};
use crate::parts::read;
use gltf_data::accessor::{Accessor, Iter};
use gltf_data::buffer::Buffer;

/// Writes the bytes of the components of all items to the front of `out`, item after item, those
/// of a matrix column by column, and returns how many bytes that are: `accessor.count() *
/// accessor.size()`. It skips the padding that the standard has in small matrices: each column
/// begins at a multiple of four bytes, so there are bytes behind the columns of a MAT2 of one-byte
/// components, and of a MAT3 of one- or two-byte components (glTF 2.0, section 3.6.2.4, "Data
/// Alignment"). Behind the last column of the last item none are needed. The values of a sparse
/// part have the same layout (section 3.6.2.3). Where there is no view the items are zeros, and
/// those of the sparse part over these (section 5.1.1).
///
/// Unreadable exactly where there are no items, or a part of the accessor is not there: where the
/// closure gives no bytes for its buffer, its view ends past these, its count is 0, its items are
/// less apart than the bytes from their first component to their last, or the last of them ends
/// past the view. Of items without padding it writes what [`write_bytes`] does, but zeros where
/// there is neither a view nor a sparse part. What follows the bytes in `out` stays; where nothing
/// is written, all of it stays. It takes no memory.
pub fn write_components<'s, F: Fn(Buffer) -> Option<&'s [u8]>>(
    accessor: Accessor,
    get_buffer_data: &F,
    out: &mut [u8],
) -> Result<usize, NotWritten>
    requires { F.IsAlwaysCallable get_buffer_data.now }
    ensures { let a = accessor_handle accessor.entry in
        AreComponentsIn (λ b o. F.post get_buffer_data.now b o) a.document a.json result out.old
        out.new }
{
    let component = accessor.data_type().size();
    let shape = accessor.dimensions();
    if is_zeros(accessor) {
        return write_zeros(accessor.count(), accessor.size(), out);
    }
    let layout = layout_of(component, shape);
    let padding = layout.padding;
    if padding == 0 {
        return write_bytes(accessor, get_buffer_data, out);
    }
    let apart = padded_size(component, shape);
    write_matrices(apart, layout, accessor, get_buffer_data, out)
}

/// Whether all items are zeros, since there is neither a view nor a sparse part.
fn is_zeros(accessor: Accessor) -> bool
    ensures { let a = accessor_handle accessor.entry in result ≡ is_zeros a.document a.json }
{
    if accessor.view().is_some() {
        return false;
    }
    accessor.sparse().is_none()
}

/// Writes so many items of zeros.
fn write_zeros(count: usize, size: usize, out: &mut [u8]) -> Result<usize, NotWritten>
    ensures { IsWritten size (zeros count size) result out.old out.new }
{
    if count == 0 {
        return Err(NotWritten::Unreadable);
    }
    let Some(total) = count.checked_mul(size) else {
        return Err(NotWritten::NoRoom);
    };
    if out.len() < total {
        return Err(NotWritten::NoRoom);
    }
    clear(total, out);
    Ok(total)
}

/// Writes so many zeros.
fn clear(total: usize, out: &mut [u8])
    requires { total ≤ length out.old }
    ensures { out.new ≡ replicate total 0 ++ drop total out.old }
{
    for i in 0..total {
        out[i] = 0;
    }
}

/// Writes the items of an accessor that has a view or a sparse part, which are so many bytes apart
/// where a view states no distance.
fn write_matrices<'s, F: Fn(Buffer) -> Option<&'s [u8]>>(
    apart: usize,
    layout: Layout,
    accessor: Accessor,
    get_buffer_data: &F,
    out: &mut [u8],
) -> Result<usize, NotWritten>
    requires callable { F.IsAlwaysCallable get_buffer_data.now }
    requires same { apart ≡ padded_size layout }
    requires padded { IsPadded layout }
    ensures { let a = accessor_handle accessor.entry in
        AreBareIn (λ b o. F.post get_buffer_data.now b o) layout a.document a.json result out.old
        out.new }
{
    // Behind the last column no padding is needed.
    let size = apart - layout.padding;
    if size == 6 {
        let sixes = read::<ItemBytes<6>, F>(accessor, apart, get_buffer_data);
        return write_padded(sixes, layout, out);
    }
    if size == 11 {
        let elevens = read::<ItemBytes<11>, F>(accessor, apart, get_buffer_data);
        return write_padded(elevens, layout, out);
    }
    let others = read::<ItemBytes<22>, F>(accessor, apart, get_buffer_data);
    write_padded(others, layout, out)
}

/// Writes the components of these items, where there are items and room for them.
fn write_padded<const P: usize>(
    items: Option<Iter<'_, ItemBytes<P>>>,
    layout: Layout,
    out: &mut [u8],
) -> Result<usize, NotWritten>
    requires small { P ≤ 64 }
    requires ends { end_size layout ≡ P }
    ensures { IsWritten (bare_size layout)
        (option_map (λ it. map (components layout) (counted_items it).items) items.entry) result
        out.old out.new }
{
    match items {
        Some(items) => write_bare(items, layout, out),
        None => Err(NotWritten::Unreadable),
    }
}
