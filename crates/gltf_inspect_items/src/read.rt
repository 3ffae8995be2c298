//! The items of accessors, where they can be read.
ghost use Rattle.std.specs.Prelude.{◌≡◌, slice_get};
ghost use Rattle.std.specs.Iterator.{YieldsFirst};
ghost use Rattle.std.specs.Option.{option_copied};
ghost use Rattle.gltf_handles.specs.Buffers.{buffer_handle};
ghost use Rattle.gltf_data.specs.Iter.{counted_items};
ghost use Rattle.gltf_shared.specs.Shown.{lent_bytes};
ghost use Rattle.gltf_inspect_items.specs.Reading.{items_at, items_left};

use gltf::Document;
use gltf::accessor::{Item, Iter};
use gltf::buffer::Buffer;

/// The bytes of a buffer, among those of all, by index; None where there are not so many.
fn bytes_of<'s>(buffers: &[&'s [u8]], buffer: Buffer) -> Option<&'s [u8]>
    ensures { option_copied result ≡ slice_get (lent_bytes buffers.entry.now)
        (buffer_handle buffer.entry).index }
{
    let bytes = buffers.get(buffer.index())?;
    Some(*bytes)
}

/// The items of the accessor at an index, where it can be read over these buffers. None also where
/// there is no such accessor. There are at most as many as its view has bytes; of a sparse one
/// without a view as many as it counts, of which the most are zero: see `members_at`.
pub fn items_at<'s, T: Item>(
    document: &Document,
    buffers: &[&'s [u8]],
    index: usize,
) -> Option<Iter<'s, T>>
    ensures { items_left result
        ≡ items_at ⟦<T as Item>⟧ document.now (slice_get (lent_bytes buffers.now)) index }
{
    let accessor = document.accessors().nth(index)?;
    match Iter::try_new(accessor, &|buffer: Buffer| bytes_of(buffers, buffer)) {
        Ok(items) => Some(items),
        Err(_) => None,
    }
}

/// The next item.
pub fn take<T: Item>(items: &mut Iter<'_, T>) -> Option<T>
    ensures { YieldsFirst (λ s. (counted_items s).items) items.old result items.new }
{
    items.next()
}
