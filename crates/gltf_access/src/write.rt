//! Items written one after the other.

ghost use Rattle.std.specs.Prelude.{◌≡◌, ◌+◌, ◌*◌, ◌^◌, ◌<◌, ◌≤◌, ◌++◌, length, take, drop};
ghost use Rattle.std.specs.List.{concat};
ghost use Rattle.gltf_data.specs.Iter.{counted_items};

use crate::item::ItemBytes;
use gltf_data::accessor::Iter;

/// Writes all items one after the other to the front of `out`. What follows them stays.
pub(crate) fn write_items<const N: usize>(mut items: Iter<'_, ItemBytes<N>>, out: &mut [u8])
    requires small { N ≤ 64 }
    requires room { length (counted_items items).items * N ≤ length out.old }
    ensures { out.new ≡ concat (counted_items items.entry).items
        ++ drop (length (counted_items items.entry).items * N) out.old }
{
    let mut at = 0;
    'items: while let Some(item) = items.next() {
        write_item(item, at, out);
        at += N;
    }
}

/// Writes the bytes of an item to a place in `out`.
fn write_item<const N: usize>(item: ItemBytes<N>, at: usize, out: &mut [u8])
    requires small { N ≤ 64 }
    requires room { at + N ≤ length out.old }
    ensures written { out.new ≡ take at out.old ++ item.entry ++ drop (at + N) out.old }
    ensures len { length item.entry ≡ N }
    ensures fits { at + N < 2 ^ 64 }
{
    out[at..at + N].copy_from_slice(&item.bytes);
}
