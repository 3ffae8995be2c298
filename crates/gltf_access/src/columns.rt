//! Items written one after the other without the padding of their columns.

ghost use Rattle.std.specs.Prelude.{◌≡◌, ◌+◌, ◌*◌, ◌^◌, ◌<◌, ◌≤◌, ◌++◌, length, take, drop, map};
ghost use Rattle.std.specs.List.{concat};
ghost use Rattle.gltf_data.specs.Iter.{counted_items};
ghost use Rattle.gltf_access.specs.Flat.{IsWritten};
ghost use Rattle.gltf_access.specs.Components.{end_size, bare_size, components};

use crate::flat::NotWritten;
use crate::item::ItemBytes;
use crate::layout::Layout;
use gltf_data::accessor::Iter;

/// Writes the components of these items, where there is room for them. Each item is its bytes to the
/// end of its last component.
pub(crate) fn write_bare<const P: usize>(
    items: Iter<'_, ItemBytes<P>>,
    layout: Layout,
    out: &mut [u8],
) -> Result<usize, NotWritten>
    requires small { P ≤ 64 }
    requires ends { end_size layout ≡ P }
    ensures { IsWritten (bare_size layout)
        (Some (map (components layout) (counted_items items.entry).items)) result out.old out.new }
{
    let size = layout.columns * layout.column;
    let Some(total) = items.len().checked_mul(size) else {
        return Err(NotWritten::NoRoom);
    };
    if out.len() < total {
        return Err(NotWritten::NoRoom);
    }
    write_items(items, layout, size, out);
    Ok(total)
}

/// Writes the components of all items one after the other to the front of `out`, so many bytes of
/// each. What follows them stays.
fn write_items<const P: usize>(
    mut items: Iter<'_, ItemBytes<P>>,
    layout: Layout,
    size: usize,
    out: &mut [u8],
)
    requires small { P ≤ 64 }
    requires ends { end_size layout ≡ P }
    requires bare { size ≡ bare_size layout }
    requires room { length (map (components layout) (counted_items items).items) * size
        ≤ length out.old }
    ensures { let all = map (components layout) (counted_items items.entry).items in
        out.new ≡ concat all ++ drop (length all * size) out.old }
{
    let mut at = 0;
    'items: while let Some(item) = items.next() {
        write_item(item, layout, size, at, out);
        at += size;
    }
}

/// Writes the components of an item to a place in `out`.
fn write_item<const P: usize>(
    item: ItemBytes<P>,
    layout: Layout,
    size: usize,
    at: usize,
    out: &mut [u8],
)
    requires small { P ≤ 64 }
    requires ends { end_size layout ≡ P }
    requires bare { size ≡ bare_size layout }
    requires room { at + size ≤ length out.old }
    ensures written { out.new
        ≡ take at out.old ++ components layout item.entry ++ drop (at + size) out.old }
    ensures len { length (components layout item.entry) ≡ size }
    ensures fits { at + size < 2 ^ 64 }
{
    write_columns(&item.bytes, layout, &mut out[at..at + size]);
}

/// Writes the components of an item, column by column. There is room for just these.
fn write_columns(item: &[u8], layout: Layout, out: &mut [u8])
    requires small { length item.now ≤ 64 }
    requires ends { length item.now ≡ end_size layout }
    requires room { length out.old ≡ bare_size layout }
    ensures { out.new ≡ components layout item.now }
{
    for i in 0..layout.columns {
        let from = i * layout.column + i * layout.padding;
        write_column(item, from, layout.column, i * layout.column, out);
    }
}

/// Writes the components of a column of an item to a place in `out`.
fn write_column(item: &[u8], from: usize, size: usize, at: usize, out: &mut [u8])
    requires there { from + size ≤ length item.now }
    requires room { at + size ≤ length out.old }
    ensures { out.new ≡ take at out.old ++ take size (drop from item.now) ++ drop (at + size) out.old }
{
    out[at..at + size].copy_from_slice(&item[from..from + size]);
}
