//! The front of the stored indices, those that count, and the cursor in it: how many of them are
//! below a position.

ghost use Rattle.std.specs.Prelude.{◌≡◌, ◌≢◌, ℕ, ◌+◌, ◌-◌, ◌<◌, ◌≤◌, length, slice_index, true};
ghost use Rattle.std.specs.Prelude.{false};
ghost use Rattle.gltf_items.specs.Sparse.{front, sparse_item, total, digits};
ghost use Rattle.gltf_items.specs.Cursor.{Rises, Stands};
ghost use Rattle.gltf_items.specs.Stored.{CountsKept};

use crate::item::Item;
use crate::stored::Stored;

/// How many stored indices count: the longest strictly increasing beginning, no longer than the
/// values.
pub(crate) fn front_len<T: Item>(stored: &mut Stored<T>) -> usize
    ensures gives { result ≡ length (front stored.old.indices stored.old.values) }
    ensures counts { stored.new ≡ record stored.old { index_reads = stored.new.index_reads } }
    ensures costs { stored.new.index_reads ≤ stored.old.index_reads + length stored.old.indices }
{
    let most = stored.index_len().min(stored.value_len());
    let mut front = 0;
    let mut least = 0;
    while front < most {
        let index = u64::from(stored.index(front));
        if index < least {
            break;
        }
        front += 1;
        least = index + 1;
    }
    front
}

/// Where the front's indices from the target on begin, sought by halves among those from `from` on.
pub(crate) fn seek<T: Item>(
    stored: &mut Stored<T>,
    from: usize,
    front: usize,
    target: usize,
) -> usize
    requires rises { Rises stored.old.indices front }
    requires within { from ≤ front }
    requires below { (k : ℕ) → k < from → slice_index stored.old.indices k < target }
    ensures stands { Stands stored.old.indices front result target }
    ensures counts { stored.new ≡ record stored.old { index_reads = stored.new.index_reads } }
    ensures costs { stored.new.index_reads ≤ stored.old.index_reads + digits (front - from) }
    ensures kept { stored.old.index_reads ≤ stored.new.index_reads }
{
    let mut low = from;
    let mut high = front;
    while low < high {
        let middle = low + (high - low) / 2;
        if (stored.index(middle) as usize) < target {
            low = middle + 1;
        } else {
            high = middle;
        }
    }
    low
}

/// Whether the position has an index in the front, where the cursor stands at it.
fn is_here<T: Item>(
    stored: &mut Stored<T>,
    front_len: usize,
    cursor: usize,
    position: usize,
) -> bool
    requires { front_len ≤ length stored.old.indices }
    ensures hit { result ≡ true → (cursor < front_len)
        × (slice_index stored.old.indices cursor ≡ position) }
    ensures miss { result ≡ false → cursor < front_len
        → slice_index stored.old.indices cursor ≢ position }
    ensures counts { stored.new ≡ record stored.old { index_reads = stored.new.index_reads } }
    ensures costs { stored.new.index_reads ≤ stored.old.index_reads + 1 }
    ensures kept { stored.old.index_reads ≤ stored.new.index_reads }
{
    cursor < front_len && stored.index(cursor) as usize == position
}

/// The item at a position where the cursor stands, and the cursor after it.
pub(crate) fn item_at<T: Item>(
    stored: &mut Stored<T>,
    front_len: usize,
    cursor: usize,
    position: usize,
) -> (T, usize)
    requires front { front_len ≡ length (front stored.old.indices stored.old.values) }
    requires stands { Stands stored.old.indices front_len cursor position }
    requires within { position < total stored.old.base (position + 1) }
    ensures gives { result.0
        ≡ sparse_item T.zero_item stored.old.base stored.old.indices stored.old.values position }
    ensures stands { Stands stored.old.indices front_len result.1 (position + 1) }
    ensures same { stored.new
        ≡ record stored.old {
          index_reads = stored.new.index_reads;
          base_reads = stored.new.base_reads;
          value_reads = stored.new.value_reads;
        } }
    ensures indices { stored.new.index_reads ≤ stored.old.index_reads + 1 }
    ensures base { stored.new.base_reads ≤ stored.old.base_reads + 1 }
    ensures values { stored.new.value_reads ≤ stored.old.value_reads + 1 }
    ensures kept { CountsKept stored.old stored.new }
{
    if is_here(stored, front_len, cursor, position) {
        (stored.value(cursor), cursor + 1)
    } else {
        (stored.base_item(position), cursor)
    }
}
