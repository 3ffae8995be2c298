//! Functions over items of any type, proved from the contracts of the crate of items alone.

ghost use Rattle.std.specs.Prelude.{◌≡◌, ℕ, ◌+◌, ◌-◌, ◌^◌, ◌<◌, ◌≤◌, length, drop, slice_get};
ghost use Rattle.gltf_items.specs.Plain.{plain};
ghost use Rattle.gltf_items.specs.Sparse.{digits};

use gltf_items::{Count, Item, ItemIter, SparseIter};

/// The item at a place among items that stand one after the other.
pub fn item_at<T: Item>(bytes: &[u8], place: usize) -> Option<T>
    requires { T.size < 2 ^ 64 - 1 }
    ensures { result ≡ slice_get (plain T.size T.value bytes.now T.size) place }
{
    let mut items = ItemIter::new(bytes, T::size());
    items.nth(place)
}

/// A jump, and how many stored indices it read: as many as their number has binary digits, and one
/// more, at most.
pub fn counted_nth<T: Item>(items: &mut SparseIter<T>, n: usize) -> (Option<T>, Count)
    ensures item { result.0 ≡ slice_get items.old.items n }
    ensures left { items.new.items ≡ drop (n + 1) items.old.items }
    ensures reads { result.1 ≤ digits items.old.stored + 1 }
{
    let before = items.index_reads();
    let item = items.nth(n);
    (item, items.index_reads().since(&before))
}

/// One step, which reads one stored index at most.
pub fn counted_next<T: Item>(items: &mut SparseIter<T>) -> (Option<T>, Count)
    ensures item { result.0 ≡ slice_get items.old.items 0 }
    ensures left { items.new.items ≡ drop 1 items.old.items }
    ensures reads { result.1 ≤ 1 }
{
    let before = items.index_reads();
    let item = items.next();
    (item, items.index_reads().since(&before))
}
