//! Iterators over items, and those that cast them, from either end and by their traits.
ghost use Rattle.std.specs.Iterator.{IsFinite};

use gltf_casting::mesh::util::{ReadIndices, indices};
use gltf_data::accessor::{F32, Item, ItemIter, Iter, SparseIndicesIter, SparseIter};

/// Bytes with values in place of some of them.
fn sparse<'s>(base: &'s [u8], indices: &'s [u8], values: &'s [u8]) -> SparseIter<'s, u8> {
    SparseIter::new(
        Some(ItemIter::new(base, 1)),
        SparseIndicesIter::U8(ItemIter::new(indices, 1)),
        ItemIter::new(values, 1),
    )
}

#[test]
fn sparse_items_are_taken_from_either_end(rt: HostRuntime) {
    let mut items = sparse(&[10, 20, 30, 40], &[1, 3], &[7, 9]);
    assert_eq!(rt; items.size_hint(), (4, Some(4)));
    assert_eq!(rt; items.nth(0), Some(10));
    assert_eq!(rt; items.take_last(), Some(9));
    assert_eq!(rt; items.len(), 0);
    assert_eq!(rt; items.take_last(), None);
    let items = sparse(&[10, 20, 30, 40], &[1, 3], &[7, 9]);
    assert_eq!(rt; items.last(), Some(9));
}

/// The indices 10, 7, 30 and 9 of two bytes, of which two stand in place of others, as numbers of
/// four bytes.
fn cast() -> indices::CastingIter<'static, indices::U32> {
    let items = SparseIter::new(
        Some(ItemIter::new(&[10, 0, 20, 0, 30, 0, 40, 0], 2)),
        SparseIndicesIter::U8(ItemIter::new(&[1, 3], 1)),
        ItemIter::new(&[7, 0, 9, 0], 2),
    );
    ReadIndices::U16(Iter::Sparse(items)).into_u32()
}

#[test]
fn cast_items_are_taken_from_either_end(rt: HostRuntime) {
    let mut items = cast();
    assert_eq!(rt; (items.next(), items.nth(1)), (Some(10), Some(30)));
    assert_eq!(rt; (items.take_last(), items.len()), (Some(9), 0));
    assert_eq!(rt; (items.take_last(), items.next()), (None, None));
}

/// The last item, by the trait alone.
fn last_by_next<I: Iterator>(items: I) -> Option<I::Item>
where
    I::Item: Drop,
    requires can { I.can_next items }
    requires ends { IsFinite (I.remaining items) }
{
    let mut last = None;
    for item in items {
        last = Some(item);
    }
    last
}

/// The last item, by value and in place, and the count.
fn ends_of<T: Item>(items: Iter<T>) -> (Option<T>, Option<T>, usize) {
    let Ok(again) = items.clone() else {
        return (None, None, 0);
    };
    let Ok(mut third) = items.clone() else {
        return (None, None, 0);
    };
    (items.last(), third.take_last(), again.count())
}

#[test]
fn items_of_an_accessor_come_through_the_bound_of_iterators(rt: HostRuntime) {
    let base = [10, 20, 30, 40];
    let items = Iter::Sparse(sparse(&base, &[1, 3], &[7, 9]));
    assert_eq!(rt; items.size_hint(), (4, Some(4)));
    assert_eq!(rt; last_by_next(items), Some(9));
    let items = Iter::Sparse(sparse(&base, &[3], &[7]));
    assert_eq!(rt; ends_of::<u8>(items), (Some(7), Some(7), 4));
}

#[test]
fn numbers_of_single_precision_are_equal_where_their_bytes_are(rt: HostRuntime) {
    let not_a_number = F32::from_bytes([0, 0, 192, 127]);
    let zero = F32::from_bytes([0, 0, 0, 0]);
    let minus_zero = F32::from_bytes([0, 0, 0, 128]);
    assert_eq!(rt; not_a_number, not_a_number);
    assert!(rt; zero != minus_zero);
    assert_eq!(rt; F32::zero(), zero);
    assert_eq!(rt; not_a_number.to_bytes(), [0, 0, 192, 127]);
}
