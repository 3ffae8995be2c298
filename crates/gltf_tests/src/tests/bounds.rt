//! Each generic impl at a type of its own, through its bound.

use crate::tests::callers::{counted_next, counted_nth, item_at};
use crate::tests::own::{Huge, Swapped};
use gltf_items::{Count, F32, Item, ItemIter, SparseIndicesIter, SparseIter, laws};
use std::fmt;
use std::test::Fail;

fn sizes<T: Item>() -> usize {
    T::size()
}

fn printed(rt: &impl AllocGlobal, value: &impl fmt::Debug) -> Result<String, Fail> {
    Ok(format!(in rt.alloc(); "{value:?}")?)
}

#[test]
fn a_size_is_in_bytes(rt: HostRuntime) {
    let found = [
        sizes::<i8>(),
        sizes::<u8>(),
        sizes::<i16>(),
        sizes::<u16>(),
        sizes::<u32>(),
        sizes::<F32>(),
        sizes::<[u16; 2]>(),
        sizes::<[F32; 3]>(),
        sizes::<[i8; 4]>(),
        sizes::<[[F32; 4]; 4]>(),
        sizes::<Swapped>(),
    ];
    assert_eq!(rt; found, [1, 1, 2, 2, 4, 4, 4, 12, 4, 64, 2]);
}

#[test]
fn a_size_that_does_not_fit_is_the_greatest(rt: HostRuntime) {
    assert_eq!(rt; sizes::<Huge>(), 1 << 62);
    assert_eq!(rt; sizes::<[Huge; 2]>(), 1 << 63);
    assert_eq!(rt; sizes::<[Huge; 4]>(), usize::MAX);
    assert_eq!(rt; sizes::<[[Huge; 3]; 4]>(), usize::MAX);
}

#[test]
fn items_of_each_type_come_through_the_bound(rt: HostRuntime) {
    let bytes = [1, 2, 3, 4, 5, 6, 7, 8, 9, 10, 11, 12, 13, 14, 15, 16];
    assert_eq!(rt; item_at::<i8>(&bytes, 15), Some(16));
    assert_eq!(rt; item_at::<u8>(&bytes, 16), None);
    assert_eq!(rt; item_at::<i16>(&bytes, 1), Some(0x0403));
    assert_eq!(rt; item_at::<u16>(&bytes, 7), Some(0x100f));
    assert_eq!(rt; item_at::<u32>(&bytes, 3), Some(0x100f_0e0d));
    assert_eq!(rt;
        item_at::<F32>(&bytes, 1),
        Some(F32::from_bytes([5, 6, 7, 8]))
    );
    assert_eq!(rt; item_at::<[u16; 2]>(&bytes, 1), Some([0x0605, 0x0807]));
    assert_eq!(rt; item_at::<[u8; 3]>(&bytes, 4), Some([13, 14, 15]));
    assert_eq!(rt; item_at::<[i8; 4]>(&bytes, 3), Some([13, 14, 15, 16]));
}

#[test]
fn an_item_of_a_callers_own(rt: HostRuntime) {
    let swapped = Swapped {
        first: 4,
        second: 3,
    };
    assert_eq!(rt; item_at::<Swapped>(&[1, 2, 3, 4, 5], 1), Some(swapped));
    assert_eq!(rt; item_at::<Swapped>(&[1, 2, 3, 4, 5], 2), None);
    assert_eq!(rt;
        item_at::<[Swapped; 2]>(&[0, 0, 3, 4], 0),
        Some([Swapped::zero(), swapped])
    );
}

fn total<I: Iterator<Item = u32> + Drop>(items: I) -> u32
    requires can { I.can_next items }
{
    items
        .take(4)
        .fold(0, |sum: u32, item| sum.wrapping_add(item))
}

fn indices() -> SparseIndicesIter<'static> {
    SparseIndicesIter::U8(ItemIter::new(&[0, 2], 1))
}

fn sparse() -> SparseIter<'static, u32> {
    SparseIter::with_base_count(
        None,
        3,
        indices(),
        ItemIter::new(&[1, 0, 0, 0, 2, 0, 0, 0], 4),
    )
}

#[test]
fn each_iterator_is_one_through_the_bound(rt: HostRuntime) {
    assert_eq!(rt;
        total(ItemIter::<u32>::new(&[1, 0, 0, 0, 4, 0, 0, 0], 4)),
        5
    );
    assert_eq!(rt; total(indices()), 2);
    assert_eq!(rt; total(sparse()), 3);
}

fn copy_of<T: Clone>(value: &T) -> Option<T> {
    value.clone().ok()
}

#[test]
fn a_clone_goes_on_by_itself(rt: HostRuntime) {
    let mut items = sparse();
    assert_eq!(rt; items.next(), Some(1));
    let copy = copy_of(&items);
    assert_eq!(rt; items.next(), Some(0));
    assert_eq!(rt; copy.map(|copy| copy.count()), Some(2));
    let mut left = indices();
    assert_eq!(rt; left.next(), Some(0));
    assert_eq!(rt; copy_of(&left).and_then(|left| left.last()), Some(2));
    let plain = ItemIter::<u8>::new(&[7], 1);
    let same = plain;
    assert_eq!(rt; copy_of(&plain).and_then(|plain| plain.last()), same.last());
}

#[test]
fn counts_take_no_bytes(rt: HostRuntime) {
    assert_eq!(rt; size_of::<Count>(), 0);
    let mut items = sparse();
    let (item, _) = counted_next(&mut items);
    assert_eq!(rt; item, Some(1));
    let (item, _) = counted_nth(&mut items, 1);
    assert_eq!(rt; item, Some(2));
}

#[test]
fn debug_forms(rt: HostRuntime) -> Result<(), Fail> {
    let number = F32::from_bytes([1, 2, 3, 4]);
    assert_eq!(rt;
        printed(&rt, &number)?.as_str(),
        "F32 { bytes: [1, 2, 3, 4] }"
    );
    let plain = printed(&rt, &ItemIter::<u8>::new(&[7], 1))?;
    assert!(rt;
        plain
            .as_str()
            .starts_with("ItemIter { bytes: [7], stride: 1"),
        "{plain}"
    );
    let narrow = printed(&rt, &indices())?;
    assert!(rt;
        narrow.as_str().starts_with("U8(ItemIter { bytes: [0, 2]"),
        "{narrow}"
    );
    let replaced = printed(&rt, &sparse())?;
    assert!(rt;
        replaced.as_str().starts_with("SparseIter { "),
        "{replaced}"
    );
    Ok(())
}

#[test]
fn laws_hold_of_every_item(rt: HostRuntime) {
    laws::nth_is_next::<u8>();
    laws::plain_by_position::<[F32; 3]>();
    laws::front_is_longest::<Swapped>();
    laws::sparse_by_position::<u32>();
    let number = F32::from_bytes([1, 2, 3, 4]);
    assert!(rt; laws::f32_equality(number, number));
}
