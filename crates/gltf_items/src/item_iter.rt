//! Items at the steps of a stride.

ghost use Rattle.std.specs.Prelude.{◌≡◌, ◌+◌, ◌-◌, ◌*◌, ◌^◌, ◌<◌, ◌≤◌, ⊤, length, drop, slice_get};

use crate::item::Item;
use std::alloc::AllocError;
use std::marker::PhantomData;

/// The items that stand in bytes, one at each multiple of a stride (glTF 2.0, 3.6.2.4 "Data
/// Alignment").
#[derive_where(Debug)]
pub struct ItemIter<'a, T: Item> {
    bytes: &'a [u8],
    stride: usize,
    marker: PhantomData<T>,
    /// An item has fewer bytes than the greatest `usize`.
    pub ghost fits: { T.size < 2 ^ 64 - 1 },
    /// Items do not overlap.
    pub ghost apart: { T.size ≤ stride },
}

/// What follows the first bytes, or nothing where there are no more.
fn behind(bytes: &[u8], count: usize) -> &[u8]
    ensures { result.now ≡ drop count bytes.now }
{
    if bytes.len() < count {
        &[]
    } else {
        &bytes[count..]
    }
}

impl<'a, T: Item> Copy for ItemIter<'a, T> {}

impl<'a, T: Item> Clone for ItemIter<'a, T> {
    ghost is_clone = { λ x y. y ≡ x };

    ghost is_infallible = { λ _. ⊤ };

    fn clone(&self) -> Result<Self, AllocError> {
        Ok(*self)
    }
}

impl<'a, T: Item> ItemIter<'a, T> {
    ghost use Rattle.gltf_items.specs.Plain.{plain};
    ghost use Rattle.gltf_items.specs.ItemIter.{items_left};

    /// The items of a slice: item i stands in the bytes from i strides on, for each i whose bytes
    /// are all there. The stride is in bytes and at least the size of an item; the last item need
    /// not be followed by a whole stride.
    pub fn new(slice: &'a [u8], stride: usize) -> Self
        requires fits { T.size < usize.MAX }
        requires apart { T.size ≤ stride }
        ensures { items_left result ≡ plain T.size T.value slice.entry.now stride }
    {
        ItemIter {
            bytes: slice,
            stride,
            marker: PhantomData,
        }
    }

    /// How many items are left.
    pub fn len(&self) -> usize
        ensures { result ≡ length (items_left self.now) }
    {
        let bytes = self.bytes.len();
        if bytes < T::size() {
            0
        } else {
            (bytes - T::size()) / self.stride + 1
        }
    }

    /// The item at a place among those that are left.
    pub(crate) fn at(&self, index: usize) -> T
        requires { index < length (items_left self.now) }
        ensures { slice_get (items_left self.now) index ≡ Some result }
    {
        T::from_slice(&self.bytes[index * self.stride..])
    }

    /// The first item that is left.
    fn first(&mut self) -> Option<T>
        ensures gives { result ≡ slice_get (items_left self.old) 0 }
        ensures leaves { items_left self.new ≡ drop 1 (items_left self.old) }
    {
        if self.stride <= self.bytes.len() {
            let (item, others) = self.bytes.split_at(self.stride);
            self.bytes = others;
            Some(T::from_slice(item))
        } else if T::size() <= self.bytes.len() {
            let item = T::from_slice(self.bytes);
            self.bytes = &[];
            Some(item)
        } else {
            None
        }
    }

    /// Passes over n items.
    fn pass(&mut self, n: usize)
        ensures { items_left self.new ≡ drop n (items_left self.old) }
    {
        self.bytes = behind(self.bytes, n.saturating_mul(self.stride));
    }

    /// Passes over n items and gives the next one. Past the end it gives none, and nothing is left.
    pub fn nth(&mut self, n: usize) -> Option<T>
        ensures gives { result ≡ slice_get (items_left self.old) n }
        ensures leaves { items_left self.new ≡ drop (n + 1) (items_left self.old) }
    {
        self.pass(n);
        self.first()
    }

    /// The last item, if one is left.
    pub fn last(self) -> Option<T>
        ensures { result ≡ slice_get (items_left self.entry) (length (items_left self.entry) - 1) }
    {
        let len = self.len();
        if len == 0 {
            None
        } else {
            Some(self.at(len - 1))
        }
    }

    /// How many items were left.
    pub fn count(self) -> usize
        ensures { result ≡ length (items_left self.entry) }
    {
        self.len()
    }
}

impl<'a, T: Item> Iterator for ItemIter<'a, T> {
    type Item = T;

    ghost use Rattle.std.specs.Prelude.{◌≡◌, IfSome, length};
    ghost use Rattle.std.specs.Iterator.{YieldsFirst, item_count, UpTo, at_most};
    ghost use Rattle.std.specs.Iterator.SizeHint.{IsWithinCount};
    ghost use Rattle.gltf_items.specs.ItemIter.{items_left};

    ghost next_gives = { YieldsFirst items_left };

    ghost remaining = { item_count items_left };

    fn next(&mut self) -> Option<T> {
        self.first()
    }

    /// How many items are left, as both bounds.
    fn size_hint(&self) -> (usize, Option<usize>)
        ensures lower { IsWithinCount result.0 (at_most (length (items_left self.now))) }
        ensures upper { IfSome result.1 (UpTo (at_most (length (items_left self.now)))) }
        ensures exact { result ≡ (
          length (items_left self.now),
          Some (length (items_left self.now)),
        ) }
    {
        let len = self.len();
        (len, Some(len))
    }
}
