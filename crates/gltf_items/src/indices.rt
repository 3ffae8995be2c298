//! The stored indices of a sparse accessor.

ghost use Rattle.std.specs.Prelude.{◌≡◌, ◌+◌, ◌-◌, ◌<◌, length, drop, slice_get};

use crate::item_iter::ItemIter;

/// The indices of the items that a sparse accessor replaces, in one of three widths (glTF 2.0, 5.3
/// "Accessor Sparse Indices"). Each is given as a `u32`.
#[derive(Clone, Debug, Drop)]
pub enum SparseIndicesIter<'a> {
    /// Indices of one byte.
    U8(ItemIter<'a, u8>),
    /// Indices of two bytes.
    U16(ItemIter<'a, u16>),
    /// Indices of four bytes.
    U32(ItemIter<'a, u32>),
}

impl<'a> SparseIndicesIter<'a> {
    ghost use Rattle.gltf_items.specs.SparseIndicesIter.{indices_left};

    /// How many indices are left.
    pub fn len(&self) -> usize
        ensures { result ≡ length (indices_left self.now) }
    {
        match self {
            SparseIndicesIter::U8(items) => items.len(),
            SparseIndicesIter::U16(items) => items.len(),
            SparseIndicesIter::U32(items) => items.len(),
        }
    }

    /// The index at a place among those that are left.
    pub(crate) fn at(&self, place: usize) -> u32
        requires { place < length (indices_left self.now) }
        ensures { slice_get (indices_left self.now) place ≡ Some result }
    {
        match self {
            SparseIndicesIter::U8(items) => u32::from(items.at(place)),
            SparseIndicesIter::U16(items) => u32::from(items.at(place)),
            SparseIndicesIter::U32(items) => items.at(place),
        }
    }

    /// Passes over n indices and gives the next one. Past the end it gives none, and nothing is
    /// left.
    pub fn nth(&mut self, n: usize) -> Option<u32>
        ensures gives { result ≡ slice_get (indices_left self.old) n }
        ensures leaves { indices_left self.new ≡ drop (n + 1) (indices_left self.old) }
    {
        match self {
            SparseIndicesIter::U8(items) => items.nth(n).map(u32::from),
            SparseIndicesIter::U16(items) => items.nth(n).map(u32::from),
            SparseIndicesIter::U32(items) => items.nth(n),
        }
    }

    /// The last index, if one is left.
    pub fn last(mut self) -> Option<u32>
        ensures { result ≡ slice_get (indices_left self.entry)
            (length (indices_left self.entry) - 1) }
    {
        let len = self.len();
        if len == 0 { None } else { self.nth(len - 1) }
    }

    /// How many indices were left.
    pub fn count(self) -> usize
        ensures { result ≡ length (indices_left self.entry) }
    {
        self.len()
    }
}

impl<'a> Iterator for SparseIndicesIter<'a> {
    type Item = u32;

    ghost use Rattle.std.specs.Prelude.{IfSome};
    ghost use Rattle.std.specs.Iterator.{YieldsFirst, item_count, UpTo, at_most};
    ghost use Rattle.std.specs.Iterator.SizeHint.{IsWithinCount};
    ghost use Rattle.gltf_items.specs.SparseIndicesIter.{indices_left};

    ghost next_gives = { YieldsFirst indices_left };

    ghost remaining = { item_count indices_left };

    fn next(&mut self) -> Option<u32> {
        self.nth(0)
    }

    /// How many indices are left, as both bounds.
    fn size_hint(&self) -> (usize, Option<usize>)
        ensures lower { IsWithinCount result.0 (at_most (length (indices_left self.now))) }
        ensures upper { IfSome result.1 (UpTo (at_most (length (indices_left self.now)))) }
        ensures exact { result ≡ (
          length (indices_left self.now),
          Some (length (indices_left self.now)),
        ) }
    {
        let len = self.len();
        (len, Some(len))
    }
}
