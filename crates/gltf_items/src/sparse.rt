//! Items with some of them replaced.

ghost use Rattle.std.specs.Prelude.{◌≡◌, ◌+◌, ◌-◌, ◌≤◌, length, drop, slice_get, [], IfSome, ⊤};
ghost use Rattle.gltf_items.specs.Sparse.{sparse, digits};

use crate::count::Count;
use crate::cursor::{front_len, item_at, seek};
use crate::indices::SparseIndicesIter;
use crate::item::Item;
use crate::item_iter::ItemIter;
use crate::stored::Stored;
use std::marker::Model;

/// The items of a base, or zeros without one, with values in place of some of them (glTF 2.0,
/// 3.6.2.3 "Sparse Accessors"). The stored indices that count are their longest strictly increasing
/// beginning that is no longer than the values: the k-th of them gives its item the k-th value. A
/// jump reads few of them.
#[derive(Drop)]
#[derive_where(Clone, Debug)]
pub struct SparseIter<'a, T: Item> {
    stored: Stored<'a, T>,
    end: usize,
    front_len: usize,
    cursor: usize,
    position: usize,
}

impl<'a, T: Item> Model for SparseIter<'a, T> {
    ghost use Rattle.std.specs.Prelude.{length, drop};
    ghost use Rattle.gltf_items.specs.Sparse.{sparse};
    ghost use Rattle.gltf_items.specs.Counted.{CountedItems};
    ghost use Rattle.gltf_items.specs.Cursor.{Keeps};

    ghost Value = { CountedItems T };

    ghost view = { λ s. record {
      items = drop s.position
          (sparse T.zero_item s.stored.base s.end s.stored.indices s.stored.values);
      stored = length s.stored.indices;
      index_reads = s.stored.index_reads;
      base_reads = s.stored.base_reads;
      value_reads = s.stored.value_reads;
    } };

    ghost invariant = { λ s. Keeps s.stored s.end s.front_len s.cursor s.position };
}

impl<'a, T: Item> SparseIter<'a, T> {
    ghost use Rattle.std.specs.Option.{option_map};
    ghost use Rattle.gltf_items.specs.ItemIter.{items_left};
    ghost use Rattle.gltf_items.specs.SparseIndicesIter.{indices_left};
    ghost use Rattle.gltf_items.specs.Counted.{Costs, IsFresh};

    /// The base's items with the values in their places, over what is left in the arguments.
    /// Without a base there are no items. Each stored index is read at most once, and no item of
    /// the base and no value.
    pub fn new(
        base: Option<ItemIter<'a, T>>,
        indices: SparseIndicesIter<'a>,
        values: ItemIter<'a, T>,
    ) -> Self
        ensures items { result.items
            ≡ sparse T.zero_item (option_map items_left base.entry) 0
            (indices_left indices.entry) (items_left values.entry) }
        ensures fresh { IsFresh result (length (indices_left indices.entry)) }
    {
        SparseIter::with_base_count(base, 0, indices, values)
    }

    /// [`SparseIter::new`], but without a base there are `base_count` zeros, with the values in
    /// their places.
    pub fn with_base_count(
        base: Option<ItemIter<'a, T>>,
        base_count: usize,
        indices: SparseIndicesIter<'a>,
        values: ItemIter<'a, T>,
    ) -> Self
        ensures items { result.items
            ≡ sparse T.zero_item (option_map items_left base.entry) base_count
            (indices_left indices.entry) (items_left values.entry) }
        ensures fresh { IsFresh result (length (indices_left indices.entry)) }
    {
        let mut stored = Stored::new(base, indices, values);
        let end = stored.total(base_count);
        let front_len = front_len(&mut stored);
        SparseIter {
            stored,
            end,
            front_len,
            cursor: 0,
            position: 0,
        }
    }

    /// How many items are left.
    pub fn len(&self) -> usize
        ensures { result ≡ length self.now.items }
    {
        self.end - self.position
    }

    /// The first item that is left, by at most one index read.
    fn first(&mut self) -> Option<T>
        ensures gives { result ≡ slice_get self.old.items 0 }
        ensures leaves { self.new.items ≡ drop 1 self.old.items }
        ensures costs { Costs self.old self.new 1 }
    {
        if self.position < self.end {
            let (item, cursor) = item_at(
                &mut self.stored,
                self.front_len,
                self.cursor,
                self.position,
            );
            self.cursor = cursor;
            self.position += 1;
            Some(item)
        } else {
            None
        }
    }

    /// Passes over n items and gives the next one. Past the end it gives none, and nothing is left.
    /// Over c stored indices it reads at most as many of them as c has binary digits, and one more.
    pub fn nth(&mut self, n: usize) -> Option<T>
        ensures gives { result ≡ slice_get self.old.items n }
        ensures leaves { self.new.items ≡ drop (n + 1) self.old.items }
        ensures costs { Costs self.old self.new (digits self.old.stored + 1) }
    {
        if n < self.end - self.position {
            let target = self.position + n;
            let cursor = seek(&mut self.stored, self.cursor, self.front_len, target);
            let (item, cursor) = item_at(&mut self.stored, self.front_len, cursor, target);
            self.cursor = cursor;
            self.position = target + 1;
            Some(item)
        } else {
            self.position = self.end;
            None
        }
    }

    /// The last item, if one is left. Then nothing is left. It reads as many indices as `nth` at
    /// most.
    pub fn take_last(&mut self) -> Option<T>
        ensures gives { result ≡ slice_get self.old.items (length self.old.items - 1) }
        ensures leaves { self.new.items ≡ [] }
        ensures costs { Costs self.old self.new (digits self.old.stored + 1) }
    {
        self.nth(self.len().saturating_sub(1))
    }

    /// The last item, if one is left.
    pub fn last(mut self) -> Option<T>
        ensures { result ≡ slice_get self.entry.items (length self.entry.items - 1) }
    {
        self.take_last()
    }

    /// How many items were left.
    pub fn count(self) -> usize
        ensures { result ≡ length self.entry.items }
    {
        self.len()
    }

    /// How many stored indices were read so far, also while it was made.
    pub fn index_reads(&self) -> Count
        ensures { result ≡ self.now.index_reads }
    {
        self.stored.index_reads()
    }

    /// How many items of the base were read so far.
    pub fn base_reads(&self) -> Count
        ensures { result ≡ self.now.base_reads }
    {
        self.stored.base_reads()
    }

    /// How many values were read so far.
    pub fn value_reads(&self) -> Count
        ensures { result ≡ self.now.value_reads }
    {
        self.stored.value_reads()
    }
}

impl<'a, T: Item> Iterator for SparseIter<'a, T> {
    type Item = T;

    ghost use Rattle.std.specs.Iterator.{YieldsFirst, MakesProgress, item_count, UpTo, at_most};
    ghost use Rattle.std.specs.Iterator.SizeHint.{IsWithinCount};
    ghost use Rattle.gltf_items.specs.Counted.{Costs};

    ghost next_gives = { YieldsFirst (λ s. s.items) };

    ghost remaining = { item_count (λ s. s.items) };

    /// The first item that is left, by at most one index read.
    fn next(&mut self) -> Option<T>
        ensures steps { YieldsFirst (λ s. s.items) self.old result self.new }
        ensures goes { MakesProgress (λ _. ⊤) (item_count (λ s. s.items)) self.old result self.new }
        ensures gives { result ≡ slice_get self.old.items 0 }
        ensures leaves { self.new.items ≡ drop 1 self.old.items }
        ensures costs { Costs self.old self.new 1 }
    {
        self.first()
    }

    /// How many items are left, as both bounds.
    fn size_hint(&self) -> (usize, Option<usize>)
        ensures lower { IsWithinCount result.0 (at_most (length self.now.items)) }
        ensures upper { IfSome result.1 (UpTo (at_most (length self.now.items))) }
        ensures exact { result ≡ (length self.now.items, Some (length self.now.items)) }
    {
        let len = self.len();
        (len, Some(len))
    }
}
