//! What a sparse iterator stores. Each read of an index, of an item of the base and of a value is
//! counted, and nothing else reaches their bytes.

ghost use Rattle.std.specs.Prelude.{◌≡◌, ◌+◌, ◌<◌, length, slice_get, slice_index};
ghost use Rattle.gltf_items.specs.Sparse.{total, under};
ghost use Rattle.gltf_items.specs.Stored.{reads_of};

use crate::count::Count;
use crate::indices::SparseIndicesIter;
use crate::item::Item;
use crate::item_iter::ItemIter;
use std::marker::Model;

/// The items of the base, the stored indices and the values, and how often each was read.
#[derive(Drop)]
#[derive_where(Clone, Debug)]
pub(crate) struct Stored<'a, T: Item> {
    base: Option<ItemIter<'a, T>>,
    indices: SparseIndicesIter<'a>,
    values: ItemIter<'a, T>,
    index_reads: Count,
    base_reads: Count,
    value_reads: Count,
}

impl<'a, T: Item> Model for Stored<'a, T> {
    ghost use Rattle.std.specs.Option.{option_map};
    ghost use Rattle.gltf_items.specs.Stored.{StoredLists};

    ghost Value = { StoredLists T };

    ghost use Rattle.gltf_items.specs.ItemIter.{items_left};
    ghost use Rattle.gltf_items.specs.SparseIndicesIter.{indices_left};

    ghost view = { λ s. record {
      base = option_map items_left s.base;
      indices = indices_left s.indices;
      values = items_left s.values;
      index_reads = s.index_reads;
      base_reads = s.base_reads;
      value_reads = s.value_reads;
    } };
}

impl<'a, T: Item> Stored<'a, T> {
    ghost use Rattle.std.specs.Option.{option_map};
    ghost use Rattle.gltf_items.specs.ItemIter.{items_left};
    ghost use Rattle.gltf_items.specs.SparseIndicesIter.{indices_left};

    pub(crate) fn new(
        base: Option<ItemIter<'a, T>>,
        indices: SparseIndicesIter<'a>,
        values: ItemIter<'a, T>,
    ) -> Self
        ensures { result
            ≡ record {
              base = option_map items_left base.entry;
              indices = indices_left indices.entry;
              values = items_left values.entry;
              index_reads = 0;
              base_reads = 0;
              value_reads = 0;
            } }
    {
        Stored {
            base,
            indices,
            values,
            index_reads: Count::zero(),
            base_reads: Count::zero(),
            value_reads: Count::zero(),
        }
    }

    /// How many indices are stored.
    pub(crate) fn index_len(&self) -> usize
        ensures { result ≡ length self.now.indices }
    {
        self.indices.len()
    }

    /// How many values are stored.
    pub(crate) fn value_len(&self) -> usize
        ensures { result ≡ length self.now.values }
    {
        self.values.len()
    }

    /// How many items the base has, or `without` where there is no base.
    pub(crate) fn total(&self, without: usize) -> usize
        ensures { result ≡ total self.now.base without }
    {
        match &self.base {
            Some(base) => base.len(),
            None => without,
        }
    }

    /// Reads a stored index.
    pub(crate) fn index(&mut self, place: usize) -> u32
        requires { place < length self.old.indices }
        ensures gives { result ≡ slice_index self.old.indices place }
        ensures counts { self.new ≡ record self.old { index_reads = self.old.index_reads + 1 } }
    {
        self.index_reads.tick();
        self.indices.at(place)
    }

    /// Reads a value.
    pub(crate) fn value(&mut self, place: usize) -> T
        requires { place < length self.old.values }
        ensures gives { slice_get self.old.values place ≡ Some result }
        ensures counts { self.new ≡ record self.old { value_reads = self.old.value_reads + 1 } }
    {
        self.value_reads.tick();
        self.values.at(place)
    }

    /// Reads an item of the base, or gives zero where there is no base.
    pub(crate) fn base_item(&mut self, place: usize) -> T
        requires { place < total self.old.base (place + 1) }
        ensures gives { result ≡ under T.zero_item self.old.base place }
        ensures counts { self.new
            ≡ record self.old { base_reads = self.old.base_reads + reads_of self.old.base } }
    {
        match &self.base {
            Some(base) => {
                self.base_reads.tick();
                base.at(place)
            }
            None => T::zero(),
        }
    }

    /// How many indices were read.
    pub(crate) fn index_reads(&self) -> Count
        ensures { result ≡ self.now.index_reads }
    {
        self.index_reads.again()
    }

    /// How many items of the base were read.
    pub(crate) fn base_reads(&self) -> Count
        ensures { result ≡ self.now.base_reads }
    {
        self.base_reads.again()
    }

    /// How many values were read.
    pub(crate) fn value_reads(&self) -> Count
        ensures { result ≡ self.now.value_reads }
    {
        self.value_reads.again()
    }
}
