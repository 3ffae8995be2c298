//! How far an iterator is.

ghost use Rattle.std.specs.Prelude.{◌≡◌};
ghost use Rattle.gltf_data.specs.Iter.{counted_items};

use gltf_data::accessor::Iter;
use gltf_items::{Count, Item};

/// How many items of an iterator are left, and how much of a sparse accessor was read so far.
#[derive(Drop)]
pub struct Tally {
    /// How many items are left.
    pub left: usize,
    /// How many stored indices were read.
    pub index_reads: Count,
    /// How many items of the base were read.
    pub base_reads: Count,
    /// How many values were read.
    pub value_reads: Count,
}

impl Tally {
    ghost use Rattle.gltf_casting.specs.Tally.{IsTallyOf};

    /// How far this iterator is.
    pub(crate) fn of<T: Item>(items: &Iter<'_, T>) -> Tally
        ensures { IsTallyOf (counted_items items.now) result }
    {
        Tally {
            left: items.len(),
            index_reads: items.index_reads(),
            base_reads: items.base_reads(),
            value_reads: items.value_reads(),
        }
    }

    /// How far an iterator without items is: none are left, and it has read nothing.
    pub(crate) fn zero() -> Tally
        ensures left { result.left ≡ 0 }
        ensures index_reads { result.index_reads ≡ 0 }
        ensures base_reads { result.base_reads ≡ 0 }
        ensures value_reads { result.value_reads ≡ 0 }
    {
        Tally {
            left: 0,
            index_reads: Count::zero(),
            base_reads: Count::zero(),
            value_reads: Count::zero(),
        }
    }
}
