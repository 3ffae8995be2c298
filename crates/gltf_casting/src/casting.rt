//! Iterators that cast the items of one of several types to one type.

ghost use Rattle.std.specs.Prelude.{◌≡◌, ◌+◌, ◌-◌, length, drop, slice_get, [], IfSome, Some};
ghost use Rattle.gltf_items.specs.Sparse.{digits};
ghost use Rattle.gltf_items.specs.Counted.{Costs};

use crate::castable::{Castable, Step};
use crate::floats::MaybeFloats;
use gltf_items::Count;
use std::marker::{Model, PhantomData};

/// The items that are left in an `E`, each of them cast by `A`. Contracts see it as that `E`. A
/// step reads what a step of the items themselves reads. `nth` is repeated `next`, whatever the
/// cast: the law `gltf_items::laws::nth_is_next` at `E::Output`.
#[derive(Drop)]
#[derive_where(Clone, Debug; E)]
pub struct Casting<E, A> {
    items: E,
    by: PhantomData<A>,
}

impl<E, A> Model for Casting<E, A> {
    ghost Value = { E };

    ghost view = { λ c. c.items };
}

impl<E, A> Casting<E, A> {
    /// Casts these items.
    pub(crate) fn new(items: E) -> Self
        ensures { result ≡ items }
    {
        Casting {
            items,
            by: PhantomData,
        }
    }

    /// The items, uncast.
    pub fn unwrap(self) -> E
        ensures { result ≡ self }
    {
        self.items
    }
}

impl<E: MaybeFloats, A> Casting<E, A> {
    ghost use Rattle.gltf_casting.specs.Casting.{IsCastUnlessFloats};

    /// Casts these items, or gives them back where they are floats.
    pub(crate) fn unless_floats(items: E) -> Result<Self, E>
        ensures { IsCastUnlessFloats (E.are_floats items) items result }
    {
        if items.are_floats() {
            Err(items)
        } else {
            Ok(Casting::new(items))
        }
    }
}

impl<E: Castable<A>, A> Casting<E, A> {
    /// How many items are left. It reads none.
    pub fn len(&self) -> usize
        ensures { result ≡ length (E.cast_items self.now).items }
    {
        self.items.tally().left
    }

    /// Passes over n items and gives the next one. Past the end it gives none, and nothing is left.
    /// Over c stored indices it reads at most as many of them as c has binary digits, and one more.
    pub fn nth(&mut self, n: usize) -> Option<E::Output>
        ensures gives { result ≡ slice_get (E.cast_items self.old).items n }
        ensures leaves { (E.cast_items self.new).items
            ≡ drop (n + 1) (E.cast_items self.old).items }
        ensures costs { Costs (E.cast_items self.old) (E.cast_items self.new)
            (digits (E.cast_items self.old).stored + 1) }
    {
        self.items.cast_step(Step::Nth(n))
    }

    /// The last item, if one is left. Then nothing is left. It reads as many indices as `nth` at
    /// most.
    pub fn take_last(&mut self) -> Option<E::Output>
        ensures gives { result ≡ slice_get (E.cast_items self.old).items
            (length (E.cast_items self.old).items - 1) }
        ensures leaves { (E.cast_items self.new).items ≡ [] }
        ensures costs { Costs (E.cast_items self.old) (E.cast_items self.new)
            (digits (E.cast_items self.old).stored + 1) }
    {
        self.nth(self.len().saturating_sub(1))
    }

    /// How many stored indices were read so far, also while the items were made.
    pub fn index_reads(&self) -> Count
        ensures { result ≡ (E.cast_items self.now).index_reads }
    {
        self.items.tally().index_reads
    }

    /// How many items of a sparse accessor's base were read so far.
    pub fn base_reads(&self) -> Count
        ensures { result ≡ (E.cast_items self.now).base_reads }
    {
        self.items.tally().base_reads
    }

    /// How many values of a sparse accessor were read so far.
    pub fn value_reads(&self) -> Count
        ensures { result ≡ (E.cast_items self.now).value_reads }
    {
        self.items.tally().value_reads
    }

    /// The last item, if one is left.
    pub fn last(mut self) -> Option<E::Output>
        ensures { result ≡ slice_get (E.cast_items self).items
            (length (E.cast_items self).items - 1) }
    {
        self.take_last()
    }

    /// How many items were left. It reads none.
    pub fn count(self) -> usize
        ensures { result ≡ length (E.cast_items self).items }
    {
        self.len()
    }
}

impl<E: Castable<A>, A> Iterator for Casting<E, A> {
    type Item = E::Output;

    ghost use Rattle.std.specs.Prelude.{⊤};
    ghost use Rattle.std.specs.Iterator.{YieldsFirst, MakesProgress, item_count, UpTo, at_most};
    ghost use Rattle.std.specs.Iterator.SizeHint.{IsWithinCount};

    ghost next_gives = { YieldsFirst (λ s. (E.cast_items s).items) };

    ghost remaining = { item_count (λ s. (E.cast_items s).items) };

    /// The first item that is left, by at most one index read.
    fn next(&mut self) -> Option<E::Output>
        ensures steps { YieldsFirst (λ s. (E.cast_items s).items) self.old result self.new }
        ensures goes { MakesProgress (λ _. ⊤)
            (item_count (λ s. (E.cast_items s).items)) self.old result self.new }
        ensures gives { result ≡ slice_get (E.cast_items self.old).items 0 }
        ensures leaves { (E.cast_items self.new).items ≡ drop 1 (E.cast_items self.old).items }
        ensures costs { Costs (E.cast_items self.old) (E.cast_items self.new) 1 }
    {
        self.items.cast_step(Step::Next)
    }

    /// How many items are left, as both bounds. It reads none.
    fn size_hint(&self) -> (usize, Option<usize>)
        ensures lower { IsWithinCount result.0 (at_most (length (E.cast_items self.now).items)) }
        ensures upper { IfSome result.1 (UpTo (at_most (length (E.cast_items self.now).items))) }
        ensures exact { result ≡ (
          length (E.cast_items self.now).items,
          Some (length (E.cast_items self.now).items),
        ) }
    {
        let len = self.len();
        (len, Some(len))
    }
}
