//! Items that can be cast.

ghost use Rattle.gltf_casting.specs.Step.{IsStep};
ghost use Rattle.gltf_casting.specs.Tally.{IsTallyOf};

pub use crate::step::Step;
pub use crate::tally::Tally;

/// Items of one of several types, each of which `A` casts to one type. Floats are not cast: they
/// count as no items here, and no `Casting` holds any.
pub trait Castable<A>: Drop {
    ghost use Rattle.gltf_items.specs.Counted.{CountedItems};

    /// What each is cast to.
    type Output;

    /// The items that are left, each of them cast, and the counts of what was read.
    ghost cast_items: { Self → CountedItems Self.Output };

    /// Takes a step and casts the item that it gives: past the end there is none, and nothing is
    /// left.
    fn cast_step(&mut self, step: Step) -> Option<Self::Output>
        ensures { IsStep step (cast_items self.old) (cast_items self.new) result };

    /// How many items are left, and how much was read.
    fn tally(&self) -> Tally
        ensures { IsTallyOf (cast_items self.now) result };
}
