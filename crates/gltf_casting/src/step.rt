//! Steps of an iterator.

ghost use Rattle.gltf_data.specs.Iter.{counted_items};
ghost use Rattle.gltf_casting.specs.Step.{IsStep};

use gltf_data::accessor::Iter;
use gltf_items::Item;

/// A step that gives an item.
#[derive(Drop)]
pub enum Step {
    /// To the first item that is left.
    Next,
    /// Past so many items, to the next one.
    Nth(usize),
}

/// Takes a step: past the end it gives none, and nothing is left.
pub(crate) fn take<T: Item>(items: &mut Iter<'_, T>, step: Step) -> Option<T>
    ensures { IsStep step (counted_items items.old) (counted_items items.new) result }
{
    match step {
        Step::Next => items.next(),
        Step::Nth(n) => items.nth(n),
    }
}
