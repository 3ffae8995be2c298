//! Items that are made as they are asked for.

ghost use Rattle.std.specs.Prelude.{◌≡◌, ◌+◌, ◌<◌, ◌≤◌, ⊤, Some, List, length, drop, slice_get};

use std::alloc::AllocError;

/// What has an item at each position below a length, without memory.
pub trait Sequence: Copy {
    /// What is at a position.
    type Item: Drop;

    ghost list: { Self → List Self.Item };

    /// How many items there are.
    fn len(&self) -> usize
        ensures { result ≡ length (list self.now) };

    /// The item at a position below their number.
    fn get(&self, index: usize) -> Self::Item
        requires { index < length (list self.now) }
        ensures { slice_get (list self.now) index ≡ Some result };
}

/// The items of a sequence that are left.
#[derive(Drop)]
#[derive_where(Debug; S)]
pub struct Items<S: Sequence> {
    sequence: S,
    next: usize,
    end: usize,
    ghost ordered: { next ≤ end },
    ghost whole: { end ≡ length (S.list sequence) },
}

impl<S: Sequence> Items<S> {
    ghost use Rattle.gltf_geometry.specs.Items.{items_left};

    /// All items of a sequence.
    pub fn new(sequence: S) -> Self
        ensures { items_left result ≡ S.list sequence }
    {
        Items {
            sequence,
            next: 0,
            end: sequence.len(),
        }
    }

    /// How many items are left.
    pub fn len(&self) -> usize
        ensures { result ≡ length (items_left self.now) }
    {
        self.end - self.next
    }

    /// Passes over n items and gives the next one. Past the end it gives none, and nothing is left.
    pub fn nth(&mut self, n: usize) -> Option<S::Item>
        ensures gives { result ≡ slice_get (items_left self.old) n }
        ensures leaves { items_left self.new ≡ drop (n + 1) (items_left self.old) }
    {
        if n < self.end - self.next {
            let item = self.sequence.get(self.next + n);
            self.next += n + 1;
            Some(item)
        } else {
            self.next = self.end;
            None
        }
    }
}

impl<S: Sequence> Iterator for Items<S> {
    type Item = S::Item;

    ghost use Rattle.std.specs.Prelude.{IfSome};
    ghost use Rattle.std.specs.Iterator.{YieldsFirst, item_count, UpTo, at_most};
    ghost use Rattle.std.specs.Iterator.SizeHint.{IsWithinCount};
    ghost use Rattle.gltf_geometry.specs.Items.{items_left};

    ghost next_gives = { YieldsFirst items_left };

    ghost remaining = { item_count items_left };

    fn next(&mut self) -> Option<S::Item> {
        self.nth(0)
    }

    /// How many items are left, twice.
    fn size_hint(&self) -> (usize, Option<usize>)
        ensures lower { IsWithinCount result.0 (at_most (length (items_left self.now))) }
        ensures upper { IfSome result.1 (UpTo (at_most (length (items_left self.now)))) }
        ensures exact { result ≡ (
          length (items_left self.now),
          Some (length (items_left self.now)),
        ) }
    {
        let len = self.len();
        (len, Some(len))
    }
}

impl<S: Sequence> Clone for Items<S> {
    ghost use Rattle.gltf_geometry.specs.Items.{items_left};

    ghost is_clone = { λ x y. items_left y ≡ items_left x };

    ghost is_infallible = { λ _. ⊤ };

    fn clone(&self) -> Result<Self, AllocError> {
        let sequence = self.sequence;
        Ok(Items {
            sequence,
            next: self.next,
            end: self.end,
        })
    }
}
