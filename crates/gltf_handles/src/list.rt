//! Lists of handles. Each is a source and a position in it; this module says once how such a list
//! is walked.

ghost use Rattle.std.specs.Prelude.{◌≡◌, ◌≤◌, ◌<◌, Some, IfSome, ⊤};
ghost use Rattle.std.specs.Iterator.{at_most, UpTo};
ghost use Rattle.std.specs.Iterator.SizeHint.{IsWithinCount};
ghost use Rattle.gltf_handles.specs.Positions.{IsWhole, Last, Nth, left};

use std::alloc::AllocError;

/// A source of items: one at each number below a count, made without memory.
pub trait Indexed: Copy {
    ghost use Rattle.std.specs.Prelude.{◌≡◌, ℕ, ◌<◌};

    /// The type of the items.
    type Item: Drop;

    /// How many items there are, in contracts.
    ghost count: { Self → ℕ };

    /// Which items may be given at a number.
    ghost gives: { Self → ℕ → Self.Item → Type 0 };

    /// How many items there are.
    fn len(&self) -> usize
        ensures { result ≡ count self.now };

    /// The item at a number below the count.
    fn get(&self, index: usize) -> Self::Item
        requires { index < count self.now }
        ensures { gives self.now index result };
}

/// The items of a source in the order of their numbers, each once, from a position on.
#[derive(Debug, Drop)]
pub struct List<S: Indexed> {
    source: S,
    next: usize,
    end: usize,
    ghost ordered: { next ≤ end },
    ghost in_range: { end ≤ S.count source },
}

impl<S: Indexed> List<S> {
    ghost use Rattle.gltf_handles.specs.Lists.{position};

    /// All items of a source.
    pub fn new(source: S) -> Self
        ensures { IsWhole (λ s. s ≡ source) (S.count source) (position result) }
    {
        List {
            source,
            next: 0,
            end: source.len(),
        }
    }

    /// How many items are left.
    pub fn len(&self) -> usize
        ensures { result ≡ left (position self.now) }
    {
        self.end - self.next
    }

    /// How many items were left.
    pub fn count(self) -> usize
        ensures { result ≡ left (position self) }
    {
        self.end - self.next
    }

    /// Passes over n items and gives the next one. Past the end it gives none, and nothing is left.
    pub fn nth(&mut self, n: usize) -> Option<S::Item>
        ensures { Nth S.gives (position self.old) n result (position self.new) }
    {
        if n < self.end - self.next {
            let item = self.source.get(self.next + n);
            self.next += n + 1;
            Some(item)
        } else {
            self.next = self.end;
            None
        }
    }

    /// The last item, if one is left.
    pub fn last(self) -> Option<S::Item>
        ensures { Last S.gives (position self) result }
    {
        if self.next < self.end {
            Some(self.source.get(self.end - 1))
        } else {
            None
        }
    }
}

impl<S: Indexed> Iterator for List<S> {
    ghost use Rattle.gltf_handles.specs.Lists.{position};

    type Item = S::Item;

    ghost next_gives = { λ s r t. Nth S.gives (position s) 0 r (position t) };

    ghost remaining = { λ s. at_most (left (position s)) };

    fn next(&mut self) -> Option<S::Item> {
        self.nth(0)
    }

    /// How many items are left, as both bounds.
    fn size_hint(&self) -> (usize, Option<usize>)
        ensures lower { IsWithinCount result.0 (at_most (left (position self.now))) }
        ensures upper { IfSome result.1 (UpTo (at_most (left (position self.now)))) }
        ensures exact { result ≡ (left (position self.now), Some (left (position self.now))) }
    {
        let len = self.len();
        (len, Some(len))
    }
}

impl<S: Indexed> Clone for List<S> {
    ghost use Rattle.gltf_handles.specs.Lists.{position};

    ghost is_clone = { λ s t. position t ≡ position s };

    ghost is_infallible = { λ _. ⊤ };

    fn clone(&self) -> Result<Self, AllocError> {
        let source = self.source;
        Ok(List {
            source,
            next: self.next,
            end: self.end,
        })
    }
}
