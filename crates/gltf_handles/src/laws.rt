//! Laws of lists. The function's contract is the law, and it needs no body.

ghost use Rattle.std.specs.Prelude.{ℕ, Option};
ghost use Rattle.gltf_handles.specs.Positions.{Position, ByNext, Nth};

use crate::list::Indexed;

/// `nth(n)` gives what the last of n + 1 calls of `next` gives, and leaves what they leave, on
/// every list of handles.
pub fn nth_is_next<S: Indexed>()
    ensures { (old new : Position S) (n : ℕ) (given : Option S.Item) →
        ByNext S.gives old n given new → Nth S.gives old n given new }
{}
