//! Laws of the definitions that the contracts of this crate name. Each function's contract is the
//! law. It needs no body, but for the equality, which is asked there.

ghost use Rattle.std.specs.Prelude.{◌≡◌, ℕ, ◌+◌, ◌-◌, ◌*◌, ◌<◌, ◌≤◌, ◌↔◌, IsTrue, List, Option};
ghost use Rattle.std.specs.Prelude.{length, map, take, drop, slice_get, SomeIff};
ghost use Rattle.std.specs.List.{range_with_len};
ghost use Rattle.gltf_items.specs.Plain.{plain};
ghost use Rattle.gltf_items.specs.Sparse.{front, total, sparse, sparse_item};
ghost use Rattle.gltf_items.specs.Laws.{NthIsNext, IsFront, Overrides};

use crate::item::{F32, Item};

/// `nth(n)` gives what the last of n + 1 calls of `next` gives, and leaves what they leave. This
/// holds of every list, whatever it is a list of, and so of each iterator whose contracts say that
/// `next` gives the first of the items that are left and leaves the others, and `nth` the item at a
/// place and those after it: those of this crate, those above it, and those that cast what they
/// give, also by a cast of a caller's own.
pub fn nth_is_next<T>()
    ensures { (items : List T) (n : ℕ) → NthIsNext items n }
{}

/// Item i at the steps of a stride is there exactly where its bytes are, and is what the bytes from
/// i strides on spell.
pub fn plain_by_position<T: Item>()
    ensures { (bytes : List ℕ) (stride i : ℕ) → T.size ≤ stride →
        SomeIff (slice_get (plain T.size T.value bytes stride) i)
        (i * stride + T.size ≤ length bytes)
        (T.value (drop (i * stride) bytes)) }
{}

/// Where bytes begin with the first of some items and end with the last one, these are all items
/// there, and each is what stands so many strides after the start.
pub fn items_of_a_cut<T: Item>()
    requires fits { T.size < usize.MAX }
    ensures { (bytes : List ℕ) (stride start count : ℕ) → T.size ≤ stride → 0 < count
        → start + (stride * (count - 1) + T.size) ≤ length bytes
        → plain T.size T.value (take (stride * (count - 1) + T.size) (drop start bytes)) stride
        ≡ map (λ i. T.value (drop (start + i * stride) bytes)) (range_with_len 0 count) }
{}

/// The stored indices that count are their longest strictly increasing beginning that is no longer
/// than the values.
pub fn front_is_longest<T: Item>()
    ensures { (indices : List ℕ) (values : List T) → IsFront indices values (front indices values) }
{}

/// The items of a sparse accessor are as many as the base's, or `n` without a base. The item at the
/// k-th index that counts is the k-th value, and each item at no such index is the base's, or zero
/// without a base.
pub fn sparse_by_position<T: Item>()
    ensures items { (base : Option (List T)) (n : ℕ) (indices : List ℕ) (values : List T) (i : ℕ) →
        SomeIff (slice_get (sparse T.zero_item base n indices values) i)
        (i < total base n)
        (sparse_item T.zero_item base indices values i) }
    ensures overrides { (base : Option (List T)) (indices : List ℕ) (values : List T) →
        Overrides T.zero_item base indices values }
{}

/// Two numbers of single precision are equal exactly where their four bytes are.
pub fn f32_equality(left: F32, right: F32) -> bool
    ensures { IsTrue result ↔ (left ≡ right) }
{
    left == right
}
