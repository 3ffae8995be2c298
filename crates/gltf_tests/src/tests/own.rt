//! Items of a caller's own.

ghost use Rattle.std.specs.Prelude.{◌^◌, ◌-◌, slice_index};
ghost use Rattle.std.proofs.Common.{arith};
ghost use Rattle.gltf_tests.specs.Own.{pair, pair-reads_front};

use gltf_items::Item;

/// Two bytes, the second one first.
#[derive(Clone, Copy, Debug, PartialEq, Eq)]
pub struct Swapped {
    /// The second byte.
    pub first: u8,
    /// The first byte.
    pub second: u8,
}

impl Item for Swapped {
    ghost size = { 2 };

    ghost value = { pair (λ a b. record { first = b; second = a }) };

    ghost zero_item = { record { first = 0; second = 0 } };

    ghost positive = { Prim.omega arith };

    ghost reads_front = { λ _. pair-reads_front (λ a b. record { first = b; second = a }) };

    fn size() -> usize {
        2
    }

    fn from_slice(slice: &[u8]) -> Swapped {
        Swapped {
            first: slice[1],
            second: slice[0],
        }
    }

    fn zero() -> Swapped {
        Swapped {
            first: 0,
            second: 0,
        }
    }
}

/// An item of so many bytes that four of them do not fit a `usize`. Its first byte decides it.
#[derive(Clone, Copy, Debug, PartialEq, Eq)]
pub struct Huge {
    /// The first byte.
    pub first: u8,
}

impl Item for Huge {
    ghost size = { 2 ^ 62 };

    ghost value = { λ bytes. record { first = slice_index bytes 0 } };

    ghost zero_item = { record { first = 0 } };

    ghost positive = { Prim.omega arith };

    ghost use Rattle.gltf_tests.specs.Own.{first-reads_front};

    ghost reads_front = { λ _. first-reads_front (λ a. record { first = a }) };

    fn size() -> usize {
        1 << 62
    }

    fn from_slice(slice: &[u8]) -> Huge {
        Huge { first: slice[0] }
    }

    fn zero() -> Huge {
        Huge { first: 0 }
    }
}
