//! The components of an item (glTF 2.0, section 3.6.2.2, "Accessor Data Types").
ghost use Rattle.std.specs.Prelude.{◌≡◌, ◌≤◌, ℕ, pos, List, Bool, false};
ghost use Rattle.std.specs.Float.{Float, binary64};
ghost use Rattle.std.specs.Float.Ieee.{of_int};
ghost use Rattle.std.proofs.Common.{arith};
ghost use Rattle.gltf_items.specs.Floats.{float_of};
ghost use Rattle.gltf_inspect_values.specs.Components.{at_column, number_at, is_infinite};
ghost use Rattle.gltf_inspect_values.specs.Components.{has_infinite};

use byteorder::{ByteOrder, LE};
use gltf_items::{F32, Item};
use std::num::{f32_to_f64_with_nan, nearest_i64_to_f64, nearest_u64_to_f64};

/// What components are read as.
pub(crate) trait Component: Item {
    /// The number that a component is.
    ghost number: { Self → Float };

    /// Whether a component of an item with these bytes is infinite or not a number.
    ghost any_infinite: { List ℕ → Bool };

    /// The number that it is: a double holds each of them exactly.
    fn number(self) -> f64
        ensures { result ≡ number self };

    /// Whether a component of an item is infinite or not a number.
    fn is_infinite(item: &[u8]) -> bool
        ensures { result ≡ any_infinite item.now };

    /// A component has at most four bytes.
    ghost is_short: { Self.size ≤ 4 };
}

impl Component for i8 {
    ghost number = { λ z. of_int binary64 z };

    ghost any_infinite = { λ item. false };

    ghost is_short = { Prim.omega arith };

    fn number(self) -> f64 {
        nearest_i64_to_f64(self as i64)
    }

    fn is_infinite(_item: &[u8]) -> bool {
        false
    }
}

impl Component for u8 {
    ghost number = { λ n. of_int binary64 (pos n) };

    ghost any_infinite = { λ item. false };

    ghost is_short = { Prim.omega arith };

    fn number(self) -> f64 {
        nearest_u64_to_f64(self as u64)
    }

    fn is_infinite(_item: &[u8]) -> bool {
        false
    }
}

impl Component for i16 {
    ghost number = { λ z. of_int binary64 z };

    ghost any_infinite = { λ item. false };

    ghost is_short = { Prim.omega arith };

    fn number(self) -> f64 {
        nearest_i64_to_f64(self as i64)
    }

    fn is_infinite(_item: &[u8]) -> bool {
        false
    }
}

impl Component for u16 {
    ghost number = { λ n. of_int binary64 (pos n) };

    ghost any_infinite = { λ item. false };

    ghost is_short = { Prim.omega arith };

    fn number(self) -> f64 {
        nearest_u64_to_f64(self as u64)
    }

    fn is_infinite(_item: &[u8]) -> bool {
        false
    }
}

impl Component for u32 {
    ghost number = { λ n. of_int binary64 (pos n) };

    ghost any_infinite = { λ item. false };

    ghost is_short = { Prim.omega arith };

    fn number(self) -> f64 {
        nearest_u64_to_f64(self as u64)
    }

    fn is_infinite(_item: &[u8]) -> bool {
        false
    }
}

impl Component for F32 {
    ghost number = { float_of };

    ghost any_infinite = { has_infinite };

    ghost is_short = { Prim.omega arith };

    fn number(self) -> f64 {
        let bits = LE::read_u32(&self.to_bytes());
        if bits % 0x8000_0000 <= 0x7f80_0000 {
            let number = f32::from_bits(bits);
            number as f64
        } else {
            f32_to_f64_with_nan(self.to_f32())
        }
    }

    fn is_infinite(item: &[u8]) -> bool {
        has_infinite(item)
    }
}

/// What stands in a column of an item, where the item has so many.
#[inline(always)]
fn at_column<T: Item>(item: &[u8], column: usize) -> Option<T>
    requires { T.size ≤ 4 }
    ensures { result ≡ at_column T.size T.value column item.now }
{
    let (size, len) = (T::size(), item.len());
    let start = size.checked_mul(column)?;
    let end = start.checked_add(size)?;
    if end <= len {
        Some(T::from_slice(&item[start..]))
    } else {
        None
    }
}

/// The number in a column of an item, where the item has so many.
#[inline(always)]
pub(crate) fn number_at<T: Component>(item: &[u8], column: usize) -> Option<f64>
    ensures { result ≡ number_at T.size T.value T.number column item.now }
{
    let component: T = at_column(item, column)?;
    Some(component.number())
}

/// Whether the exponent of a float is all ones: the eight bits after the sign. Few floats have the
/// first seven, so that these are looked at first.
fn is_infinite(third: u8, fourth: u8) -> bool
    ensures { result ≡ is_infinite third fourth }
{
    fourth % 128 == 127 && 128 <= third
}

/// Whether some float of an item is infinite or not a number.
#[tactic(auto, using(crate::proofs::Short::short_has_none))]
fn has_infinite(item: &[u8]) -> bool
    ensures { result ≡ has_infinite item.now }
{
    let mut rest = item;
    'floats: while let [_, _, third, fourth, others @ ..] = rest {
        if is_infinite(*third, *fourth) {
            return true;
        }
        rest = others;
    }
    false
}
