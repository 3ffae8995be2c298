//! Laws of the casts, and casts worked by hand. Each function's contract is what it says, and it
//! needs no body.

ghost use Rattle.std.specs.Prelude.{◌≡◌, ℤ, pos, negsuc, ◌≤ℤ◌, [], ◌∷◌};
ghost use Rattle.gltf_cast.specs.Casts.{Whole, I8, U8, I16, U16, cast, least_of, greatest_of};

use crate::colors::{Cast, RgbU8, RgbaU8, RgbaU16};

/// A greater number is not cast to a smaller one.
pub fn casts_are_monotone()
    ensures { (from to : Whole) (x y : ℤ) → x ≤ℤ y
        → cast from to x ≤ℤ cast from to y }
{}

/// A number of its type is cast to one of the other type, so none is cut or wrapped.
pub fn casts_stay_within_types()
    ensures least { (from to : Whole) (x : ℤ) → least_of from ≤ℤ x
        → x ≤ℤ greatest_of from → least_of to ≤ℤ cast from to x }
    ensures greatest { (from to : Whole) (x : ℤ) → least_of from ≤ℤ x
        → x ≤ℤ greatest_of from → cast from to x ≤ℤ greatest_of to }
{}

/// To its own type a number is cast unchanged.
pub fn same_type_is_no_change()
    ensures { (kind : Whole) (x : ℤ) → cast kind kind x ≡ x }
{}

/// To two bytes and back, with a sign or without one, is no change.
pub fn wider_and_back_is_no_change()
    ensures unsigned { (x : ℤ) → cast U16 U8 (cast U8 U16 x) ≡ x }
    ensures signed { (x : ℤ) → cast I16 I8 (cast I8 I16 x) ≡ x }
{}

/// Casts that were worked by hand.
pub fn casts_worked_by_hand()
    ensures from_i8 { (cast I8 I16 (pos 127) ≡ pos 32512) × (cast I8 U16 (pos 127) ≡ pos 65024)
        × (cast I8 I16 (negsuc 0) ≡ negsuc 255) × (cast I8 U8 (negsuc 127) ≡ pos 0) }
    ensures from_u8 { (cast U8 I8 (pos 255) ≡ pos 127) × (cast U8 I16 (pos 255) ≡ pos 32640) }
    ensures from_i16 { (cast I16 I8 (negsuc 0) ≡ pos 0) × (cast I16 I8 (negsuc 256) ≡ negsuc 0)
        × (cast I16 U8 (pos 32767) ≡ pos 255) × (cast I16 U16 (pos 32767) ≡ pos 65534) }
    ensures from_u16 { (cast U16 I16 (pos 65535) ≡ pos 32767)
        × (cast U16 I8 (pos 511) ≡ pos 0) }
    ensures rgb { ⟦<RgbU8 as Cast>⟧.of_rgba_u16 (65535 ∷ 256 ∷ 0 ∷ 1 ∷ [])
        ≡ 255 ∷ 1 ∷ 0 ∷ [] }
    ensures rgba_u8 { ⟦<RgbaU8 as Cast>⟧.of_rgb_u16 (65535 ∷ 256 ∷ 0 ∷ [])
        ≡ 255 ∷ 1 ∷ 0 ∷ 255 ∷ [] }
    ensures rgba_u16 { ⟦<RgbaU16 as Cast>⟧.of_rgb_u8 (255 ∷ 1 ∷ 0 ∷ [])
        ≡ 65280 ∷ 256 ∷ 0 ∷ 65535 ∷ [] }
{}
