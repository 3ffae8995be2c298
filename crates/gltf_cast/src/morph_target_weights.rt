//! Casts of the weights of morph targets (glTF 2.0, section 3.11, "Animations").

ghost use Rattle.std.specs.Prelude.{◌≡◌, ℕ, ℤ};

use crate::markers::Marker;
pub use crate::markers::{I8, I16, U8, U16};
use crate::number::Number;

/// How weights of morph targets are cast.
pub trait Cast {
    /// What they are cast to.
    type Output;

    /// What a weight of one byte with a sign is cast to.
    ghost of_i8: { ℤ → Self.Output };

    /// What a weight of one byte is cast to.
    ghost of_u8: { ℕ → Self.Output };

    /// What a weight of two bytes with a sign is cast to.
    ghost of_i16: { ℤ → Self.Output };

    /// What a weight of two bytes is cast to.
    ghost of_u16: { ℕ → Self.Output };

    /// Casts a weight of one byte with a sign.
    fn cast_i8(x: i8) -> Self::Output
        ensures { result ≡ of_i8 x };

    /// Casts a weight of one byte.
    fn cast_u8(x: u8) -> Self::Output
        ensures { result ≡ of_u8 x };

    /// Casts a weight of two bytes with a sign.
    fn cast_i16(x: i16) -> Self::Output
        ensures { result ≡ of_i16 x };

    /// Casts a weight of two bytes.
    fn cast_u16(x: u16) -> Self::Output
        ensures { result ≡ of_u16 x };
}

impl<M: Marker> Cast for M {
    ghost use Rattle.std.specs.Prelude.{pos};
    ghost use Rattle.gltf_cast.specs.Casts.{I8, U8, I16, U16, cast};

    type Output = M::Number;

    ghost of_i8 = { λ x. M.Number.of_whole (cast I8 M.Number.kind x) };

    ghost of_u8 = { λ x. M.Number.of_whole (cast U8 M.Number.kind (pos x)) };

    ghost of_i16 = { λ x. M.Number.of_whole (cast I16 M.Number.kind x) };

    ghost of_u16 = { λ x. M.Number.of_whole (cast U16 M.Number.kind (pos x)) };

    fn cast_i8(x: i8) -> M::Number {
        M::Number::from_i8(x)
    }

    fn cast_u8(x: u8) -> M::Number {
        M::Number::from_u8(x)
    }

    fn cast_i16(x: i16) -> M::Number {
        M::Number::from_i16(x)
    }

    fn cast_u16(x: u16) -> M::Number {
        M::Number::from_u16(x)
    }
}
