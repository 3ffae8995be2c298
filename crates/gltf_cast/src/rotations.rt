//! Casts of rotations (glTF 2.0, section 3.11, "Animations"): of the four numbers of a quaternion.

ghost use Rattle.std.specs.Prelude.{◌≡◌, ℕ, ℤ, List};

use crate::arrays::cast_four;
use crate::markers::Marker;
pub use crate::markers::{I8, I16, U8, U16};

/// How rotations are cast: each number by number.
pub trait Cast {
    /// What they are cast to.
    type Output;

    /// What four numbers of one byte with a sign are cast to.
    ghost of_i8: { List ℤ → Self.Output };

    /// What four numbers of one byte are cast to.
    ghost of_u8: { List ℕ → Self.Output };

    /// What four numbers of two bytes with a sign are cast to.
    ghost of_i16: { List ℤ → Self.Output };

    /// What four numbers of two bytes are cast to.
    ghost of_u16: { List ℕ → Self.Output };

    /// Casts four numbers of one byte with a sign.
    fn cast_i8(x: [i8; 4]) -> Self::Output
        ensures { result ≡ of_i8 x };

    /// Casts four numbers of one byte.
    fn cast_u8(x: [u8; 4]) -> Self::Output
        ensures { result ≡ of_u8 x };

    /// Casts four numbers of two bytes with a sign.
    fn cast_i16(x: [i16; 4]) -> Self::Output
        ensures { result ≡ of_i16 x };

    /// Casts four numbers of two bytes.
    fn cast_u16(x: [u16; 4]) -> Self::Output
        ensures { result ≡ of_u16 x };
}

impl<M: Marker> Cast for M {
    ghost use Rattle.std.specs.Prelude.{map, pos};
    ghost use Rattle.gltf_cast.specs.Casts.{I8, U8, I16, U16, cast};

    type Output = [M::Number; 4];

    ghost of_i8 = { map (λ y. M.Number.of_whole (cast I8 M.Number.kind y)) };

    ghost of_u8 = { map (λ y. M.Number.of_whole (cast U8 M.Number.kind (pos y))) };

    ghost of_i16 = { map (λ y. M.Number.of_whole (cast I16 M.Number.kind y)) };

    ghost of_u16 = { map (λ y. M.Number.of_whole (cast U16 M.Number.kind (pos y))) };

    fn cast_i8(x: [i8; 4]) -> [M::Number; 4] {
        cast_four(x)
    }

    fn cast_u8(x: [u8; 4]) -> [M::Number; 4] {
        cast_four(x)
    }

    fn cast_i16(x: [i16; 4]) -> [M::Number; 4] {
        cast_four(x)
    }

    fn cast_u16(x: [u16; 4]) -> [M::Number; 4] {
        cast_four(x)
    }
}
