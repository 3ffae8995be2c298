//! Casts of the weights of joints (glTF 2.0, section 3.7.3.3, "Skinned Mesh Attributes",
//! `WEIGHTS_n`): of the four that a vertex has.

ghost use Rattle.std.specs.Prelude.{◌≡◌, ℕ, List};

use crate::arrays::cast_four;
use crate::markers::Marker;
pub use crate::markers::{U8, U16};

/// How weights of joints are cast: each number by number.
pub trait Cast {
    /// What they are cast to.
    type Output;

    /// What four weights of one byte are cast to.
    ghost of_u8: { List ℕ → Self.Output };

    /// What four weights of two bytes are cast to.
    ghost of_u16: { List ℕ → Self.Output };

    /// Casts four weights of one byte.
    fn cast_u8(x: [u8; 4]) -> Self::Output
        ensures { result ≡ of_u8 x };

    /// Casts four weights of two bytes.
    fn cast_u16(x: [u16; 4]) -> Self::Output
        ensures { result ≡ of_u16 x };
}

impl<M: Marker> Cast for M {
    ghost use Rattle.std.specs.Prelude.{map, pos};
    ghost use Rattle.gltf_cast.specs.Casts.{U8, U16, cast};

    type Output = [M::Number; 4];

    ghost of_u8 = { map (λ y. M.Number.of_whole (cast U8 M.Number.kind (pos y))) };

    ghost of_u16 = { map (λ y. M.Number.of_whole (cast U16 M.Number.kind (pos y))) };

    fn cast_u8(x: [u8; 4]) -> [M::Number; 4] {
        cast_four(x)
    }

    fn cast_u16(x: [u16; 4]) -> [M::Number; 4] {
        cast_four(x)
    }
}
