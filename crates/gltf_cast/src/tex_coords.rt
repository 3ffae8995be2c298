//! Casts of texture coordinates (glTF 2.0, section 3.7.2.1, "Meshes: Overview", `TEXCOORD_n`).

ghost use Rattle.std.specs.Prelude.{◌≡◌, ℕ, List};

use crate::arrays::cast_two;
use crate::markers::Marker;
pub use crate::markers::{U8, U16};

/// How texture coordinates are cast: each pair number by number.
pub trait Cast {
    /// What they are cast to.
    type Output;

    /// What a pair of one byte each is cast to.
    ghost of_u8: { List ℕ → Self.Output };

    /// What a pair of two bytes each is cast to.
    ghost of_u16: { List ℕ → Self.Output };

    /// Casts a pair of one byte each.
    fn cast_u8(x: [u8; 2]) -> Self::Output
        ensures { result ≡ of_u8 x };

    /// Casts a pair of two bytes each.
    fn cast_u16(x: [u16; 2]) -> Self::Output
        ensures { result ≡ of_u16 x };
}

impl<M: Marker> Cast for M {
    ghost use Rattle.std.specs.Prelude.{map, pos};
    ghost use Rattle.gltf_cast.specs.Casts.{U8, U16, cast};

    type Output = [M::Number; 2];

    ghost of_u8 = { map (λ y. M.Number.of_whole (cast U8 M.Number.kind (pos y))) };

    ghost of_u16 = { map (λ y. M.Number.of_whole (cast U16 M.Number.kind (pos y))) };

    fn cast_u8(x: [u8; 2]) -> [M::Number; 2] {
        cast_two(x)
    }

    fn cast_u16(x: [u16; 2]) -> [M::Number; 2] {
        cast_two(x)
    }
}
