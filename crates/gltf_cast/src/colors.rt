//! Casts of colours (glTF 2.0, section 3.7.2.1, "Meshes: Overview", `COLOR_n`).

ghost use Rattle.std.specs.Prelude.{◌≡◌, ℕ, List, map};
ghost use Rattle.gltf_cast.specs.Casts.{cast, greatest_of};
ghost use Rattle.gltf_cast.specs.Colors.{with_alpha, without_alpha};

use crate::arrays::{cast_four, cast_three};
use crate::markers::{Marker, U8, U16};
use crate::number::Number;
use crate::source::Source;
use std::marker::PhantomData;

/// How colours are cast. A colour with three components is red, green and blue, and one with four
/// has alpha after them.
pub trait Cast {
    /// What they are cast to.
    type Output;

    /// What a colour with three components of one byte is cast to.
    ghost of_rgb_u8: { List ℕ → Self.Output };

    /// What a colour with three components of two bytes is cast to.
    ghost of_rgb_u16: { List ℕ → Self.Output };

    /// What a colour with four components of one byte is cast to.
    ghost of_rgba_u8: { List ℕ → Self.Output };

    /// What a colour with four components of two bytes is cast to.
    ghost of_rgba_u16: { List ℕ → Self.Output };

    /// Casts a colour with three components of one byte.
    fn cast_rgb_u8(x: [u8; 3]) -> Self::Output
        ensures { result ≡ of_rgb_u8 x };

    /// Casts a colour with three components of two bytes.
    fn cast_rgb_u16(x: [u16; 3]) -> Self::Output
        ensures { result ≡ of_rgb_u16 x };

    /// Casts a colour with four components of one byte.
    fn cast_rgba_u8(x: [u8; 4]) -> Self::Output
        ensures { result ≡ of_rgba_u8 x };

    /// Casts a colour with four components of two bytes.
    fn cast_rgba_u16(x: [u16; 4]) -> Self::Output
        ensures { result ≡ of_rgba_u16 x };
}

/// To colours with three components, each a number of the marker M. Alpha is dropped.
#[derive_where(Clone, Copy, Debug)]
pub struct Rgb<M>(PhantomData<M>);

/// To colours with four components, each a number of the marker M. Where there is no alpha, it is
/// the greatest number, which stands for 1, as the section on `COLOR_n` has it.
#[derive_where(Clone, Copy, Debug)]
pub struct Rgba<M>(PhantomData<M>);

/// To colours with three components of one byte.
pub type RgbU8 = Rgb<U8>;

/// To colours with three components of two bytes.
pub type RgbU16 = Rgb<U16>;

/// To colours with four components of one byte. Where there is no alpha, it is 255.
pub type RgbaU8 = Rgba<U8>;

/// To colours with four components of two bytes. Where there is no alpha, it is 65535.
pub type RgbaU16 = Rgba<U16>;

/// Casts a colour with three components, and puts the greatest number after them.
fn cast_with_alpha<S: Source, N: Number>(x: [S; 3]) -> [N; 4]
    ensures { result ≡ with_alpha (N.of_whole (greatest_of N.kind))
        (map (λ y. N.of_whole (cast S.kind N.kind (S.whole y))) x) }
{
    [
        x[0].to_number(),
        x[1].to_number(),
        x[2].to_number(),
        N::greatest(),
    ]
}

/// Casts a colour with four components, without its alpha.
fn cast_without_alpha<S: Source, N: Number>(x: [S; 4]) -> [N; 3]
    ensures { result ≡ map (λ y. N.of_whole (cast S.kind N.kind (S.whole y))) (without_alpha x) }
{
    [x[0].to_number(), x[1].to_number(), x[2].to_number()]
}

impl<M: Marker> Cast for Rgb<M> {
    ghost use Rattle.std.specs.Prelude.{pos};
    ghost use Rattle.gltf_cast.specs.Casts.{U8, U16};

    type Output = [M::Number; 3];

    ghost of_rgb_u8 = { map (λ y. M.Number.of_whole (cast U8 M.Number.kind (pos y))) };

    ghost of_rgb_u16 = { map (λ y. M.Number.of_whole (cast U16 M.Number.kind (pos y))) };

    ghost of_rgba_u8 = { λ x. map (λ y. M.Number.of_whole (cast U8 M.Number.kind (pos y)))
        (without_alpha x) };

    ghost of_rgba_u16 = { λ x. map (λ y. M.Number.of_whole (cast U16 M.Number.kind (pos y)))
        (without_alpha x) };

    fn cast_rgb_u8(x: [u8; 3]) -> [M::Number; 3] {
        cast_three(x)
    }

    fn cast_rgb_u16(x: [u16; 3]) -> [M::Number; 3] {
        cast_three(x)
    }

    fn cast_rgba_u8(x: [u8; 4]) -> [M::Number; 3] {
        cast_without_alpha(x)
    }

    fn cast_rgba_u16(x: [u16; 4]) -> [M::Number; 3] {
        cast_without_alpha(x)
    }
}

impl<M: Marker> Cast for Rgba<M> {
    ghost use Rattle.std.specs.Prelude.{pos};
    ghost use Rattle.gltf_cast.specs.Casts.{U8, U16};

    type Output = [M::Number; 4];

    ghost of_rgb_u8 = { λ x. with_alpha (M.Number.of_whole (greatest_of M.Number.kind))
        (map (λ y. M.Number.of_whole (cast U8 M.Number.kind (pos y))) x) };

    ghost of_rgb_u16 = { λ x. with_alpha (M.Number.of_whole (greatest_of M.Number.kind))
        (map (λ y. M.Number.of_whole (cast U16 M.Number.kind (pos y))) x) };

    ghost of_rgba_u8 = { map (λ y. M.Number.of_whole (cast U8 M.Number.kind (pos y))) };

    ghost of_rgba_u16 = { map (λ y. M.Number.of_whole (cast U16 M.Number.kind (pos y))) };

    fn cast_rgb_u8(x: [u8; 3]) -> [M::Number; 4] {
        cast_with_alpha(x)
    }

    fn cast_rgb_u16(x: [u16; 3]) -> [M::Number; 4] {
        cast_with_alpha(x)
    }

    fn cast_rgba_u8(x: [u8; 4]) -> [M::Number; 4] {
        cast_four(x)
    }

    fn cast_rgba_u16(x: [u16; 4]) -> [M::Number; 4] {
        cast_four(x)
    }
}
