//! Colours that were read, and their casts (glTF 2.0, section 3.7.2.1, "Meshes: Overview",
//! `COLOR_n`).

ghost use Rattle.gltf_casting.specs.Casting.{IsCastUnlessFloats};

use crate::castable::{Castable, Step, Tally};
use crate::casting::Casting;
use crate::floats::MaybeFloats;
use crate::step::take;
pub use gltf_cast::colors::{Cast, RgbU8, RgbU16, RgbaU8, RgbaU16};
use gltf_data::accessor::Iter;
use gltf_items::F32;

/// Colours, by their components, red, green, blue and perhaps alpha, and by the type of these.
#[derive(Clone, Debug, Drop)]
pub enum ReadColors<'a> {
    /// Without alpha, in normalized integers of one byte.
    RgbU8(Iter<'a, [u8; 3]>),
    /// Without alpha, in normalized integers of two bytes.
    RgbU16(Iter<'a, [u16; 3]>),
    /// Without alpha, in floats.
    RgbF32(Iter<'a, [F32; 3]>),
    /// With alpha, in normalized integers of one byte.
    RgbaU8(Iter<'a, [u8; 4]>),
    /// With alpha, in normalized integers of two bytes.
    RgbaU16(Iter<'a, [u16; 4]>),
    /// With alpha, in floats.
    RgbaF32(Iter<'a, [F32; 4]>),
}

/// Colours, each cast by `A`.
pub type CastingIter<'a, A> = Casting<ReadColors<'a>, A>;

impl<'a> ReadColors<'a> {
    ghost use Rattle.gltf_casting.specs.Colors.{is_float};

    /// Casts them to three components of one byte: alpha is dropped. Floats are not cast, and come
    /// back as they are.
    pub fn into_rgb_u8(self) -> Result<CastingIter<'a, RgbU8>, Self>
        ensures { IsCastUnlessFloats (is_float self.entry) self.entry result }
    {
        Casting::unless_floats(self)
    }

    /// Casts them to three components of two bytes: alpha is dropped. Floats are not cast, and come
    /// back as they are.
    pub fn into_rgb_u16(self) -> Result<CastingIter<'a, RgbU16>, Self>
        ensures { IsCastUnlessFloats (is_float self.entry) self.entry result }
    {
        Casting::unless_floats(self)
    }

    /// Casts them to four components of one byte: without alpha it is 255. Floats are not cast, and
    /// come back as they are.
    pub fn into_rgba_u8(self) -> Result<CastingIter<'a, RgbaU8>, Self>
        ensures { IsCastUnlessFloats (is_float self.entry) self.entry result }
    {
        Casting::unless_floats(self)
    }

    /// Casts them to four components of two bytes: without alpha it is 65535. Floats are not cast,
    /// and come back as they are.
    pub fn into_rgba_u16(self) -> Result<CastingIter<'a, RgbaU16>, Self>
        ensures { IsCastUnlessFloats (is_float self.entry) self.entry result }
    {
        Casting::unless_floats(self)
    }
}

impl<'a> MaybeFloats for ReadColors<'a> {
    ghost use Rattle.gltf_casting.specs.Colors.{is_float};

    ghost are_floats = { is_float };

    fn are_floats(&self) -> bool {
        matches!(self, ReadColors::RgbF32(_) | ReadColors::RgbaF32(_))
    }
}

#[tactic(auto, using(crate::proofs::Maps::maps))]
impl<'a, A: Cast> Castable<A> for ReadColors<'a> {
    ghost use Rattle.gltf_casting.specs.Colors.{cast_colors};

    type Output = A::Output;

    ghost cast_items = { cast_colors A.of_rgb_u8 A.of_rgb_u16 A.of_rgba_u8 A.of_rgba_u16 };

    fn cast_step(&mut self, step: Step) -> Option<A::Output> {
        match self {
            ReadColors::RgbU8(items) => Some(A::cast_rgb_u8(take(items, step)?)),
            ReadColors::RgbU16(items) => Some(A::cast_rgb_u16(take(items, step)?)),
            ReadColors::RgbF32(_) => None,
            ReadColors::RgbaU8(items) => Some(A::cast_rgba_u8(take(items, step)?)),
            ReadColors::RgbaU16(items) => Some(A::cast_rgba_u16(take(items, step)?)),
            ReadColors::RgbaF32(_) => None,
        }
    }

    fn tally(&self) -> Tally {
        match self {
            ReadColors::RgbU8(items) => Tally::of(items),
            ReadColors::RgbU16(items) => Tally::of(items),
            ReadColors::RgbF32(_) => Tally::zero(),
            ReadColors::RgbaU8(items) => Tally::of(items),
            ReadColors::RgbaU16(items) => Tally::of(items),
            ReadColors::RgbaF32(_) => Tally::zero(),
        }
    }
}
