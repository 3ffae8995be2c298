//! Rotations that were read, and their casts (glTF 2.0, section 3.11, "Animations").

ghost use Rattle.gltf_casting.specs.Casting.{IsCastUnlessFloats};

use crate::castable::{Castable, Step, Tally};
use crate::casting::Casting;
use crate::floats::MaybeFloats;
use crate::step::take;
pub use gltf_cast::rotations::{Cast, I8, I16, U8, U16};
use gltf_data::accessor::Iter;
use gltf_items::F32;

/// Rotations, each the four numbers x, y, z, w of a quaternion, by the type of these.
#[derive(Clone, Debug, Drop)]
pub enum Rotations<'a> {
    /// Normalized integers of one byte with a sign.
    I8(Iter<'a, [i8; 4]>),
    /// Normalized integers of one byte.
    U8(Iter<'a, [u8; 4]>),
    /// Normalized integers of two bytes with a sign.
    I16(Iter<'a, [i16; 4]>),
    /// Normalized integers of two bytes.
    U16(Iter<'a, [u16; 4]>),
    /// Floats.
    F32(Iter<'a, [F32; 4]>),
}

/// Rotations, each cast by `A`.
pub type CastingIter<'a, A> = Casting<Rotations<'a>, A>;

impl<'a> Rotations<'a> {
    ghost use Rattle.gltf_casting.specs.Rotations.{is_float};

    /// Casts them to numbers of one byte with a sign. Floats are not cast, and come back as they
    /// are.
    pub fn into_i8(self) -> Result<CastingIter<'a, I8>, Self>
        ensures { IsCastUnlessFloats (is_float self.entry) self.entry result }
    {
        Casting::unless_floats(self)
    }

    /// Casts them to numbers of one byte. Floats are not cast, and come back as they are.
    pub fn into_u8(self) -> Result<CastingIter<'a, U8>, Self>
        ensures { IsCastUnlessFloats (is_float self.entry) self.entry result }
    {
        Casting::unless_floats(self)
    }

    /// Casts them to numbers of two bytes with a sign. Floats are not cast, and come back as they
    /// are.
    pub fn into_i16(self) -> Result<CastingIter<'a, I16>, Self>
        ensures { IsCastUnlessFloats (is_float self.entry) self.entry result }
    {
        Casting::unless_floats(self)
    }

    /// Casts them to numbers of two bytes. Floats are not cast, and come back as they are.
    pub fn into_u16(self) -> Result<CastingIter<'a, U16>, Self>
        ensures { IsCastUnlessFloats (is_float self.entry) self.entry result }
    {
        Casting::unless_floats(self)
    }
}

impl<'a> MaybeFloats for Rotations<'a> {
    ghost use Rattle.gltf_casting.specs.Rotations.{is_float};

    ghost are_floats = { is_float };

    fn are_floats(&self) -> bool {
        matches!(self, Rotations::F32(_))
    }
}

#[tactic(auto, using(crate::proofs::Maps::maps))]
impl<'a, A: Cast> Castable<A> for Rotations<'a> {
    ghost use Rattle.gltf_casting.specs.Rotations.{cast_rotations};

    type Output = A::Output;

    ghost cast_items = { cast_rotations A.of_i8 A.of_u8 A.of_i16 A.of_u16 };

    fn cast_step(&mut self, step: Step) -> Option<A::Output> {
        match self {
            Rotations::I8(items) => Some(A::cast_i8(take(items, step)?)),
            Rotations::U8(items) => Some(A::cast_u8(take(items, step)?)),
            Rotations::I16(items) => Some(A::cast_i16(take(items, step)?)),
            Rotations::U16(items) => Some(A::cast_u16(take(items, step)?)),
            Rotations::F32(_) => None,
        }
    }

    fn tally(&self) -> Tally {
        match self {
            Rotations::I8(items) => Tally::of(items),
            Rotations::U8(items) => Tally::of(items),
            Rotations::I16(items) => Tally::of(items),
            Rotations::U16(items) => Tally::of(items),
            Rotations::F32(_) => Tally::zero(),
        }
    }
}
