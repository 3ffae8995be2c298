//! Weights of morph targets that were read, and their casts (glTF 2.0, section 3.11, "Animations").

ghost use Rattle.gltf_casting.specs.Casting.{IsCastUnlessFloats};

use crate::castable::{Castable, Step, Tally};
use crate::casting::Casting;
use crate::floats::MaybeFloats;
use crate::step::take;
pub use gltf_cast::morph_target_weights::{Cast, I8, I16, U8, U16};
use gltf_data::accessor::Iter;
use gltf_items::F32;

/// Weights of morph targets, by their type.
#[derive(Clone, Debug, Drop)]
pub enum MorphTargetWeights<'a> {
    /// Normalized integers of one byte with a sign.
    I8(Iter<'a, i8>),
    /// Normalized integers of one byte.
    U8(Iter<'a, u8>),
    /// Normalized integers of two bytes with a sign.
    I16(Iter<'a, i16>),
    /// Normalized integers of two bytes.
    U16(Iter<'a, u16>),
    /// Floats.
    F32(Iter<'a, F32>),
}

/// Weights of morph targets, each cast by `A`.
pub type CastingIter<'a, A> = Casting<MorphTargetWeights<'a>, A>;

impl<'a> MorphTargetWeights<'a> {
    ghost use Rattle.gltf_casting.specs.MorphTargetWeights.{is_float};

    /// Casts them to numbers of one byte with a sign. Floats are not cast, and come back as they
    /// are.
    pub fn into_i8(self) -> Result<CastingIter<'a, I8>, Self>
        ensures { IsCastUnlessFloats (is_float self.entry) self.entry result }
    {
        Casting::unless_floats(self)
    }

    /// Casts them to numbers of one byte. Floats are not cast, and come back as they are.
    pub fn into_u8(self) -> Result<CastingIter<'a, U8>, Self>
        ensures { IsCastUnlessFloats (is_float self.entry) self.entry result }
    {
        Casting::unless_floats(self)
    }

    /// Casts them to numbers of two bytes with a sign. Floats are not cast, and come back as they
    /// are.
    pub fn into_i16(self) -> Result<CastingIter<'a, I16>, Self>
        ensures { IsCastUnlessFloats (is_float self.entry) self.entry result }
    {
        Casting::unless_floats(self)
    }

    /// Casts them to numbers of two bytes. Floats are not cast, and come back as they are.
    pub fn into_u16(self) -> Result<CastingIter<'a, U16>, Self>
        ensures { IsCastUnlessFloats (is_float self.entry) self.entry result }
    {
        Casting::unless_floats(self)
    }
}

impl<'a> MaybeFloats for MorphTargetWeights<'a> {
    ghost use Rattle.gltf_casting.specs.MorphTargetWeights.{is_float};

    ghost are_floats = { is_float };

    fn are_floats(&self) -> bool {
        matches!(self, MorphTargetWeights::F32(_))
    }
}

#[tactic(auto, using(crate::proofs::Maps::maps))]
impl<'a, A: Cast> Castable<A> for MorphTargetWeights<'a> {
    ghost use Rattle.gltf_casting.specs.MorphTargetWeights.{cast_morph_target_weights};

    type Output = A::Output;

    ghost cast_items = { cast_morph_target_weights A.of_i8 A.of_u8 A.of_i16 A.of_u16 };

    fn cast_step(&mut self, step: Step) -> Option<A::Output> {
        match self {
            MorphTargetWeights::I8(items) => Some(A::cast_i8(take(items, step)?)),
            MorphTargetWeights::U8(items) => Some(A::cast_u8(take(items, step)?)),
            MorphTargetWeights::I16(items) => Some(A::cast_i16(take(items, step)?)),
            MorphTargetWeights::U16(items) => Some(A::cast_u16(take(items, step)?)),
            MorphTargetWeights::F32(_) => None,
        }
    }

    fn tally(&self) -> Tally {
        match self {
            MorphTargetWeights::I8(items) => Tally::of(items),
            MorphTargetWeights::U8(items) => Tally::of(items),
            MorphTargetWeights::I16(items) => Tally::of(items),
            MorphTargetWeights::U16(items) => Tally::of(items),
            MorphTargetWeights::F32(_) => Tally::zero(),
        }
    }
}
