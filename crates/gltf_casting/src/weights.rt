//! Weights of joints that were read, and their casts (glTF 2.0, section 3.7.3.3, "Skinned Mesh
//! Attributes", `WEIGHTS_n`).

ghost use Rattle.gltf_casting.specs.Casting.{IsCastUnlessFloats};

use crate::castable::{Castable, Step, Tally};
use crate::casting::Casting;
use crate::floats::MaybeFloats;
use crate::step::take;
pub use gltf_cast::weights::{Cast, U8, U16};
use gltf_data::accessor::Iter;
use gltf_items::F32;

/// Weights of joints, four for each vertex, by the type of their numbers.
#[derive(Clone, Debug, Drop)]
pub enum ReadWeights<'a> {
    /// Normalized integers of one byte.
    U8(Iter<'a, [u8; 4]>),
    /// Normalized integers of two bytes.
    U16(Iter<'a, [u16; 4]>),
    /// Floats.
    F32(Iter<'a, [F32; 4]>),
}

/// Weights of joints, four at a time, each cast by `A`.
pub type CastingIter<'a, A> = Casting<ReadWeights<'a>, A>;

impl<'a> ReadWeights<'a> {
    ghost use Rattle.gltf_casting.specs.Weights.{is_float};

    /// Casts them to numbers of one byte. Floats are not cast, and come back as they are.
    pub fn into_u8(self) -> Result<CastingIter<'a, U8>, Self>
        ensures { IsCastUnlessFloats (is_float self.entry) self.entry result }
    {
        Casting::unless_floats(self)
    }

    /// Casts them to numbers of two bytes. Floats are not cast, and come back as they are.
    pub fn into_u16(self) -> Result<CastingIter<'a, U16>, Self>
        ensures { IsCastUnlessFloats (is_float self.entry) self.entry result }
    {
        Casting::unless_floats(self)
    }
}

impl<'a> MaybeFloats for ReadWeights<'a> {
    ghost use Rattle.gltf_casting.specs.Weights.{is_float};

    ghost are_floats = { is_float };

    fn are_floats(&self) -> bool {
        matches!(self, ReadWeights::F32(_))
    }
}

#[tactic(auto, using(crate::proofs::Maps::maps))]
impl<'a, A: Cast> Castable<A> for ReadWeights<'a> {
    ghost use Rattle.gltf_casting.specs.Weights.{cast_weights};

    type Output = A::Output;

    ghost cast_items = { cast_weights A.of_u8 A.of_u16 };

    fn cast_step(&mut self, step: Step) -> Option<A::Output> {
        match self {
            ReadWeights::U8(items) => Some(A::cast_u8(take(items, step)?)),
            ReadWeights::U16(items) => Some(A::cast_u16(take(items, step)?)),
            ReadWeights::F32(_) => None,
        }
    }

    fn tally(&self) -> Tally {
        match self {
            ReadWeights::U8(items) => Tally::of(items),
            ReadWeights::U16(items) => Tally::of(items),
            ReadWeights::F32(_) => Tally::zero(),
        }
    }
}
