//! Texture coordinates that were read, and their casts (glTF 2.0, section 3.7.2.1, "Meshes:
//! Overview", `TEXCOORD_n`).

ghost use Rattle.gltf_casting.specs.Casting.{IsCastUnlessFloats};

use crate::castable::{Castable, Step, Tally};
use crate::casting::Casting;
use crate::floats::MaybeFloats;
use crate::step::take;
pub use gltf_cast::tex_coords::{Cast, U8, U16};
use gltf_data::accessor::Iter;
use gltf_items::F32;

/// Texture coordinates, in pairs, by the type of their numbers.
#[derive(Clone, Debug, Drop)]
pub enum ReadTexCoords<'a> {
    /// Normalized integers of one byte.
    U8(Iter<'a, [u8; 2]>),
    /// Normalized integers of two bytes.
    U16(Iter<'a, [u16; 2]>),
    /// Floats.
    F32(Iter<'a, [F32; 2]>),
}

/// Texture coordinates, each pair cast by `A`.
pub type CastingIter<'a, A> = Casting<ReadTexCoords<'a>, A>;

impl<'a> ReadTexCoords<'a> {
    ghost use Rattle.gltf_casting.specs.TexCoords.{is_float};

    /// Casts them to numbers of one byte. Floats are not cast, and come back as they are.
    pub fn into_u8(self) -> Result<CastingIter<'a, U8>, Self>
        ensures { IsCastUnlessFloats (is_float self.entry) self.entry result }
    {
        Casting::unless_floats(self)
    }

    /// Casts them to numbers of two bytes. Floats are not cast, and come back as they are.
    pub fn into_u16(self) -> Result<CastingIter<'a, U16>, Self>
        ensures { IsCastUnlessFloats (is_float self.entry) self.entry result }
    {
        Casting::unless_floats(self)
    }
}

impl<'a> MaybeFloats for ReadTexCoords<'a> {
    ghost use Rattle.gltf_casting.specs.TexCoords.{is_float};

    ghost are_floats = { is_float };

    fn are_floats(&self) -> bool {
        matches!(self, ReadTexCoords::F32(_))
    }
}

#[tactic(auto, using(crate::proofs::Maps::maps))]
impl<'a, A: Cast> Castable<A> for ReadTexCoords<'a> {
    ghost use Rattle.gltf_casting.specs.TexCoords.{cast_tex_coords};

    type Output = A::Output;

    ghost cast_items = { cast_tex_coords A.of_u8 A.of_u16 };

    fn cast_step(&mut self, step: Step) -> Option<A::Output> {
        match self {
            ReadTexCoords::U8(items) => Some(A::cast_u8(take(items, step)?)),
            ReadTexCoords::U16(items) => Some(A::cast_u16(take(items, step)?)),
            ReadTexCoords::F32(_) => None,
        }
    }

    fn tally(&self) -> Tally {
        match self {
            ReadTexCoords::U8(items) => Tally::of(items),
            ReadTexCoords::U16(items) => Tally::of(items),
            ReadTexCoords::F32(_) => Tally::zero(),
        }
    }
}
