//! Indices of vertices that were read, and their casts (glTF 2.0, section 3.7.2.1, "Meshes:
//! Overview", `indices`).

ghost use Rattle.std.specs.Prelude.{◌≡◌};

use crate::castable::{Castable, Step, Tally};
use crate::casting::Casting;
use crate::step::take;
pub use gltf_cast::indices::{Cast, U32};
use gltf_data::accessor::Iter;

/// Indices of vertices, by their type.
#[derive(Clone, Debug, Drop)]
pub enum ReadIndices<'a> {
    /// Of one byte.
    U8(Iter<'a, u8>),
    /// Of two bytes.
    U16(Iter<'a, u16>),
    /// Of four bytes.
    U32(Iter<'a, u32>),
}

/// Indices of vertices, each cast by `A`.
pub type CastingIter<'a, A> = Casting<ReadIndices<'a>, A>;

impl<'a> ReadIndices<'a> {
    /// Casts them to four bytes, which hold every index.
    pub fn into_u32(self) -> CastingIter<'a, U32>
        ensures { result ≡ self.entry }
    {
        Casting::new(self)
    }
}

#[tactic(auto, using(crate::proofs::Maps::maps))]
impl<'a, A: Cast> Castable<A> for ReadIndices<'a> {
    ghost use Rattle.gltf_casting.specs.Indices.{cast_indices};

    type Output = A::Output;

    ghost cast_items = { cast_indices A.of_u8 A.of_u16 A.of_u32 };

    fn cast_step(&mut self, step: Step) -> Option<A::Output> {
        match self {
            ReadIndices::U8(items) => Some(A::cast_u8(take(items, step)?)),
            ReadIndices::U16(items) => Some(A::cast_u16(take(items, step)?)),
            ReadIndices::U32(items) => Some(A::cast_u32(take(items, step)?)),
        }
    }

    fn tally(&self) -> Tally {
        match self {
            ReadIndices::U8(items) => Tally::of(items),
            ReadIndices::U16(items) => Tally::of(items),
            ReadIndices::U32(items) => Tally::of(items),
        }
    }
}
