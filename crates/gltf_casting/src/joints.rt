//! Joints of vertices that were read, and their casts (glTF 2.0, section 3.7.3.3, "Skinned Mesh
//! Attributes", `JOINTS_n`).

ghost use Rattle.std.specs.Prelude.{◌≡◌};

use crate::castable::{Castable, Step, Tally};
use crate::casting::Casting;
use crate::step::take;
pub use gltf_cast::joints::{Cast, U16};
use gltf_data::accessor::Iter;

/// Joints of vertices, four for each vertex, by their type.
#[derive(Clone, Debug, Drop)]
pub enum ReadJoints<'a> {
    /// Of one byte each.
    U8(Iter<'a, [u8; 4]>),
    /// Of two bytes each.
    U16(Iter<'a, [u16; 4]>),
}

/// Joints of vertices, four at a time, each cast by `A`.
pub type CastingIter<'a, A> = Casting<ReadJoints<'a>, A>;

impl<'a> ReadJoints<'a> {
    /// Casts them to two bytes each, which hold every joint.
    pub fn into_u16(self) -> CastingIter<'a, U16>
        ensures { result ≡ self.entry }
    {
        Casting::new(self)
    }
}

#[tactic(auto, using(crate::proofs::Maps::maps))]
impl<'a, A: Cast> Castable<A> for ReadJoints<'a> {
    ghost use Rattle.gltf_casting.specs.Joints.{cast_joints};

    type Output = A::Output;

    ghost cast_items = { cast_joints A.of_u8 A.of_u16 };

    fn cast_step(&mut self, step: Step) -> Option<A::Output> {
        match self {
            ReadJoints::U8(items) => Some(A::cast_u8(take(items, step)?)),
            ReadJoints::U16(items) => Some(A::cast_u16(take(items, step)?)),
        }
    }

    fn tally(&self) -> Tally {
        match self {
            ReadJoints::U8(items) => Tally::of(items),
            ReadJoints::U16(items) => Tally::of(items),
        }
    }
}
