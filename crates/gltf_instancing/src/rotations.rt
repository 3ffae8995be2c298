//! Rotations, by the type of their components.
use gltf_data::accessor::Iter;
use gltf_items::F32;

/// The rotations of instances, as quaternions x, y, z, w.
#[derive(Clone, Debug, Drop)]
pub enum Rotations<'s> {
    /// Signed fractions of one byte.
    I8(Iter<'s, [i8; 4]>),
    /// Signed fractions of two bytes.
    I16(Iter<'s, [i16; 4]>),
    /// Floats.
    F32(Iter<'s, [F32; 4]>),
}
