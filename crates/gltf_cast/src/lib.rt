//! Casts of normalized integers: of whole numbers that stand for fractions, in colours, texture
//! coordinates, weights and rotations, to another type of such numbers; and of indices and joints,
//! which keep their value.
#![tactic(auto)]

mod arrays;
pub mod colors;
pub mod indices;
pub mod joints;
pub mod laws;
mod markers;
pub mod morph_target_weights;
mod number;
pub mod rotations;
mod source;
pub mod tex_coords;
pub mod weights;

pub use markers::Marker;
pub use number::Number;
