//! What is read of meshes and animations, as items of one of several types, and iterators that cast
//! each item to one type while they go.
#![tactic(auto)]

pub mod animation;
pub mod castable;
mod casting;
pub mod colors;
mod floats;
pub mod indices;
pub mod joints;
pub mod mesh;
pub mod morph_target_weights;
mod outputs;
pub mod rotations;
pub mod skin;
mod step;
mod tally;
pub mod tex_coords;
pub mod weights;

pub use casting::Casting;
