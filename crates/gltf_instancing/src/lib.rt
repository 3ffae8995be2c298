//! The transformations of the instances of a mesh (the extension `EXT_mesh_gpu_instancing`), read
//! from the accessors that its handle has.
#![tactic(auto)]

mod reader;
mod rotations;

pub use reader::{read_rotations, read_scales, read_translations};
pub use rotations::Rotations;
