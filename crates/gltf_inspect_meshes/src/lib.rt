//! What the standard says of meshes, of several records at once: the formats and sets of
//! attributes, modes, texture coordinates, and morph targets.
#![tactic(auto)]

mod coords;
pub mod format;
pub mod item;
mod list;
pub mod meaning;
mod mesh;
pub mod meshes;
mod mode;
pub mod names;
mod sets;
pub mod target;
pub mod weights;
