//! Readers of the items that meshes, skins and animations name.
#![tactic(auto)]

pub mod animation;
pub mod laws;
pub mod mesh;
mod morph_targets;
pub mod skin;
mod table;
pub mod typed;
