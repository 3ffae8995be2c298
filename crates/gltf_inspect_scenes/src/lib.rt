//! What the standard says of nodes and animations, of several records at once: nodes with skins and
//! meshes, weights, and the outputs of samplers.
#![tactic(auto)]

pub mod animation;
mod list;
mod node;
mod output;
pub mod scenes;
