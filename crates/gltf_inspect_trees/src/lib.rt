//! The trees of nodes: the skeletons of skins (glTF 2.0, section 3.7.3.2).
#![tactic(auto)]

mod climb;
mod depths;
mod jumps;
pub mod skeleton;
mod trees;
