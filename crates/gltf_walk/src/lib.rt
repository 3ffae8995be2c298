//! Walks over the nodes of a scene: parents before children, each node once, also where a file lets
//! nodes share children or be their own ancestors.
#![tactic(auto)]

pub mod laws;
mod marks;
mod step;
mod walking;

pub use step::Step;
pub use walking::{walk, walk_scene};
