//! What the standard says of the values that accessors hold: of floats, of stated minima and
//! maxima, of sparse indices, and of the times of animations.
#![tactic(auto)]

mod accessors;
mod bounds;
mod component;
mod extent;
pub mod inspect;
mod item;
mod kept;
pub mod laws;
mod stored;
mod summary;
mod times;
mod walk;
