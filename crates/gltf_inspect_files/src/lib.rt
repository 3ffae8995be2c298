//! What is found in a file: where it is refused, why; in its records; and in its items.
#![tactic(auto)]

mod buffer;
mod container;
mod contents;
pub mod inspect;
mod join;
pub mod laws;
mod layers;
pub mod lent;
mod text;
mod unkept;
