//! What an open file holds besides its records, for C: buffers, accessors and images as structs,
//! where their bytes lie, the items of accessors as bytes, and lists of numbers.
#![tactic(auto)]

pub mod info;
pub mod lists;
pub mod place;
pub mod read;
mod shape;
