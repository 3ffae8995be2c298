//! Any file of glTF 2.0 written anew as one GLB container, whose import is that of the file.
#![tactic(auto)]

pub mod laws;
mod packing;

pub use packing::{container, repack};
