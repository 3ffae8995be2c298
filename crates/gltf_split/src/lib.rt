//! Any file of glTF 2.0 as JSON text with a file for each buffer and for each image beside it.
#![tactic(auto)]

mod images;
pub mod laws;
mod left;
mod options;
mod splitting;
mod views;

pub use options::SplitOptions;
pub use splitting::{Pieces, split, split_with};
