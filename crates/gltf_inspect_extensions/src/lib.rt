//! The extensions that are used in a document, and whether it declares them (glTF 2.0, section
//! 3.12).
#![tactic(auto)]

mod extended;
mod material;
mod record;
pub mod root;
