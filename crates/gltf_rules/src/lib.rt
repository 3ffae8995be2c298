//! Documents that break no rule.
#![tactic(auto)]

pub mod kind;
pub mod laws;
mod lists;
mod records;
mod valid;

pub use gltf_validation::error as validation;
pub use lists::element;
pub use records::Records;
pub use valid::{Refused, Valid, validate};
