//! Cases: what a line asks, and what it is answered where that takes no document: texts, bytes, and
//! walks over items. `gltf_cases` prints these, and answers calls on files. It, `gltf_use_cases`
//! and `gltf_caller_cases` share the rest.
#![tactic(auto)]

pub mod asked;
pub mod bytes;
pub mod iterators;
pub mod members;
pub mod refused;
pub mod shelf;
pub mod shown;
pub mod steps;
pub mod texts;
pub mod types;
