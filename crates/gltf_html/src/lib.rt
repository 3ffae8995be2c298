//! Text in HTML pages: between tags and in attributes, and JSON text in a script.
#![tactic(auto)]

pub mod escape;
pub mod laws;
