//! What is found in a document: codes with their severities, the tree of checks that a document
//! is held against, and the report of those that fail.
#![tactic(auto)]

pub mod code;
pub mod findings;
pub mod json;
pub mod laws;
pub mod report;
