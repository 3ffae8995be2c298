//! What is read of a document with fewer views and shorter buffers.
#![tactic(auto)]

pub mod laws;
