//! What is read of a document whose buffers and images are in files of their own.
#![tactic(auto)]

pub mod laws;
