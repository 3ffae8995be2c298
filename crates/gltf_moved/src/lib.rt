//! What is read of a document whose images went into buffers of their own, and whose buffers became
//! one.
#![tactic(auto)]

pub mod laws;
