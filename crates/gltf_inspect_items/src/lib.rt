//! What the standard forbids in the items of accessors, or what may be of interest in them: checks
//! over a document and the bytes of its buffers.
#![tactic(auto)]

mod attribute;
mod found;
mod indices;
pub mod inspect;
pub mod kept;
pub mod laws;
pub mod members;
pub mod number;
pub mod part;
pub mod plan;
pub mod read;
