//! What an open handle of the library for C holds: a document, and the bytes of its buffers, of
//! which some may wait for bytes that other files have.
#![tactic(auto)]

mod buffers;
pub mod file;
pub mod given;
mod length;
pub mod names;
pub mod open;
pub mod refusal;
pub mod wanted;
