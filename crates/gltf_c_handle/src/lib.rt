//! What C holds of a file: opening and closing it, bytes for its buffers, and how calls lend it.
//!
//! None asks anything of its arguments: what a caller has to keep is what C cannot say in a type,
//! and stands in the header.
#![tactic(auto)]

pub mod ask;
mod bare;
mod given;
pub mod handle;
pub mod open;
