//! Accessors whose items are read out of the same bytes in the same way, so that these are gone
//! over once; and the accessors whose items are left out, where those of all are too many.
#![tactic(auto)]

pub mod budget;
pub mod firsts;
pub mod laws;
mod range;
