//! Which nodes are found to be on loops, which joints to have no common root, and which skeletons
//! to be invalid.
#![tactic(auto)]

pub mod laws;
