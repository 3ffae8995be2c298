//! What is read of files that are converted there and back: of the container of a set of files, and
//! of the set of files of a container.
#![tactic(auto)]

pub mod laws;
