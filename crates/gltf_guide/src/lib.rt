//! The code of docs/LIBRARY.md, so that the gate proves and compiles it. Each block of that page
//! stands here as it is there, with `pub` before each function; `tools/copies.sh` compares.
#![tactic(auto)]

pub mod bytes;
pub mod documents;
pub mod extensions;
pub mod scenes;
