//! What the standard forbids in a document, or what may be of interest in it: checks over its
//! records, whether the rules of loading hold or not.
#![tactic(auto)]

mod asset;
mod extensions;
pub mod inspect;
pub mod laws;
mod parents;
mod refusal;
mod unused;
