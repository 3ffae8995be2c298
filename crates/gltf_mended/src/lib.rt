//! What mending leaves of a document: which of its members, what becomes of them behind it, and
//! which documents it leaves whole.
#![tactic(auto)]

pub mod laws;
