//! What the messages of a report say: the sentence of a code, with what was found and what was
//! wanted, and where it stands.
#![tactic(auto)]

mod kinds;
pub mod message;
mod pointer;
pub mod told;
