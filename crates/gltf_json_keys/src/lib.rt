//! Whether a JSON text can have a member of a name, found without making a JSON value of it.
#![tactic(auto)]

pub mod lacks;
pub mod parts;
