//! The reading of a glTF document from a JSON value and from JSON text. It stands apart from the
//! records, so that its wrong bodies need not have those proved again.
#![tactic(auto)]

pub mod deserialize;
