//! JSON values, read from the tokens of a text one after the other. A caller that reads a record
//! from its tokens needs a [`serde_json::Value`] only of the members that stay JSON, as `extras`.
#![tactic(auto)]

pub mod build;
pub mod number;
