//! A report as JSON, written straight from the findings.
#![tactic(auto)]

mod info;
pub mod text;
mod tokens;
