//! The report as JSON by way of a tree of all its messages, as it was made before, kept to be
//! compared with: that the text which is written straight from the findings is the same, on made
//! reports.
#![tactic(auto)]

mod kinds;
pub mod message;
#[cfg(test)]
mod tests;
pub mod tree;
