//! Tests of what code alone can try of the loader: callers and items of their own, iterators by
//! their traits, records that are changed in code, and copies. All else is tried by the programs of
//! cases.
#![tactic(auto)]

pub mod laws;
#[cfg(test)]
mod tests;
