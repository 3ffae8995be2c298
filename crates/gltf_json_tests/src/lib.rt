//! Tests of documents that are read from texts: each made text is read by `from_slice`, which makes
//! one pass over the tokens, and by way of a tree of JSON values. Both have to say the same.
#![tactic(auto)]

#[cfg(test)]
mod fault_tests;
#[cfg(test)]
mod tests;
