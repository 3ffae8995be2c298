//! Animations, read from JSON.
#![tactic(auto)]

pub mod animation;
