//! The records of extensions that the loader keeps as JSON, each read from its JSON value by a
//! table, and the rules of their indices.
//!
//! Numbers come as the nearest doubles, with the defaults that the extensions state. Members that
//! no table names are ignored. No record takes memory, but for a text that it owns.
#![tactic(auto)]

pub mod defaults;
pub mod material;
pub mod members;
pub mod node;
pub mod number;
pub mod others;
pub mod texture;
pub mod view;
