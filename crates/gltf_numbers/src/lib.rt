//! Numbers of JSON members: factors, colours, matrices, angles. The records keep such a member as
//! the JSON value that it is, and handles lend it so. Here it comes as doubles.
//!
//! A number is the nearest double to its decimal text, as `serde_json` reads it. Nothing is
//! computed: no colour is converted, no quaternion normalized, no matrix decomposed, and no range
//! checked. Where a member is absent, its number is the default that the standard states.
#![tactic(auto)]

pub mod camera;
pub mod defaults;
pub mod khr_lights_punctual;
pub mod material;
mod of_handles;
pub mod scene;
pub mod texture;
mod value;

pub use of_handles::Numbers;
pub use value::{number, number_if, number_list, number_or, numbers, numbers_or};
