//! Materials, textures, samplers, cameras, lights and views of a document as plain structs for C,
//! and the further texts and the JSON of records. Nothing here has a pointer.
//!
//! A member of numbers has the default of the standard where it is absent, and also where it is no
//! number, or no list of as many numbers: no rule refuses such a file.
#![tactic(auto)]

pub mod camera;
pub mod json;
pub mod light;
pub mod material;
pub mod number;
pub mod text;
pub mod texture;
pub mod uses;
pub mod view;
