//! The rules between the records of a document, and the walk that reports the broken ones.
#![tactic(auto)]

mod accessor;
mod animation;
mod buffer;
mod camera;
pub mod counts;
pub mod error;
mod image;
pub mod laws;
mod light;
pub mod location;
mod material;
mod members;
mod mesh;
pub mod report;
pub mod root;
mod scene;
mod skin;
mod texture;
pub mod validate;
