//! One number of all results of the jobs of `gltf_bench`: what each result adds to it, all of it,
//! and a mark for each member that is absent.
#![tactic(auto)]

mod animation;
pub mod digest;
mod document;
pub mod errors;
mod geometry;
mod items;
mod looks;
mod members;
mod scene;
mod values;
