//! The files that the jobs of `gltf_bench` are done on: made of templates and a seed, and made anew
//! by a few digits and bytes.
#![tactic(auto)]

pub mod awkward;
pub mod blob;
pub mod character;
pub mod random;
mod records;
pub mod rising;
pub mod scene;
mod template;
pub mod text;
mod views;
