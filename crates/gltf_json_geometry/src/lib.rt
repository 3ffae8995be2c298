//! Records of the data of a glTF document: accessors, buffers and meshes.
#![tactic(auto)]

pub mod accessor;
pub mod attributes;
pub mod buffer;
pub mod extensions;
pub mod laws;
pub mod mesh;
pub mod semantic;
