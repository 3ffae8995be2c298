//! Meshes, nodes, scenes and skins as handles of a valid document. A handle borrows its document:
//! it is made, copied and dropped without memory.
#![tactic(auto)]

pub mod iter;
pub mod laws;
pub mod mesh;
pub mod scene;
pub mod skin;
