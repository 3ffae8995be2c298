//! The records of materials and of the textures that they use (glTF 2.0, sections 5.19 to 5.22 and
//! 5.30), with the extensions that are known at them.
#![tactic(auto)]

pub mod extensions;
pub mod material;
pub mod texture;
