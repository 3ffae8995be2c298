//! Extensions of materials, textures, nodes, views and metadata that the loader keeps as JSON, as
//! plain structs for C. Each is read from its JSON value when it is asked for, by the table and the
//! rules of `gltf_extension_records`. Nothing here has a pointer.
#![tactic(auto)]

pub mod material;
pub mod metadata;
pub mod node;
pub mod reading;
pub mod texture;
mod uses;
pub mod view;
