//! Records of a document as plain structs, lists and numbers for C: meshes, nodes, scenes, skins
//! and animations, and what all kinds of records have. Nothing here has a pointer.
//!
//! All functions are over the record of a document, and return `None` where nothing has the index.
#![tactic(auto)]

pub mod animation;
pub mod attribute;
pub mod kind;
pub mod mesh;
pub mod name;
pub mod node;
pub mod numbers;
pub mod skin;
pub mod variant;
