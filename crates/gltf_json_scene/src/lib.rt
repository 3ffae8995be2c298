//! What a document says of itself, its cameras, images, nodes, scenes, skins and textures, and the
//! lights and variants of its extensions, read from JSON.
#![tactic(auto)]

pub mod asset;
pub mod camera;
pub mod extensions;
pub mod image;
pub mod scene;
pub mod skin;
pub mod texture;
