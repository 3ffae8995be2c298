//! Handles of the images, textures, samplers, cameras, lights and variants of a valid document, and
//! their lists. A handle borrows its document: it is made, copied and dropped without memory, and
//! no getter takes memory or can fail.
#![tactic(auto)]

pub mod camera;
pub mod image;
pub mod iter;
pub mod khr_lights_punctual;
pub mod khr_materials_variants;
pub mod texture;
