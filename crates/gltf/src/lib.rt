//! glTF 2.0, loaded, checked and proved: after the Rust crate `gltf`.
#![tactic(auto)]

pub mod binary;
pub mod buffer;
mod document;
mod file;
mod imports;
mod items;
pub mod iter;
pub mod json;
pub mod khr_materials_variants;
pub mod laws;
mod layers;
mod listing;
mod primitives;
mod reading;
pub mod texture;

pub use accessor::Accessor;
pub use animation::Animation;
pub use buffer::Buffer;
pub use camera::Camera;
pub use document::{Document, RawDocument};
pub use file::{Gltf, RawGltf};
pub use gltf_data::{accessor, list};
pub use gltf_glb::{Error, Glb, Result};
pub use gltf_look::{camera, image, khr_lights_punctual};
pub use gltf_material::material;
pub use gltf_names::{Folder, Name, NamedBytes, NamedFault, Shelf};
pub use gltf_read::{animation, mesh, skin, typed};
pub use gltf_rules::{Records, Refused, Valid};
pub use gltf_scene::scene;
pub use image::Image;
pub use imports::{
    base_of, import, import_buffers, import_buffers_from, import_each_buffer,
    import_each_buffer_from, import_from, import_slice,
};
pub use items::{imported_items, read_items};
pub use layers::{owned_blob, text_and_blob, text_and_blob_of};
pub use material::Material;
pub use mesh::{Attribute, Mesh, Primitive, Semantic};
pub use primitives::{imported_indices, imported_positions, read_indices, read_positions};
pub use reading::read_file;
pub use scene::{Node, Scene};
pub use skin::Skin;
pub use texture::Texture;
