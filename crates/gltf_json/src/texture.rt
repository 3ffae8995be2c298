//! Textures, how they are sampled, and how materials use them (glTF 2.0, sections 5.26, 5.29 and
//! 5.30).
pub use gltf_json_material::texture::Info;
pub use gltf_json_scene::texture::{MagFilter, MinFilter, Sampler, Texture, WrappingMode};
