//! Textures, how they are sampled, and their uses (glTF 2.0, section 3.8, "Texture Data").
pub use gltf_look::texture::{MagFilter, MinFilter, Sampler, Texture, WrappingMode};
pub use gltf_material::texture::{Info, TextureTransform};
