//! The attributes of vertices as integers (the extension `KHR_mesh_quantization`): positions,
//! normals, tangents and texture coordinates as they are stored, with whether they are normalized.
//!
//! The integers are exact: nothing is computed of them. An attribute is read here exactly where the
//! extension adds its type, and where the accessor's parts are there; floats, and the normalized
//! texture coordinates that glTF itself allows, are left to the readers of `gltf`.
#![tactic(auto)]

mod accepted;
mod integers;
mod quantized;
mod reader;

pub use accepted::QuantizedAttribute;
pub use integers::Integers;
pub use quantized::Quantized;
pub use reader::{
    read_normals, read_positions, read_tangents, read_tex_coords, read_vec2s, read_vec3s,
    read_vec4s,
};
