//! GLB containers (glTF 2.0, section 4.4, "Binary glTF Layout").
pub use gltf_glb::binary::{ChunkType, Error, Glb, Header};
