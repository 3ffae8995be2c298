//! Extensions that the loader keeps as JSON, as typed handles of a valid document: materials,
//! other images of textures, instances, visibility, compressed views, metadata.
//!
//! A getter reads the extension when it is called, from the JSON value that the loader keeps
//! (`extension_value`). It gives None where the record has no such extension, and a fault where
//! that is not of its form. Each index that a handle gives has its referent: one that is not below
//! the length of its list is a fault.
#![tactic(auto)]

mod fault;
mod handle;
mod material;
mod metadata;
mod names;
mod node;
mod part;
pub mod prelude;
mod reading;
mod texture;
mod view;

pub use fault::ExtensionFault;
pub use handle::Handle;
pub use material::{anisotropy, clearcoat, diffuse_transmission, dispersion, iridescence, sheen};
pub use metadata::{animation_pointer, xmp_packet, xmp_packets};
pub use names::supported;
pub use node::{mesh_gpu_instancing, node_visibility};
pub use reading::{read, read_handle};
pub use texture::{basisu, normal_texture_transform, occlusion_texture_transform, webp};
pub use view::meshopt_compression;
