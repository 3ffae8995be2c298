//! All that a program uses of this crate: `use gltf_extensions::prelude::*;`.

pub use crate::{
    ExtensionFault, Handle, animation_pointer, anisotropy, basisu, clearcoat, diffuse_transmission,
    dispersion, iridescence, mesh_gpu_instancing, meshopt_compression, node_visibility,
    normal_texture_transform, occlusion_texture_transform, read, read_handle, sheen, supported,
    webp, xmp_packet, xmp_packets,
};
