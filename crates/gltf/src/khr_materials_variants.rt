//! Variants of materials, and their mappings (the extension `KHR_materials_variants`).
pub use gltf_look::khr_materials_variants::Variant;
pub use gltf_material::khr_materials_variants::Mapping;
