//! What the extensions add to the records, by the record at which they stand.
pub mod root;

pub use gltf_json_geometry::extensions::mesh;
pub use gltf_json_geometry::extensions::mesh::Primitive;
pub use gltf_json_material::extensions::material::Material;
pub use gltf_json_material::extensions::texture::Info;
pub use gltf_json_material::extensions::{material, texture};
pub use gltf_json_record::extensions::Others;
pub use gltf_json_scene::extensions::scene;
pub use gltf_json_scene::extensions::scene::Node;
pub use root::Root;
