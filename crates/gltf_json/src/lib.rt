//! The records of a glTF document, read from JSON: every record under the path that the Rust crate
//! `gltf-json` has it at.
#![tactic(auto)]

pub mod extensions;
pub mod laws;
pub mod root;
pub mod texture;

pub use gltf_json_animation::animation;
pub use gltf_json_animation::animation::Animation;
pub use gltf_json_geometry::accessor::Accessor;
pub use gltf_json_geometry::buffer::Buffer;
pub use gltf_json_geometry::mesh::Mesh;
pub use gltf_json_geometry::{accessor, buffer, mesh};
pub use gltf_json_material::material;
pub use gltf_json_material::material::Material;
pub use gltf_json_record::error::{Error, RecordFault};
pub use gltf_json_record::extras::Extras;
pub use gltf_json_record::index::Index;
pub use gltf_json_record::path::Path;
pub use gltf_json_record::{boxed, error, extras, index, kinds, path, validation};
pub use gltf_json_scene::asset::Asset;
pub use gltf_json_scene::camera::Camera;
pub use gltf_json_scene::image::Image;
pub use gltf_json_scene::scene::{Node, Scene};
pub use gltf_json_scene::skin::Skin;
pub use gltf_json_scene::texture::Texture;
pub use gltf_json_scene::{asset, camera, image, scene, skin};
pub use root::Root;
pub use serde_json::{Map, Value};
