//! Any file of glTF 2.0 with the bytes of its buffers and images as one GLB container.
#![tactic(auto)]

mod bundling;
mod error;
mod images;
mod joining;
pub mod laws;
mod loading;
mod media;
mod options;
mod trial;

pub use bundling::{bundle, bundle_with};
pub use error::BundleError;
pub use gltf_required::Required;
pub use images::{image_bytes, images_of, text_at};
pub use loading::{Loaded, load, load_with};
pub use media::{begun_media, named_media};
pub use options::{BundleOptions, Keep};
