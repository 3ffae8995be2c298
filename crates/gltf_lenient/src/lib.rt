//! Documents that are mended before they are read: files of today that the calls of `gltf` refuse,
//! since an extension says what the format itself asks for (glTF 2.0, section 3.12, "Specifying
//! Extensions").
//!
//! The document of such a call is the one of the file's JSON value as it is mended, without the
//! names in `extensionsRequired` that the caller handles. All rules are checked of it. With nothing
//! to mend the answers are those of `gltf_options` with the same names ([`laws`]).
#![tactic(auto)]

mod file;
mod imports;
pub mod laws;
mod options;
mod records;

pub use file::{from_bytes_with, from_reader_with, from_slice_with};
pub use gltf_mend::Mends;
pub use gltf_options::{Imported, Opened};
pub use imports::{import_bytes_with, import_from_with, import_slice_with, import_with};
pub use options::Options;
