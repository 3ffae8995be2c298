//! Documents that require extensions which the caller handles: the calls of `gltf`, with a list of
//! names beside those that the loader supports (glTF 2.0, section 3.12, "Specifying Extensions").
//!
//! The document of such a call is the one of the file without these names in `extensionsRequired`.
//! All rules are checked of it, and the names that were left out come beside it, in their order. A
//! broken rule is told at its place in the file.
#![tactic(auto)]

mod besides;
mod broken;
mod file;
mod imports;
pub mod laws;
mod options;
mod split;

pub use besides::without_names;
pub use file::{Opened, from_bytes_with, from_reader_with, from_slice_with};
pub use imports::{Imported, import_bytes_with, import_from_with, import_slice_with, import_with};
pub use options::Options;
