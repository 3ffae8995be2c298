//! Documents of files by their paths, whose buffers share the bytes of the files that they name.
#![tactic(auto)]

mod import;
mod inside;
mod mended;

pub use import::import_shared;
pub use inside::{InsideUpTo, Outsider};
pub use mended::{SharedImport, import_shared_with};
