//! Records of extensions, by the records at which they stand.
pub mod mesh;
