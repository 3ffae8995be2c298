//! What an open handle holds.

use gltf::Document;
use gltf::buffer::Data;

/// A document that breaks no rule, and the bytes of its buffers, by index.
#[derive(Drop)]
pub struct File {
    /// The document, without the names of `extensionsRequired` that the caller handles.
    pub document: Document,
    /// The bytes of its buffers. One that waits for its bytes has none.
    pub buffers: Vec<Data>,
    /// Which buffers wait for their bytes, by index.
    pub waiting: Vec<bool>,
    /// Whether each has as many bytes as it declares, the zeros after them not counted.
    pub exact: bool,
}
