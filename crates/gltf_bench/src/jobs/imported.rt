//! What a file is imported as: `gltf::import_slice`.
use gltf::buffer::Data;
use gltf::{Document, import_slice};
use gltf_bench_digest::digest::{Digest, Digested};
use gltf_bench_digest::errors::add_error;
use std::alloc::Global;

/// Imports a file from its bytes, and adds what it is, or why it is refused.
pub fn add_import(alloc: Global, bytes: &[u8], digest: &mut Digest) {
    match import_slice(alloc, bytes) {
        Ok((document, buffers)) => add_imported(&document, &buffers, digest),
        Err(error) => add_error(alloc, &error, digest),
    }
}

/// Adds a document, and the bytes of its buffers.
pub fn add_imported(document: &Document, buffers: &[Data], digest: &mut Digest) {
    document.as_json().add_to(digest);
    digest.count(buffers.len());
    for buffer in buffers {
        let Data(bytes) = buffer;
        digest.bytes(bytes);
    }
}
