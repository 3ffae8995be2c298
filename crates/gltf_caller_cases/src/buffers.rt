//! The bytes of buffers, by the blob of a case.
use gltf::buffer::Data;
use gltf_case::asked::Asked;
use gltf_case::bytes::bytes_of;
use std::alloc::{AllocError, Global};

/// The bytes of each buffer: `+DIGITS,DIGITS..`. Buffers after these have none.
pub(crate) fn buffers_of(alloc: Global, asked: Asked<'_>) -> Result<Vec<Data>, AllocError> {
    let mut buffers = Vec::new(alloc);
    if let Some(blob) = asked.blob {
        for digits in blob.split(",") {
            buffers.push(Data(bytes_of(alloc, digits)?))?;
        }
    }
    Ok(buffers)
}
