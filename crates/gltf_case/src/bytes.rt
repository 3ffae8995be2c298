//! Bytes, spelled in hexadecimal digits.
use crate::shown::Written;
use hex::FromHexError;
use std::alloc::{AllocError, Global};

/// The bytes that hexadecimal digits spell; none where they spell none.
pub fn bytes_of(alloc: Global, digits: &str) -> Result<Vec<u8>, AllocError> {
    match hex::decode(alloc, digits) {
        Ok(bytes) => Ok(bytes),
        Err(FromHexError::OutOfMemory) => Err(AllocError),
        Err(_) => Ok(Vec::new(alloc)),
    }
}

/// Writes bytes in hexadecimal digits.
pub fn write_hex(bytes: &[u8], line: &mut String) -> Written {
    for byte in bytes {
        write!(line, "{byte:02x}")?;
    }
    Ok(())
}
