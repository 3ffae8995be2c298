//! Errors, by what they say.
use crate::digest::Digest;
use std::alloc::Global;
use std::fmt;

/// Adds what an error says.
pub fn add_error<E: fmt::Display>(alloc: Global, error: &E, digest: &mut Digest) {
    match format!(in alloc; "{error}") {
        Ok(text) => digest.bytes(text.as_str().as_bytes()),
        Err(_) => digest.absent(),
    }
}
