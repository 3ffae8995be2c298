//! Shelves of named bytes, by the words of a case, and its blob.
use crate::asked::Asked;
use crate::bytes::bytes_of;
use gltf::{Name, Shelf};
use std::alloc::{AllocError, Global};

/// A shelf of what the words put there:
///
/// - `NAME=DIGITS`: the bytes that the digits spell, by a relative reference, or by the path of a
///   file after `file:`, where `+` stands for a space.
/// - `fail=K`: the read after the next K ones fails.
pub fn shelf_of(alloc: Global, asked: Asked<'_>) -> Result<Shelf, AllocError> {
    let mut shelf = Shelf::new(alloc);
    for word in asked.words.split_whitespace() {
        put(alloc, &mut shelf, word)?;
    }
    Ok(shelf)
}

/// What one word puts on a shelf.
pub fn put(alloc: Global, shelf: &mut Shelf, word: &str) -> Result<(), AllocError> {
    let (name, told) = word.split_once("=").unwrap_or((word, ""));
    if name == "fail" {
        shelf.fail_at(told.parse::<usize>().unwrap_or(0));
        return Ok(());
    }
    let bytes = bytes_of(alloc, told)?;
    let name = name.replace(alloc, "+", " ")?;
    match name.strip_prefix("file:") {
        Some(path) => shelf.put(Name::File(path), &bytes),
        None => shelf.put(Name::Relative(name.as_str()), &bytes),
    }
}

/// The blob of a case; none where there is none, and with `+none`.
pub fn blob_of(alloc: Global, asked: Asked<'_>) -> Result<Option<Vec<u8>>, AllocError> {
    match asked.blob {
        Some("none") | None => Ok(None),
        Some(digits) => Ok(Some(bytes_of(alloc, digits)?)),
    }
}
