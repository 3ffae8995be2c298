//! URIs, payloads, the zeros after buffers, and the names of attributes.
use crate::bytes::{bytes_of, write_hex};
use crate::shown::{Written, show, tell_copy};
use base64::{DecodeAllocError, DecodeError};
use gltf::json::mesh::Semantic;
use gltf_buffers::payload;
use gltf_buffers::uri::Uri;
use std::alloc::{AllocError, Global};

/// Prints where a URI leads.
pub fn write_uri(alloc: Global, text: &str, line: &mut String) -> Written {
    show(Uri::parse(alloc, text), line)
}

/// Writes the bytes of a payload, or its fault.
pub fn write_payload(alloc: Global, text: &str, line: &mut String) -> Written {
    match &payload::decode(alloc, text) {
        Ok(bytes) => write_bytes(bytes, line),
        Err(DecodeAllocError::OutOfMemory) => line.push_str("out of memory"),
        Err(DecodeAllocError::DecodeError(fault)) => write_fault(fault, line),
    }
}

/// Writes bytes, or that there are none.
fn write_bytes(bytes: &[u8], line: &mut String) -> Written {
    if bytes.is_empty() {
        return line.push_str("none");
    }
    write_hex(bytes, line)
}

/// Writes the fault of a payload.
fn write_fault(fault: &DecodeError, line: &mut String) -> Written {
    line.push_str("payload refused: ")?;
    match fault {
        DecodeError::InvalidByte(place, byte) => write!(line, "byte {byte} at {place}"),
        DecodeError::InvalidLength(length) => write!(line, "length {length}"),
        _ => line.push_str("another fault"),
    }
}

/// Writes bytes and the zeros after them.
pub fn write_zeros(alloc: Global, digits: &str, line: &mut String) -> Written {
    let mut bytes = bytes_of(alloc, digits)?;
    payload::pad_to_four(&mut bytes)?;
    write_bytes(&bytes, line)
}

/// Prints what the name of an attribute means, and how that is named.
pub fn write_attribute(alloc: Global, name: &str, line: &mut String) -> Written {
    tell_meaning(alloc, &Semantic::of_name(alloc, name), line)
}

/// Prints a meaning and its name.
fn tell_meaning(
    alloc: Global,
    meaning: &Result<Option<Semantic>, AllocError>,
    line: &mut String,
) -> Written {
    match meaning {
        Ok(Some(meaning)) => {
            write!(line, "{meaning:?} is {meaning}")?;
            tell_copy(alloc, meaning.clone(alloc), meaning, line)
        }
        Ok(None) => line.push_str("unknown"),
        Err(_) => line.push_str("out of memory"),
    }
}
