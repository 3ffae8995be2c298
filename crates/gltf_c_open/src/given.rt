//! Bytes for a buffer that waits for them.
ghost use Rattle.std.specs.Prelude.{◌≡◌, IfOk, set, false};
ghost use Rattle.gltf_buffers.specs.Padding.{padded};
ghost use Rattle.gltf_buffers.specs.Shown.{bytes_of_each};
ghost use Rattle.gltf_c_open.specs.Given.{IsGiven, awaited_length};

use crate::file::File;
use crate::length::is_enough;
use gltf::buffer::Data;
use gltf_buffers::payload::pad_to_four;
use std::alloc::{AllocError, Global};

/// Why a buffer has not taken bytes.
#[derive(Clone, Copy, Debug, PartialEq, Eq)]
pub enum GiveError {
    /// There is no such buffer, or it does not wait.
    NotAwaited,
    /// There are fewer bytes than the file was opened to ask for.
    TooShort,
    /// There was not enough memory.
    Memory,
}

/// How many bytes the buffer at an index declares that waits for them: its `byteLength` (glTF 2.0,
/// section 5.10.2). None where there is no such buffer, or it does not wait.
pub fn awaited_length(file: &File, index: usize) -> Option<u64>
    ensures { result ≡ awaited_length index file.now }
{
    match file.waiting.get(index) {
        Some(true) => Some(file.document.as_json().buffers.get(index)?.byte_length),
        _ => None,
    }
}

/// Copies bytes to the buffer at an index, which waits for them, with zeros after them up to a
/// multiple of four. The buffer waits no more then. They have to be as many as it declares; the
/// zeros count, unless the file was opened with exact lengths. Where the call fails, nothing has
/// changed.
pub fn give(alloc: Global, file: &mut File, index: usize, bytes: &[u8]) -> Result<(), GiveError>
    ensures { IsGiven (awaited_length index file.old) index bytes.now result file.old file.new }
{
    let Some(declared) = awaited_length(file, index) else {
        return Err(GiveError::NotAwaited);
    };
    if !is_enough(bytes.len(), declared, file.exact) {
        return Err(GiveError::TooShort);
    }
    match padded_copy(alloc, bytes) {
        Ok(data) => {
            put(file, index, data);
            Ok(())
        }
        Err(_) => Err(GiveError::Memory),
    }
}

/// The bytes with zeros after them up to a multiple of four.
fn padded_copy(alloc: Global, bytes: &[u8]) -> Result<Data, AllocError>
    ensures { IfOk result (λ copy. copy.0.items ≡ padded bytes.now) }
{
    let mut copy = Vec::from_slice(alloc, bytes)?;
    pad_to_four(&mut copy)?;
    Ok(Data(copy))
}

/// Puts the bytes of a buffer in place.
fn put(file: &mut File, index: usize, bytes: Data)
    ensures document { file.new.document ≡ file.old.document }
    ensures buffers { bytes_of_each file.new.buffers.items
        ≡ set (bytes_of_each file.old.buffers.items) index bytes.0.items }
    ensures waiting { file.new.waiting.items ≡ set file.old.waiting.items index false }
    ensures lengths { file.new.exact ≡ file.old.exact }
{
    replace(&mut file.buffers, index, bytes);
    replace(&mut file.waiting, index, false);
}

/// Puts an item in the place of the one at an index, where there is one.
fn replace<T: Drop>(items: &mut Vec<T>, index: usize, item: T)
    ensures { items.new.items ≡ set items.old.items index item }
{
    if index < items.len() {
        items[index] = item;
    }
}
