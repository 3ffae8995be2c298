//! What is left of a file whose images go into files of their own (glTF 2.0, section 3.6.1).
ghost use Rattle.std.specs.Prelude.{◌≡◌, IfOk, drop};
ghost use Rattle.serde_json.specs.View.{view};
ghost use Rattle.gltf_buffers.specs.Shown.{bytes_of_each};
ghost use Rattle.gltf_trim.specs.Tails.{bytes_of};
ghost use Rattle.gltf_trim.specs.Trimmed.{first};
ghost use Rattle.gltf_trimmed.specs.Laws.{cut, cut_all};
ghost use Rattle.gltf_split.specs.Splits.{value_left, bytes_left};

use gltf::buffer::Data;
use gltf_bundle::Loaded;
use gltf_trim::{trim_of, trimmed};
use serde_json::Value;
use std::alloc::{AllocError, Global};

/// A file, or what is left of it where the views at the end of the list go that only images name.
pub(crate) fn what_is_left(
    alloc: Global,
    value: Value,
    buffers: Vec<Data>,
    drops: bool,
) -> Result<Loaded, AllocError>
    ensures value { IfOk result (λ left. view left.value
        ≡ value_left drops (view value) (bytes_of_each buffers.items)) }
    ensures bytes { IfOk result (λ left. bytes_of_each left.buffers.items
        ≡ bytes_left drops (view value) (bytes_of_each buffers.items)) }
{
    if !drops {
        return Ok(Loaded { value, buffers });
    }
    let bytes = all_bytes(alloc, buffers)?;
    let trim = trim_of(alloc, &value, &bytes)?;
    let value = trimmed(alloc, value, &trim)?;
    let buffers = cut_all(alloc, bytes, &trim.lengths)?;
    Ok(Loaded { value, buffers })
}

/// The bytes of buffers.
fn all_bytes(alloc: Global, buffers: Vec<Data>) -> Result<Vec<Vec<u8>>, AllocError>
    ensures { IfOk result (λ all. bytes_of all.items ≡ bytes_of_each buffers.items) }
{
    let mut all = Vec::with_capacity(alloc, buffers.len())?;
    'buffers: for buffer in buffers {
        all.push(buffer.0)?;
    }
    Ok(all)
}

/// Buffers of these bytes, of which some have new lengths.
fn cut_all(
    alloc: Global,
    buffers: Vec<Vec<u8>>,
    lengths: &[Option<u64>],
) -> Result<Vec<Data>, AllocError>
    ensures { IfOk result (λ all. bytes_of_each all.items
        ≡ cut_all lengths.now (bytes_of buffers.items)) }
{
    let mut all = Vec::with_capacity(alloc, buffers.len())?;
    'buffers: for bytes in buffers {
        let index = all.len();
        let bytes = cut(bytes, length_at(lengths, index))?;
        all.push(Data(bytes))?;
    }
    Ok(all)
}

/// The new length of the buffer at an index, where it has one.
fn length_at(lengths: &[Option<u64>], index: usize) -> Option<u64>
    ensures { result ≡ first (drop index lengths.now) }
{
    lengths.get(index).copied().flatten()
}

/// So many of the bytes of a buffer, where it has a new length, with zeros up to a multiple of
/// four.
#[tactic(auto, unfolding(gltf_buffers::specs::Padding::padded))]
fn cut(bytes: Vec<u8>, length: Option<u64>) -> Result<Vec<u8>, AllocError>
    ensures { IfOk result (λ left. left.items ≡ cut length bytes.items) }
{
    let Some(length) = length else {
        return Ok(bytes);
    };
    let mut bytes = bytes;
    bytes.truncate(length as usize);
    let length = bytes.len();
    bytes.resize(length + (4 - length % 4) % 4, 0)?;
    Ok(bytes)
}
