//! The bytes of buffers, and which of them wait for theirs.
ghost use Rattle.std.specs.Prelude.{◌≡◌, [], true, Ok, Err, IfOk, IfErr, None, map, length};
ghost use Rattle.std.specs.Prelude.{is_some, if◌then◌else◌, option_copied};
ghost use Rattle.gltf.specs.Errors.{OutOfMemoryOr};
ghost use Rattle.gltf_buffers.specs.Buffers.{source_of, raw_bytes};
ghost use Rattle.gltf_buffers.specs.Errors.{NamesFault};
ghost use Rattle.gltf_buffers.specs.Shown.{blob_bytes, bytes_of_each};
ghost use Rattle.gltf_c_open.specs.Buffers.{HaveOrAwait, HasFault, IsKept, IsFaultOf};
ghost use Rattle.gltf_c_open.specs.Buffers.{bytes_or_fault, long_enough};
ghost use Rattle.gltf_c_open.specs.Refusals.{RefusedAt, IsAt, of_buffer, Waits};

use crate::length::is_enough;
use crate::refusal::{Refusal, of_buffer};
use crate::wanted::Wanted;
use gltf::buffer::Data;
use gltf::{Error, Result};
use gltf_buffers::payload::pad_to_four;
use gltf_buffers::{NoNames, bytes_of_uri};
use gltf_json::buffer;
use std::alloc::Global;

/// The bytes of the buffers, and which of them wait: those that lead to another file, where they may.
/// The first buffer without URI is the blob (glTF 2.0, section 3.6.1.2). The refusal is that of the
/// first buffer with a fault.
pub(crate) fn had_or_awaited(
    alloc: Global,
    buffers: &[buffer::Buffer],
    blob: Option<Vec<u8>>,
    wanted: Wanted,
) -> Result<(Vec<Data>, Vec<bool>), Refusal>
    ensures ok { IfOk result (λ parts. HaveOrAwait wanted (map source_of buffers.now)
        (blob_bytes blob) (length (map source_of buffers.now))
        (bytes_of_each parts.0.items) parts.1.items) }
    ensures err { IfErr result
        (RefusedAt (HasFault wanted (map source_of buffers.now) (blob_bytes blob))) }
{
    let mut left = blob;
    let mut all = Vec::new(alloc);
    let mut waiting = Vec::new(alloc);
    'buffers: for (index, buffer) in buffers.iter().enumerate() {
        let (data, waits) = had_or_awaited_one(alloc, index, buffer, &mut left, wanted)?;
        all.push(data)?;
        waiting.push(waits)?;
    }
    Ok((all, waiting))
}

/// The same of one buffer. One without URI uses the blob up, whatever the answer is.
fn had_or_awaited_one(
    alloc: Global,
    index: usize,
    buffer: &buffer::Buffer,
    blob: &mut Option<Vec<u8>>,
    wanted: Wanted,
) -> Result<(Data, bool), Refusal>
    ensures ok { IfOk result (λ part. IsKept wanted.may_wait (bytes_or_fault wanted.exact
        (blob_bytes blob.old) index (source_of buffer.now)) part.0.0.items part.1) }
    ensures err { IfErr result (RefusedAt (IsAt index
        (IsFaultOf wanted (blob_bytes blob.old) index (source_of buffer.now)))) }
    ensures blob { blob_bytes blob.new
        ≡ (if is_some (source_of buffer.now).uri then blob_bytes blob.old else None) }
{
    match own_bytes(alloc, buffer.uri.as_deref(), blob) {
        Ok(bytes) => match long_enough(index, buffer.byte_length, bytes, wanted.exact) {
            Ok(data) => Ok((data, false)),
            Err(error) => Err(of_buffer(index, error)),
        },
        Err(error) => await_or_refuse(alloc, index, error, wanted.may_wait),
    }
}

/// No bytes for a buffer that leads to another file and may wait; else its refusal.
fn await_or_refuse(
    alloc: Global,
    index: usize,
    error: Error,
    may_wait: bool,
) -> Result<(Data, bool), Refusal>
    ensures ok { IfOk result (λ part. Waits may_wait error
        × (part.0.0.items ≡ []) × (part.1 ≡ true)) }
    ensures err { IfErr result (λ refusal. (refusal ≡ of_buffer index error)
        × (Waits may_wait error → ⊥)) }
{
    if may_wait && matches!(error, Error::ExternalReferenceInSliceImport) {
        Ok((Data(Vec::new(alloc)), true))
    } else {
        Err(of_buffer(index, error))
    }
}

/// The bytes that a buffer has before zeros are put after them: those of its URI, or the blob.
fn own_bytes(alloc: Global, uri: Option<&str>, blob: &mut Option<Vec<u8>>) -> Result<Vec<u8>>
    ensures ok { IfOk result (λ bytes. raw_bytes None (blob_bytes blob.old)
        (option_copied uri.entry) ≡ Ok bytes.items) }
    ensures err { IfErr result (OutOfMemoryOr (NamesFault (λ fault. raw_bytes None
        (blob_bytes blob.old) (option_copied uri.entry) ≡ Err fault))) }
    ensures blob { blob_bytes blob.new
        ≡ (if is_some (option_copied uri.entry) then blob_bytes blob.old else None) }
{
    match uri {
        Some(uri) => bytes_of_uri(alloc, uri, &mut NoNames),
        None => match blob.take() {
            Some(bytes) => Ok(bytes),
            None => Err(Error::MissingBlob),
        },
    }
}

/// The bytes of a buffer with zeros after them up to a multiple of four, where they are enough.
fn long_enough(index: usize, declared: u64, mut bytes: Vec<u8>, exact: bool) -> Result<Data>
    ensures ok { IfOk result (λ data_. long_enough exact index declared bytes.items
        ≡ Ok data_.0.items) }
    ensures err { IfErr result (OutOfMemoryOr (NamesFault (λ fault.
        long_enough exact index declared bytes.items ≡ Err fault))) }
{
    if !is_enough(bytes.len(), declared, exact) {
        return Err(Error::BufferLength {
            buffer: index,
            expected: declared as usize,
            actual: bytes.len(),
        });
    }
    pad_to_four(&mut bytes)?;
    Ok(Data(bytes))
}
