//! The bytes of all buffers of a document.
ghost use Rattle.std.specs.Prelude.{◌≡◌, Ok, Err, IfOk, IfErr, OnOk, OnErr, is_some, None, map};
ghost use Rattle.std.specs.Prelude.{length, true};
ghost use Rattle.std.specs.Prelude.{if◌then◌else◌, option_copied};
ghost use Rattle.gltf_buffers.specs.Buffers.{IsBytesOf, LeadsTo, source_of, AreBytes};
ghost use Rattle.gltf_buffers.specs.Buffers.{HasBufferFault, IsAskedFor};
ghost use Rattle.gltf_buffers.specs.Each.{AreAnswers, NotesEach};
ghost use Rattle.gltf_buffers.specs.Errors.{FailsOrNames};
ghost use Rattle.gltf_buffers.specs.Moved.{IsHandedOn, HandsOn};
ghost use Rattle.gltf_buffers.specs.Shown.{blob_bytes, bytes_of_each, answer_of_each};

use crate::asking::Ask;
use crate::data::Data;
use crate::reference::data_of;
use gltf_glb::{Error, Result};
use gltf_json::buffer;
use std::alloc::{AllocError, Global};

/// The bytes of all buffers, by index; the first one without URI is the blob (glTF 2.0, section
/// 3.6.1.2).
///
/// The error is that of the first buffer that has one: that of [`Data::from_source_and_blob`], or
/// [`Error::BufferLength`] where there are fewer bytes than the buffer declares, the zeros counted.
///
/// The blob is handed on in the memory that it had, where it has as many bytes as a multiple of four.
pub fn read_buffers<N: Ask>(
    alloc: Global,
    buffers: &[buffer::Buffer],
    names: &mut N,
    blob: Option<Vec<u8>>,
) -> Result<Vec<Data>>
    ensures ok { IfOk result (λ all. AreBytes (N.names names.old) (map source_of buffers.now)
        (blob_bytes blob) (length (map source_of buffers.now)) (bytes_of_each all.items)) }
    ensures err { IfErr result (FailsOrNames
        (HasBufferFault (N.names names.old) (map source_of buffers.now) (blob_bytes blob))
        (IsAskedFor (N.names names.old) (map source_of buffers.now) (blob_bytes blob))
        (N.failures names.old) (N.failures names.new)) }
    ensures fine { OnOk result (N.failures names.new ≡ N.failures names.old) }
    ensures kept { N.names names.new ≡ N.names names.old }
    ensures moved { IfOk result (λ all. HandsOn (map source_of buffers.now) blob all.items) }
{
    let mut left = blob;
    let mut all = Vec::new(alloc);
    'buffers: for (index, buffer) in buffers.iter().enumerate() {
        let data = read_buffer(alloc, index, buffer, names, &mut left)?;
        all.push(data)?;
    }
    Ok(all)
}

/// Each buffer's own answer, by index: its bytes, or the error that [`read_buffers`] returns where
/// it is the first buffer that has one (glTF 2.0, section 3.6.1). No error ends the walk.
///
/// The first buffer without URI gets the blob. No other one does, also where the first has an error.
///
/// The error of the call says that there is no memory for the list; then nothing was asked for.
/// [`Error::Memory`] in the list is about that buffer alone.
pub fn read_each_buffer<N: Ask>(
    alloc: Global,
    buffers: &[buffer::Buffer],
    names: &mut N,
    blob: Option<Vec<u8>>,
) -> Result<Vec<Result<Data>>, AllocError>
    ensures ok { IfOk result (λ all. AreAnswers (N.names names.old) (map source_of buffers.now)
        (blob_bytes blob) (length (map source_of buffers.now)) (answer_of_each all.items)) }
    ensures noted { IfOk result (λ all. NotesEach (map source_of buffers.now)
        (answer_of_each all.items) (N.failures names.old) (N.failures names.new)) }
    ensures err { OnErr result (N.failures names.new ≡ N.failures names.old) }
    ensures kept { N.names names.new ≡ N.names names.old }
{
    let mut left = blob;
    let mut all = Vec::with_capacity(alloc, buffers.len())?;
    'buffers: for (index, buffer) in buffers.iter().enumerate() {
        let answer = read_buffer(alloc, index, buffer, names, &mut left);
        // There is room for it, so that no answer is lost.
        all.push(answer)?;
    }
    Ok(all)
}

/// The bytes of one buffer. One without URI uses the blob up, whatever the answer is.
#[tactic(auto, unfolding(crate::specs::Buffers::bytes_of))]
fn read_buffer<N: Ask>(
    alloc: Global,
    index: usize,
    buffer: &buffer::Buffer,
    names: &mut N,
    blob: &mut Option<Vec<u8>>,
) -> Result<Data>
    ensures ok { IfOk result (λ read. IsBytesOf (N.names names.old) (blob_bytes blob.old) index
        (source_of buffer.now) (Ok read.0.items)) }
    ensures err { IfErr result (FailsOrNames (λ f. IsBytesOf (N.names names.old)
        (blob_bytes blob.old) index (source_of buffer.now) (Err f))
        (LeadsTo (N.names names.old) (source_of buffer.now).uri)
        (N.failures names.old) (N.failures names.new)) }
    ensures fine { OnOk result (N.failures names.new ≡ N.failures names.old) }
    ensures kept { N.names names.new ≡ N.names names.old }
    ensures blob { blob_bytes blob.new
        ≡ (if is_some (source_of buffer.now).uri then blob_bytes blob.old else None) }
    ensures moved { (source_of buffer.now).uri ≡ None → IfOk result (IsHandedOn blob.old) }
    ensures untouched { is_some (source_of buffer.now).uri ≡ true → blob.new ≡ blob.old }
{
    let read = data_of(alloc, uri_of(buffer), names, blob);
    if buffer.uri.is_none() {
        *blob = None;
    }
    let data = read?;
    if (data.0.len() as u64) < buffer.byte_length {
        return Err(Error::BufferLength {
            buffer: index,
            expected: buffer.byte_length as usize,
            actual: data.0.len(),
        });
    }
    Ok(data)
}

/// The URI of a buffer.
fn uri_of(buffer: &buffer::Buffer) -> Option<&str>
    ensures { option_copied result ≡ (source_of buffer.now).uri }
{
    buffer.uri.as_deref()
}
