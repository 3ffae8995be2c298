//! The bytes of all buffers of a document, where each name is asked for once.
ghost use Rattle.std.specs.Prelude.{◌≡◌, List, Some, None, Ok, Err, IfOk, IfErr, OnOk, is_some};
ghost use Rattle.std.specs.Prelude.{◌⊎◌, true, [], map, length, if◌then◌else◌, option_copied};
ghost use Rattle.gltf_names.specs.Named.{Named};
ghost use Rattle.gltf_buffers.specs.Buffers.{IsBytesOf, IsDataOf, LeadsTo, source_of, name_at};
ghost use Rattle.gltf_buffers.specs.Buffers.{AreBytes, HasBufferFault, IsAskedFor};
ghost use Rattle.gltf_buffers.specs.Buffers.{decoded_bytes, filled_bytes};
ghost use Rattle.gltf_buffers.specs.Each.{AreAnswers};
ghost use Rattle.gltf_buffers.specs.Errors.{FailsOrNames};
ghost use Rattle.gltf_buffers.specs.Names.{CanBeAsked};
ghost use Rattle.gltf_buffers.specs.Payload.{payload_bytes};
ghost use Rattle.gltf_buffers.specs.Shown.{blob_bytes};
ghost use Rattle.gltf_glb.specs.declared.error.Error.TheVariants.{Memory};
ghost use Rattle.gltf_shared.specs.Asked.{AsksOnce, AsksNamed, Notes, UnlessMemory, says_memory};
ghost use Rattle.gltf_shared.specs.Given.{IsSound, Keeps, Fits, NoneFailed, held_at};
ghost use Rattle.gltf_shared.specs.Shared.{AreShared};
ghost use Rattle.gltf_shared.specs.Shown.{answer_of, answer_of_each, bytes_of_each};

use crate::asking::AskUpTo;
use crate::held::Held;
use gltf_buffers::laws::{are_bytes_of_all, first_error_is_that_of_all};
use gltf_buffers::uri::Uri;
use gltf_buffers::{Data, payload};
use gltf_glb::{Error, Result};
use gltf_handles::buffer::Source;
use gltf_json::buffer;
use gltf_names::{Name, Shelf};
use std::alloc::{AllocError, Global};
use std::rc::Rc;

/// No source of names.
const NOWHERE: Option<&mut Shelf> = None;

/// The bytes of all buffers, by index, as [`gltf_buffers::read_buffers`] gives them, but that
/// buffers which lead to one name share its bytes: the source is asked for no name twice. It is
/// asked for the `byteLength` of the first buffer that leads to the name, and three bytes more. No
/// clause says so of these numbers.
///
/// The error is that of the first buffer that has one. Where it says that the source failed, the
/// source has noted the name of that buffer, and no other one.
pub fn read_shared<N: AskUpTo>(
    alloc: Global,
    buffers: &[buffer::Buffer],
    names: &mut N,
    blob: Option<Vec<u8>>,
) -> Result<Vec<Rc<Data>>>
    ensures ok { IfOk result (λ all. AreBytes (N.names names.old) (map source_of buffers.now)
        (blob_bytes blob) (length (map source_of buffers.now)) (bytes_of_each all.items)) }
    ensures shared { IfOk result (λ all. AreShared (map source_of buffers.now)
        (map Ok (bytes_of_each all.items))) }
    ensures err { IfErr result (λ e. (e ≡ Memory) ⊎ FailsOrNames
        (HasBufferFault (N.names names.old) (map source_of buffers.now) (blob_bytes blob))
        (IsAskedFor (N.names names.old) (map source_of buffers.now) (blob_bytes blob))
        (N.failures names.old) (N.failures names.new) e) }
    ensures fine { OnOk result (N.failures names.new ≡ N.failures names.old) }
    ensures asked { CanBeAsked (N.names names.old) → UnlessMemory result
        (AsksOnce N.asks (map source_of buffers.now) names.old names.new) }
    ensures kept { N.names names.new ≡ N.names names.old }
{
    // Laws that the proof stands on; the calls do nothing.
    are_bytes_of_all();
    first_error_is_that_of_all();
    let mut held = Held::new(alloc);
    let mut left = blob;
    let mut all = Vec::new(alloc);
    'buffers: for (index, buffer) in buffers.iter().enumerate() {
        let data = shared_buffer(alloc, index, buffer, names, &mut held, &mut left)?;
        all.push(data)?;
    }
    Ok(all)
}

/// Each buffer's own answer, by index, as [`gltf_buffers::read_each_buffer`] gives it: its bytes, or
/// the error that [`read_shared`] returns where it is the first buffer that has one. Buffers which
/// lead to one name share its bytes, or its failure: the source is asked for no name twice.
///
/// The error of the call says that there is no memory, for the list or for a buffer.
pub fn read_each_shared<N: AskUpTo>(
    alloc: Global,
    buffers: &[buffer::Buffer],
    names: &mut N,
    blob: Option<Vec<u8>>,
) -> Result<Vec<Result<Rc<Data>>>, AllocError>
    ensures ok { IfOk result (λ all. AreAnswers (N.names names.old) (map source_of buffers.now)
        (blob_bytes blob) (length (map source_of buffers.now)) (answer_of_each all.items)) }
    ensures shared { IfOk result (λ all. AreShared (map source_of buffers.now)
        (answer_of_each all.items)) }
    ensures asked { CanBeAsked (N.names names.old) → OnOk result
        (AsksOnce N.asks (map source_of buffers.now) names.old names.new) }
    ensures kept { N.names names.new ≡ N.names names.old }
{
    let mut held = Held::new(alloc);
    let mut left = blob;
    let mut all = Vec::new(alloc);
    'buffers: for (index, buffer) in buffers.iter().enumerate() {
        let answer = shared_buffer(alloc, index, buffer, names, &mut held, &mut left);
        if says_memory(&answer) {
            return Err(AllocError);
        }
        all.push(answer)?;
    }
    Ok(all)
}

fn says_memory(answer: &Result<Rc<Data>>) -> bool
    ensures { result ≡ says_memory (answer_of answer.now) }
{
    matches!(answer, Err(Error::Memory))
}

/// The bytes of one buffer. One without URI uses the blob up, whatever the answer is.
#[tactic(auto, unfolding(gltf_buffers::specs::Buffers::bytes_of))]
fn shared_buffer<N: AskUpTo>(
    alloc: Global,
    index: usize,
    buffer: &buffer::Buffer,
    names: &mut N,
    held: &mut Held,
    blob: &mut Option<Vec<u8>>,
) -> Result<Rc<Data>>
    requires { IsSound (N.names names.old) held.old }
    ensures ok { IfOk result (λ read. IsBytesOf (N.names names.old) (blob_bytes blob.old) index
        (source_of buffer.now) (Ok read.value.0.items)) }
    ensures err { IfErr result (λ e. (failed : List Named) × FailsOrNames
        (λ fault. IsBytesOf (N.names names.old) (blob_bytes blob.old) index
        (source_of buffer.now) (Err fault))
        (LeadsTo (N.names names.old) (source_of buffer.now).uri) [] failed e) }
    ensures fits { (name : Named) → name_at (source_of buffer.now).uri ≡ Some name
        → Fits (held_at held.new name) (answer_of result) }
    ensures sound { UnlessMemory result (IsSound (N.names names.old) held.new) }
    ensures keeps { UnlessMemory result (Keeps held.old held.new) }
    ensures asked { CanBeAsked (N.names names.old) → UnlessMemory result
        (AsksNamed N.asks (source_of buffer.now).uri held.old held.new names.old names.new) }
    ensures noted { Notes (λ name. name_at (source_of buffer.now).uri ≡ Some name) held.old result
        (N.failures names.old) (N.failures names.new) }
    ensures none { NoneFailed held.old → OnOk result (NoneFailed held.new) }
    ensures kept { N.names names.new ≡ N.names names.old }
    ensures blob { blob_bytes blob.new
        ≡ (if is_some (source_of buffer.now).uri then blob_bytes blob.old else None) }
{
    let read = data_of(alloc, buffer, names, held, blob);
    if buffer.uri.is_none() {
        *blob = None;
    }
    let data = read?;
    if (data.0.len() as u64) < buffer.byte_length {
        return Err(Error::BufferLength {
            buffer: index,
            expected: buffer.byte_length as usize,
            actual: data.0.len(),
        });
    }
    Ok(data)
}

/// The bytes that the URI of a buffer leads to, or the blob where it has none, with zeros after
/// them.
fn data_of<N: AskUpTo>(
    alloc: Global,
    buffer: &buffer::Buffer,
    names: &mut N,
    held: &mut Held,
    blob: &mut Option<Vec<u8>>,
) -> Result<Rc<Data>>
    requires { IsSound (N.names names.old) held.old }
    ensures ok { IfOk result (λ read. IsDataOf (N.names names.old) (blob_bytes blob.old)
        (source_of buffer.now).uri (Ok read.value.0.items)) }
    ensures err { IfErr result (λ e. (failed : List Named) × FailsOrNames
        (λ fault. IsDataOf (N.names names.old) (blob_bytes blob.old) (source_of buffer.now).uri
        (Err fault)) (LeadsTo (N.names names.old) (source_of buffer.now).uri) [] failed e) }
    ensures fits { (name : Named) → name_at (source_of buffer.now).uri ≡ Some name
        → Fits (held_at held.new name) (answer_of result) }
    ensures sound { UnlessMemory result (IsSound (N.names names.old) held.new) }
    ensures keeps { UnlessMemory result (Keeps held.old held.new) }
    ensures asked { CanBeAsked (N.names names.old) → UnlessMemory result
        (AsksNamed N.asks (source_of buffer.now).uri held.old held.new names.old names.new) }
    ensures noted { Notes (λ name. name_at (source_of buffer.now).uri ≡ Some name) held.old result
        (N.failures names.old) (N.failures names.new) }
    ensures none { NoneFailed held.old → OnOk result (NoneFailed held.new) }
    ensures kept { N.names names.new ≡ N.names names.old }
    ensures blob { is_some (source_of buffer.now).uri ≡ true
        → blob_bytes blob.new ≡ blob_bytes blob.old }
{
    let Some(uri) = uri_of(buffer) else {
        let data = Data::from_source_and_blob(alloc, Source::Bin, NOWHERE, blob)?;
        return Ok(Rc::new(alloc, data)?);
    };
    match Uri::parse(alloc, uri)? {
        Uri::Data(payload) => Ok(Rc::new(alloc, embedded(alloc, payload)?)?),
        Uri::File(path) => held.read(alloc, names, Name::File(path), buffer.byte_length),
        Uri::Relative(path) => {
            let name = Name::Relative(path.as_str());
            held.read(alloc, names, name, buffer.byte_length)
        }
        Uri::Unsupported => Err(Error::UnsupportedScheme),
    }
}

/// The URI of a buffer.
pub(crate) fn uri_of(buffer: &buffer::Buffer) -> Option<&str>
    ensures { option_copied result ≡ (source_of buffer.now).uri }
{
    buffer.uri.as_deref()
}

/// The bytes of a payload, with zeros after them.
fn embedded(alloc: Global, payload: &str) -> Result<Data>
    ensures ok { IfOk result (λ buffer.
        filled_bytes (decoded_bytes (payload_bytes payload.now)) ≡ Ok buffer.0.items) }
    ensures err { IfErr result (FailsOrNames
        (λ fault. filled_bytes (decoded_bytes (payload_bytes payload.now)) ≡ Err fault)
        (λ _. ⊥) [] []) }
{
    let mut bytes = payload::decode(alloc, payload)?;
    payload::pad_to_four(&mut bytes)?;
    Ok(Data(bytes))
}
