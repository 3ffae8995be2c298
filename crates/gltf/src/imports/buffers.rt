//! The bytes of the buffers of a document.
ghost use Rattle.std.specs.Prelude.{◌≡◌, [], List, Some, None, IfOk, IfErr, OnOk, OnErr, length};
ghost use Rattle.gltf_buffers.specs.Buffers.{sources_of, AreBytes, HasBufferFault, IsAskedFor};
ghost use Rattle.gltf_buffers.specs.Each.{AreAnswers, NotesEach};
ghost use Rattle.gltf_buffers.specs.Errors.{FailsOrNames};
ghost use Rattle.gltf_buffers.specs.Names.{names_in, names_left, failures_in, failures_left};
ghost use Rattle.gltf_names.specs.Named.{Named};
ghost use Rattle.gltf.specs.Files.{names_behind};
ghost use Rattle.gltf.specs.Shown.{answer_of_each, blob_bytes, bytes_of_each};

use crate::buffer::Data;
use crate::document::Document;
use gltf_buffers::{Ask, NoNames, read_buffers, read_each_buffer};
use gltf_glb::Result;
use gltf_names::{Folder, NamedBytes};
use std::alloc::{AllocError, Global};
use std::rt::HostRuntime;

/// The document with the bytes of its buffers.
pub(crate) fn with_buffers<N: Ask>(
    alloc: Global,
    document: Document,
    names: &mut N,
    blob: Option<Vec<u8>>,
) -> Result<(Document, Vec<Data>)>
    ensures same { IfOk result (λ read. read.0 ≡ document) }
    ensures bytes { IfOk result (λ read. AreBytes (N.names names.old) (sources_of document)
        (blob_bytes blob) (length (sources_of document)) (bytes_of_each read.1.items)) }
    ensures err { IfErr result (FailsOrNames
        (HasBufferFault (N.names names.old) (sources_of document) (blob_bytes blob))
        (IsAskedFor (N.names names.old) (sources_of document) (blob_bytes blob))
        (N.failures names.old) (N.failures names.new)) }
    ensures fine { OnOk result (N.failures names.new ≡ N.failures names.old) }
    ensures kept { N.names names.new ≡ N.names names.old }
{
    let data = read_buffers(alloc, &document.as_json().buffers, names, blob)?;
    Ok((document, data))
}

/// The bytes of all buffers of a document, by index; the first one without URI is the blob (glTF
/// 2.0, section 3.6.1). Names are asked of `names`, where it is there.
///
/// The error is that of the first buffer that has one: that of [`Data::from_source_and_blob`], or
/// [`gltf_glb::Error::BufferLength`] where there are fewer bytes than the buffer declares; or
/// [`gltf_glb::Error::Memory`].
pub fn import_buffers_from<S: NamedBytes>(
    alloc: Global,
    document: &Document,
    names: Option<&mut S>,
    blob: Option<Vec<u8>>,
) -> Result<Vec<Data>>
    ensures ok { IfOk result (λ all. AreBytes (names_in S.bytes_by_name names.entry)
        (sources_of document.now) (blob_bytes blob) (length (sources_of document.now))
        (bytes_of_each all.items)) }
    ensures err { IfErr result (FailsOrNames (HasBufferFault (names_in S.bytes_by_name names.entry)
        (sources_of document.now) (blob_bytes blob))
        (IsAskedFor (names_in S.bytes_by_name names.entry) (sources_of document.now)
        (blob_bytes blob))
        (failures_in S.failures names.entry) (failures_left S.failures names.exit)) }
    ensures fine { OnOk result (failures_left S.failures names.exit
        ≡ failures_in S.failures names.entry) }
    ensures kept { names_left S.bytes_by_name names.exit ≡ names_in S.bytes_by_name names.entry }
{
    match names {
        Some(names) => read_buffers(alloc, &document.as_json().buffers, names, blob),
        None => read_buffers(alloc, &document.as_json().buffers, &mut NoNames, blob),
    }
}

/// [`import_buffers_from`] over the files of the system, where relative references are put after
/// the base; or without names, where there is no base.
pub fn import_buffers(
    rt: &HostRuntime,
    alloc: Global,
    document: &Document,
    base: Option<&str>,
    blob: Option<Vec<u8>>,
) -> Result<Vec<Data>>
    ensures ok { IfOk result (λ all. AreBytes (names_behind base.entry) (sources_of document.now)
        (blob_bytes blob) (length (sources_of document.now)) (bytes_of_each all.items)) }
    ensures err { IfErr result (λ e. (failed : List Named) × FailsOrNames
        (HasBufferFault (names_behind base.entry) (sources_of document.now) (blob_bytes blob))
        (IsAskedFor (names_behind base.entry) (sources_of document.now) (blob_bytes blob))
        [] failed e) }
{
    match base {
        Some(base) => {
            let mut folder = Folder::new(rt, base);
            read_buffers(alloc, &document.as_json().buffers, &mut folder, blob)
        }
        None => read_buffers(alloc, &document.as_json().buffers, &mut NoNames, blob),
    }
}

/// Each buffer's own answer, by index: its bytes, or the error that [`import_buffers_from`] returns
/// where it is the first buffer that has one (glTF 2.0, section 3.6.1). No error ends the walk.
///
/// The first buffer without URI gets the blob. No other one does, also where the first has an error.
///
/// The error of the call says that there is no memory for the list; then nothing was asked for.
/// [`gltf_glb::Error::Memory`] in the list is about that buffer alone.
pub fn import_each_buffer_from<S: NamedBytes>(
    alloc: Global,
    document: &Document,
    names: Option<&mut S>,
    blob: Option<Vec<u8>>,
) -> Result<Vec<Result<Data>>, AllocError>
    ensures ok { IfOk result (λ all. AreAnswers (names_in S.bytes_by_name names.entry)
        (sources_of document.now) (blob_bytes blob) (length (sources_of document.now))
        (answer_of_each all.items)) }
    ensures noted { IfOk result (λ all. NotesEach (sources_of document.now)
        (answer_of_each all.items)
        (failures_in S.failures names.entry) (failures_left S.failures names.exit)) }
    ensures err { OnErr result (failures_left S.failures names.exit
        ≡ failures_in S.failures names.entry) }
    ensures kept { names_left S.bytes_by_name names.exit ≡ names_in S.bytes_by_name names.entry }
{
    match names {
        Some(names) => read_each_buffer(alloc, &document.as_json().buffers, names, blob),
        None => read_each_buffer(alloc, &document.as_json().buffers, &mut NoNames, blob),
    }
}

/// [`import_each_buffer_from`] over the files of the system, with relative references looked for
/// under the base; or without names, where there is no base.
pub fn import_each_buffer(
    rt: &HostRuntime,
    alloc: Global,
    document: &Document,
    base: Option<&str>,
    blob: Option<Vec<u8>>,
) -> Result<Vec<Result<Data>>, AllocError>
    ensures { IfOk result (λ all. AreAnswers (names_behind base.entry) (sources_of document.now)
        (blob_bytes blob) (length (sources_of document.now)) (answer_of_each all.items)) }
{
    match base {
        Some(base) => {
            let mut folder = Folder::new(rt, base);
            read_each_buffer(alloc, &document.as_json().buffers, &mut folder, blob)
        }
        None => read_each_buffer(alloc, &document.as_json().buffers, &mut NoNames, blob),
    }
}
