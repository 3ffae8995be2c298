//! The bytes of one buffer.
ghost use Rattle.std.specs.Prelude.{◌≡◌, Ok, Err, IfOk, IfErr, OnOk, OnErr, is_some, None, length};
ghost use Rattle.std.specs.Prelude.{if◌then◌else◌, option_copied};
ghost use Rattle.gltf_buffers.specs.Buffers.{IsDataOf, LeadsTo};
ghost use Rattle.gltf_buffers.specs.Errors.{FailsOrNames};
ghost use Rattle.gltf_buffers.specs.Moved.{IsHandedOn};
ghost use Rattle.gltf_buffers.specs.Names.{names_in, names_left, failures_in, failures_left};
ghost use Rattle.gltf_buffers.specs.Shown.{blob_bytes};
ghost use Rattle.gltf_handles.specs.Buffers.{uri_of};

use crate::asking::NoNames;
use crate::reference::{data_of, data_without_blob};
use gltf_glb::Result;
use gltf_handles::buffer::Source;
use gltf_names::NamedBytes;
use std::alloc::{AllocError, Global};
use std::ops::DerefSlice;

/// The bytes of one buffer, followed by zeros up to a multiple of four.
#[derive(Debug, Drop)]
pub struct Data(pub Vec<u8>);

impl Data {
    /// The bytes of a source, with zeros after them up to a multiple of four: those that its URI
    /// holds or names (glTF 2.0, section 2.8), where names are asked of `names`.
    ///
    /// [`gltf_glb::Error::Io`] says that `names` failed at the name, and
    /// [`gltf_glb::Error::ExternalReferenceInSliceImport`] that there is none to be asked. Each
    /// other error is that of [`Data::from_source_and_blob`], where there is no blob.
    pub fn from_source<S: NamedBytes>(
        alloc: Global,
        source: Source<'_>,
        names: Option<&mut S>,
    ) -> Result<Data>
        ensures ok { IfOk result (λ read. IsDataOf (names_in S.bytes_by_name names.entry) None
            (uri_of source.entry) (Ok read.0.items)) }
        ensures err { IfErr result (FailsOrNames
            (λ f. IsDataOf (names_in S.bytes_by_name names.entry) None (uri_of source.entry)
            (Err f)) (LeadsTo (names_in S.bytes_by_name names.entry) (uri_of source.entry))
            (failures_in S.failures names.entry) (failures_left S.failures names.exit)) }
        ensures fine { OnOk result (failures_left S.failures names.exit
            ≡ failures_in S.failures names.entry) }
        ensures kept { names_left S.bytes_by_name names.exit
            ≡ names_in S.bytes_by_name names.entry }
    {
        match names {
            Some(names) => data_without_blob(alloc, uri_in(source), names),
            None => data_without_blob(alloc, uri_in(source), &mut NoNames),
        }
    }

    /// [`Data::from_source`], where [`Source::Bin`] takes the blob (glTF 2.0, section 3.6.1.2).
    ///
    /// [`gltf_glb::Error::MissingBlob`] says that there is no blob,
    /// [`gltf_glb::Error::Base64`] that the payload of a `data:` URI is none, and
    /// [`gltf_glb::Error::UnsupportedScheme`] that the URI is of no known kind. Where the answer is
    /// an error, the blob stays. The blob is handed on in the memory that it had, where it has as
    /// many bytes as a multiple of four.
    pub fn from_source_and_blob<S: NamedBytes>(
        alloc: Global,
        source: Source<'_>,
        names: Option<&mut S>,
        blob: &mut Option<Vec<u8>>,
    ) -> Result<Data>
        ensures ok { IfOk result (λ read. IsDataOf (names_in S.bytes_by_name names.entry)
            (blob_bytes blob.old) (uri_of source.entry) (Ok read.0.items)) }
        ensures err { IfErr result (FailsOrNames
            (λ f. IsDataOf (names_in S.bytes_by_name names.entry) (blob_bytes blob.old)
            (uri_of source.entry) (Err f))
            (LeadsTo (names_in S.bytes_by_name names.entry) (uri_of source.entry))
            (failures_in S.failures names.entry) (failures_left S.failures names.exit)) }
        ensures fine { OnOk result (failures_left S.failures names.exit
            ≡ failures_in S.failures names.entry) }
        ensures kept { names_left S.bytes_by_name names.exit
            ≡ names_in S.bytes_by_name names.entry }
        ensures blob { OnOk result (blob_bytes blob.new
            ≡ (if is_some (uri_of source.entry) then blob_bytes blob.old else None)) }
        ensures stays { OnErr result (blob_bytes blob.new ≡ blob_bytes blob.old) }
        ensures moved { uri_of source.entry ≡ None → IfOk result (IsHandedOn blob.old) }
    {
        match names {
            Some(names) => data_of(alloc, uri_in(source), names, blob),
            None => data_of(alloc, uri_in(source), &mut NoNames, blob),
        }
    }

    /// How many bytes there are, with the zeros after them. All other calls are those of the slice.
    pub fn len(&self) -> usize
        ensures { result ≡ length self.now.0.items }
    {
        self.0.len()
    }

    /// A copy of the bytes.
    pub fn clone(&self, alloc: Global) -> Result<Data, AllocError>
        ensures { IfOk result (λ copy. copy.0.items ≡ self.now.0.items) }
    {
        Ok(Data(Vec::from_slice(alloc, &self.0)?))
    }
}

/// The URI of a source.
fn uri_in(source: Source<'_>) -> Option<&str>
    ensures { option_copied result ≡ uri_of source.entry }
{
    match source {
        Source::Uri(uri) => Some(uri),
        Source::Bin => None,
    }
}

impl DerefSlice for Data {
    type Elem = u8;

    ghost deref_gives = { λ buffer bytes. bytes ≡ buffer.0.items };

    fn deref(&self) -> &[u8] {
        self.0.as_slice()
    }
}
