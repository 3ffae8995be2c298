//! What a URI leads to, and the blob.
ghost use Rattle.std.specs.Prelude.{◌≡◌, Ok, Err, IfOk, IfErr, OnOk, OnErr, Some, None};
ghost use Rattle.std.specs.Prelude.{is_some, true};
ghost use Rattle.std.specs.Prelude.{if◌then◌else◌, option_copied};
ghost use Rattle.gltf_buffers.specs.Buffers.{IsMeant, IsDataOf, LeadsTo, blob_or_fault};
ghost use Rattle.gltf_buffers.specs.Buffers.{filled_bytes};
ghost use Rattle.gltf_buffers.specs.Errors.{FailsOrNames, IsNotTaken};
ghost use Rattle.gltf_buffers.specs.Moved.{IsHandedOn};
ghost use Rattle.gltf_buffers.specs.Names.{CanBeAsked, name_of};
ghost use Rattle.gltf_buffers.specs.Shown.{blob_bytes};
ghost use Rattle.gltf_buffers.specs.Uri.{uri_of};

use crate::asking::Ask;
use crate::data::Data;
use crate::payload;
use crate::uri::Uri;
use gltf_glb::{Error, Result};
use gltf_names::Name;
use std::alloc::Global;

/// The bytes that a URI leads to, or the blob where there is none, with zeros after them. Where the
/// answer is an error, the blob stays.
pub(crate) fn data_of<N: Ask>(
    alloc: Global,
    uri: Option<&str>,
    names: &mut N,
    blob: &mut Option<Vec<u8>>,
) -> Result<Data>
    ensures ok { IfOk result (λ read. IsDataOf (N.names names.old) (blob_bytes blob.old)
        (option_copied uri.entry) (Ok read.0.items)) }
    ensures err { IfErr result (FailsOrNames
        (λ f. IsDataOf (N.names names.old) (blob_bytes blob.old) (option_copied uri.entry) (Err f))
        (LeadsTo (N.names names.old) (option_copied uri.entry))
        (N.failures names.old) (N.failures names.new)) }
    ensures fine { OnOk result (N.failures names.new ≡ N.failures names.old) }
    ensures kept { N.names names.new ≡ N.names names.old }
    ensures blob { OnOk result (blob_bytes blob.new
        ≡ (if is_some (option_copied uri.entry) then blob_bytes blob.old else None)) }
    ensures stays { OnErr result (blob_bytes blob.new ≡ blob_bytes blob.old) }
    ensures moved { option_copied uri.entry ≡ None → IfOk result (IsHandedOn blob.old) }
    ensures untouched { is_some (option_copied uri.entry) ≡ true → blob.new ≡ blob.old }
{
    match uri {
        Some(uri) => {
            let mut bytes = bytes_of_uri(alloc, uri, names)?;
            payload::pad_to_four(&mut bytes)?;
            Ok(Data(bytes))
        }
        None => taken(blob),
    }
}

/// The same where there is no blob.
pub(crate) fn data_without_blob<N: Ask>(
    alloc: Global,
    uri: Option<&str>,
    names: &mut N,
) -> Result<Data>
    ensures ok { IfOk result (λ read. IsDataOf (N.names names.old) None (option_copied uri.entry)
        (Ok read.0.items)) }
    ensures err { IfErr result (FailsOrNames
        (λ f. IsDataOf (N.names names.old) None (option_copied uri.entry) (Err f))
        (LeadsTo (N.names names.old) (option_copied uri.entry))
        (N.failures names.old) (N.failures names.new)) }
    ensures fine { OnOk result (N.failures names.new ≡ N.failures names.old) }
    ensures kept { N.names names.new ≡ N.names names.old }
{
    data_of(alloc, uri, names, &mut None)
}

/// The blob in the memory that it has, with zeros after it. Where there is not enough memory for
/// them, it stays.
fn taken(blob: &mut Option<Vec<u8>>) -> Result<Data>
    ensures ok { IfOk result (λ read. filled_bytes (blob_or_fault (blob_bytes blob.old))
        ≡ Ok read.0.items) }
    ensures err { IfErr result (IsNotTaken (blob_bytes blob.old)) }
    ensures blob { OnOk result (blob_bytes blob.new ≡ None) }
    ensures stays { OnErr result (blob_bytes blob.new ≡ blob_bytes blob.old) }
    ensures moved { IfOk result (IsHandedOn blob.old) }
{
    let Some(mut bytes) = blob.take() else {
        return Err(Error::MissingBlob);
    };
    match payload::pad_to_four(&mut bytes) {
        Ok(()) => Ok(Data(bytes)),
        Err(_) => {
            *blob = Some(bytes);
            Err(Error::Memory)
        }
    }
}

/// The bytes that a URI leads to: those of a `data:` URI, else those of the file that it names.
///
/// Returns the error that a buffer with this URI has.
pub fn bytes_of_uri<N: Ask>(alloc: Global, uri: &str, names: &mut N) -> Result<Vec<u8>>
    ensures ok { IfOk result (λ bytes. IsMeant (N.names names.old) (uri_of uri.now)
        (Ok bytes.items)) }
    ensures err { IfErr result (FailsOrNames
        (λ f. IsMeant (N.names names.old) (uri_of uri.now) (Err f))
        (λ name. CanBeAsked (N.names names.old) × (name_of (uri_of uri.now) ≡ Some name))
        (N.failures names.old) (N.failures names.new)) }
    ensures fine { OnOk result (N.failures names.new ≡ N.failures names.old) }
    ensures kept { N.names names.new ≡ N.names names.old }
{
    match Uri::parse(alloc, uri)? {
        Uri::Data(payload) => Ok(payload::decode(alloc, payload)?),
        Uri::File(path) => names.ask(alloc, Name::File(path)),
        Uri::Relative(path) => names.ask(alloc, Name::Relative(path.as_str())),
        Uri::Unsupported => Err(Error::UnsupportedScheme),
    }
}
