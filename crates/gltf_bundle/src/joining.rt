//! The bytes of all buffers in one: where each of them stands there, and a container of them. They
//! are joined where the container's chunk is, so that each byte is copied once.
ghost use Rattle.std.specs.Prelude.{◌≡◌, ◌+◌, ◌-◌, ◌%◌, ◌<◌, ◌^◌, ◌++◌, ℕ, List, Some, length};
ghost use Rattle.std.specs.Prelude.{IfOk, IfErr, OnOk, SomeIff};
ghost use Rattle.gltf_bundle.specs.Bundle.{ArePlaces, blob_of};
ghost use Rattle.gltf_edit.specs.Faults.{IsTooLong};
ghost use Rattle.gltf_edit.specs.Joined.{filled, joined};
ghost use Rattle.gltf_glb.specs.Bytes.{bin_tag, padded, word};
ghost use Rattle.gltf_glb.specs.Glb.{IsWritten, RefusesToWrite};
ghost use Rattle.gltf_glb.specs.Written.{json_chunk, total_of};
ghost use Rattle.gltf.specs.Shown.{bytes_of_each};

use gltf::buffer::Data;
use gltf_edit::{Fault, Span};
use gltf_glb::binary::writing::{padding_of, put_chunk, put_header, too_long, word_of};
use gltf_glb::{Error, Result};
use gltf_pack::container;
use std::alloc::{AllocError, Global};
use std::borrow::CowSlice;

/// Where the bytes of all buffers stand in one, and how many these are.
#[derive(Drop)]
pub(crate) struct Places {
    /// Where those of each stand.
    pub(crate) spans: Vec<Span>,
    /// How many all are, with those that fill them up.
    pub(crate) total: u32,
}

/// The places of the bytes of all buffers.
pub(crate) fn places_of(alloc: Global, buffers: &[Data]) -> Result<Places, Fault>
    ensures places { IfOk result (ArePlaces (bytes_of_each buffers.now)) }
    ensures refused { IfErr result (IsTooLong (length (joined (bytes_of_each buffers.now)))) }
{
    let mut spans = Vec::with_capacity(alloc, buffers.len())?;
    let mut total: u32 = 0;
    for buffer in buffers {
        let place = total;
        total = end_of(place, buffer.0.len())?;
        spans.push(Span {
            place,
            length: buffer.0.len() as u32,
        })?;
    }
    Ok(Places { spans, total })
}

/// Where so many bytes from a place on end, filled up to a multiple of eight.
fn end_of(place: u32, length: usize) -> Result<u32, Fault>
    ensures end { IfOk result (λ end. end ≡ place + (length + (8 - length % 8) % 8)) }
    ensures refused { IfErr result (IsTooLong (place + (length + (8 - length % 8) % 8))) }
{
    let end = place as u128 + length as u128 + filling_of(length) as u128;
    match u32::try_from(end) {
        Ok(end) => Ok(end),
        Err(_) => Err(Fault::TooLong),
    }
}

/// How many bytes fill so many up to a multiple of eight.
fn filling_of(length: usize) -> usize
    ensures { result ≡ (8 - length % 8) % 8 }
{
    (8 - length % 8) % 8
}

/// A JSON text and the bytes of all buffers, joined, as one container (glTF 2.0, section 4.4), as
/// [`gltf_pack::container`] writes it. Without buffers it has no BIN chunk.
pub(crate) fn joined_container(
    alloc: Global,
    json: &[u8],
    buffers: &[Data],
    total: u32,
) -> Result<Vec<u8>>
    requires { total ≡ length (joined (bytes_of_each buffers.now)) }
    ensures written { IfOk result (IsWritten json.now (blob_of (bytes_of_each buffers.now))) }
    ensures refused { IfErr result
        (RefusesToWrite json.now (blob_of (bytes_of_each buffers.now))) }
{
    if buffers.is_empty() {
        return container(alloc, CowSlice::Borrowed(json), None);
    }
    let Some(whole) = length_of(json, total) else {
        return Err(Error::Io(too_long()));
    };
    let mut out = Vec::with_capacity(alloc, whole as usize)?;
    put_header(&mut out, whole)?;
    put_text(&mut out, json)?;
    put_blob_header(&mut out, total)?;
    put_joined(&mut out, buffers)?;
    Ok(out)
}

/// The length of a container of a JSON text and of so many bytes, which are a multiple of four,
/// where its header can say it.
#[tactic(auto, using(crate::proofs::Written::whole_length))]
fn length_of(json: &[u8], blob: u32) -> Option<u32>
    requires { blob % 4 ≡ 0 }
    ensures { (bytes : List ℕ) → length bytes ≡ blob
        → SomeIff result (total_of json.now (Some bytes) < 2 ^ 32)
        (total_of json.now (Some bytes)) }
{
    let length = 28 + json.len() as u128 + padding_of(json) as u128 + blob as u128;
    u32::try_from(length).ok()
}

/// Adds the chunk of a JSON text.
fn put_text(out: &mut Vec<u8>, json: &[u8]) -> Result<(), AllocError>
    requires { length (padded 32 json.now) < 2 ^ 32 }
    ensures { OnOk result (out.new.items ≡ out.old.items ++ json_chunk json.now) }
{
    put_chunk(out, *b"JSON", json, b' ')
}

/// Adds the header of a BIN chunk of so many bytes.
fn put_blob_header(out: &mut Vec<u8>, length: u32) -> Result<(), AllocError>
    ensures { OnOk result (out.new.items ≡ out.old.items ++ (word length ++ bin_tag)) }
{
    out.extend_from_slice(&word_of(length))?;
    out.extend_from_slice(b"BIN\0")?;
    Ok(())
}

/// Adds the bytes of all buffers, each filled up with zeros.
fn put_joined(out: &mut Vec<u8>, buffers: &[Data]) -> Result<(), AllocError>
    ensures { OnOk result
        (out.new.items ≡ out.old.items ++ joined (bytes_of_each buffers.now)) }
{
    for buffer in buffers {
        put_filled(out, &buffer.0)?;
    }
    Ok(())
}

/// Adds bytes, filled up with zeros to a multiple of eight.
fn put_filled(out: &mut Vec<u8>, bytes: &[u8]) -> Result<(), AllocError>
    ensures { OnOk result (out.new.items ≡ out.old.items ++ filled bytes.now) }
{
    out.extend_from_slice(bytes)?;
    out.extend_from_slice(&[0; 7][..filling_of(bytes.len())])?;
    Ok(())
}
