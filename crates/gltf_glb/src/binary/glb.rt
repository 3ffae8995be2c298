//! The two parts of a GLB container.
ghost use Rattle.std.specs.Prelude.{◌≡◌, ◌≤◌, ◌+◌, length, take, drop, OnOk, IfOk, IfErr, IfSome};
ghost use Rattle.std.specs.Prelude.{OnErr, Ok, vec_capacity};
ghost use Rattle.std.specs.Cow.{cow_slice_items, IsBorrowedSlice};
ghost use Rattle.gltf_glb.specs.Glb.{items_of, IsReadFrom, Refuses, IsCopy, IsWritten, HasRoom};
ghost use Rattle.gltf_glb.specs.Glb.{RefusesToWrite, IsTakenFrom, RefusesOrRunsOut, StaysLent};
ghost use Rattle.gltf_glb.specs.Reading.{IsReadingOf};
ghost use Rattle.gltf_glb.specs.Steps.{IsHeader, bytes_of_blob, StandsIn};
ghost use Rattle.gltf_glb.specs.Reader.{ReadsContainer};
ghost use Rattle.gltf_glb.specs.Writer.{WritesContainer, RefusesToWriteTo};

use crate::binary::reading::Blob;
use crate::binary::{Header, read_bytes, reading, writing};
use crate::error::{Error, Result};
use std::alloc::{AllocError, Global};
use std::borrow::CowSlice;
use std::io::{Read, Write};

/// The parts of a GLB container (glTF 2.0, section 4.4): JSON, and a binary buffer where there is
/// one.
#[derive(Debug, Drop)]
pub struct Glb<'a> {
    /// The header as read. It is not looked at when the parts are written.
    pub header: Header,
    /// The bytes of the JSON chunk, padding included.
    pub json: CowSlice<'a, u8>,
    /// The bytes of the BIN chunk, padding included.
    pub bin: Option<CowSlice<'a, u8>>,
}

impl<'a> Glb<'a> {
    /// The parts of the container that the bytes are, both lent. Takes no memory.
    ///
    /// The chunks stand between the header and the length that it declares; what follows is not
    /// looked at. The first chunk is JSON. Whole chunks of unknown type after it are skipped; after
    /// a BIN chunk anything may follow.
    ///
    /// Otherwise the answer is [`Error::Binary`] with the one fault that the bytes have.
    pub fn from_slice(bytes: &'a [u8]) -> Result<Glb<'a>>
        ensures parts { IfOk result (IsReadFrom bytes.now) }
        ensures fault { IfErr result (Refuses bytes.now) }
    {
        let (header, json, blob) = parts_of(bytes)?;
        Ok(Glb {
            header,
            json: CowSlice::Borrowed(json),
            bin: lent(blob),
        })
    }

    /// [`Glb::from_slice`] of bytes that are given up: both parts are owned. The binary buffer is
    /// handed on in the room that the bytes had; memory is taken for the JSON alone.
    ///
    /// Answers [`Error::Binary`] with the one fault that the bytes have, or [`Error::Memory`] where
    /// they have none.
    pub fn from_vec(alloc: Global, bytes: Vec<u8>) -> Result<Glb<'static>>
        ensures parts { IfOk result (IsTakenFrom bytes.items) }
        ensures moved { IfOk result (λ glb. IfSome glb.bin (HasRoom (vec_capacity bytes))) }
        ensures fault { IfErr result (RefusesOrRunsOut bytes.items) }
    {
        let (header, json, blob) = parts_of(&bytes)?;
        let json = CowSlice::Owned(Vec::from_slice(alloc, json)?);
        let Some(Blob { contents, behind }) = blob else {
            return Ok(Glb {
                header,
                json,
                bin: None,
            });
        };
        let count = contents.len();
        let at = header.length as usize - behind.len() - count;
        let bin = CowSlice::Owned(cut_out(bytes, at, count));
        Ok(Glb {
            header,
            json,
            bin: Some(bin),
        })
    }

    /// The parts of the container that a reader gives, both owned. It is read up to the length that
    /// the header declares, and no further than the header where that is refused. The version is
    /// looked at before the length.
    ///
    /// A read that fails, for whatever cause, is not tried again. [`binary::Error::Io`] says that
    /// the reader failed, or that it or the container ended too early. Memory grows with the bytes
    /// that came, whatever length the header declares; [`Error::Memory`] says that there was not
    /// enough.
    ///
    /// [`binary::Error::Io`]: crate::binary::Error::Io
    pub fn from_reader<R: Read>(alloc: Global, reader: &mut R) -> Result<Glb<'static>>
        ensures { ReadsContainer (R.remaining reader.old) (R.remaining reader.new) result }
    {
        let mut bytes = Vec::new(alloc);
        read_bytes(reader, &mut bytes)?;
        Glb::from_vec(alloc, bytes)
    }

    /// The bytes of a container of these parts: JSON is filled up with spaces and the binary buffer
    /// with zeros, each to a multiple of four bytes. The header is written anew.
    ///
    /// Answers [`Error::Io`] where the whole would be longer than 4294967295 bytes, before any
    /// memory is taken, else [`Error::Memory`] where there is not enough.
    pub fn to_vec(&self, alloc: Global) -> Result<Vec<u8>>
        ensures written { IfOk result
            (IsWritten (cow_slice_items self.now.json) (items_of self.now.bin)) }
        ensures refused { IfErr result
            (RefusesToWrite (cow_slice_items self.now.json) (items_of self.now.bin)) }
    {
        let json = self.json.as_slice();
        let bin = self.bin.as_deref();
        let Some(total) = writing::total_of(json, bin) else {
            return Err(Error::Io(writing::too_long()));
        };
        let mut out = Vec::with_capacity(alloc, total as usize)?;
        writing::put_header(&mut out, total)?;
        writing::put_chunk(&mut out, *b"JSON", json, b' ')?;
        if let Some(bin) = bin {
            writing::put_chunk(&mut out, *b"BIN\0", bin, 0)?;
        }
        Ok(out)
    }

    /// Writes the bytes that [`Glb::to_vec`] answers. Takes no memory.
    ///
    /// Answers [`Error::Io`] where the whole would be longer than 4294967295 bytes, before anything
    /// is written, or where a write failed or took nothing. Then a beginning of the bytes was
    /// written. A write that fails, for whatever cause, is not tried again.
    pub fn to_writer<W: Write>(&self, writer: &mut W) -> Result<()>
        ensures written { OnOk result
            (WritesContainer (W.contents writer.old) (W.contents writer.new)
            (cow_slice_items self.now.json) (items_of self.now.bin)) }
        ensures refused { IfErr result
            (RefusesToWriteTo (W.contents writer.old) (W.contents writer.new)
            (cow_slice_items self.now.json) (items_of self.now.bin)) }
    {
        let json = self.json.as_slice();
        let bin = self.bin.as_deref();
        let Some(total) = writing::total_of(json, bin) else {
            return Err(Error::Io(writing::too_long()));
        };
        match writing::write_container(writer, total, json, bin) {
            Ok(()) => Ok(()),
            Err(cause) => Err(Error::Io(cause)),
        }
    }

    /// A copy of the parts: what is lent stays lent, what is owned is copied.
    pub fn clone(&self, alloc: Global) -> Result<Glb<'a>, AllocError>
        ensures copy { IfOk result (IsCopy self.now) }
        ensures lent { IfOk result (StaysLent self.now) }
    {
        let bin = match &self.bin {
            Some(bin) => Some(copy_of(alloc, bin)?),
            None => None,
        };
        Ok(Glb {
            header: self.header,
            json: copy_of(alloc, &self.json)?,
            bin,
        })
    }
}

/// The header, the JSON and the binary buffer of the container that the bytes are.
fn parts_of(bytes: &[u8]) -> Result<(Header, &[u8], Option<Blob<'_>>)>
    ensures parts { IfOk result (λ parts. IsReadingOf bytes.now
        (Ok (parts.1.now, bytes_of_blob parts.2))) }
    ensures header { IfOk result (λ parts. IsHeader bytes.now parts.0) }
    ensures declared { IfOk result (λ parts. parts.0.length ≤ length bytes.now) }
    ensures place { IfOk result (λ parts. IfSome parts.2
        (StandsIn (take parts.0.length bytes.now))) }
    ensures fault { IfErr result (Refuses bytes.now) }
{
    let (header, body) = reading::header_of(bytes)?;
    let (json, blob) = reading::parts_of(body)?;
    Ok((header, json, blob))
}

/// So many of the bytes from a place on, in the room that all had.
fn cut_out(bytes: Vec<u8>, at: usize, count: usize) -> Vec<u8>
    requires { at + count ≤ length bytes.items }
    ensures items { result.items ≡ take count (drop at bytes.items) }
    ensures room { vec_capacity result ≡ vec_capacity bytes }
{
    let mut bytes = bytes;
    bytes.copy_within(at..at + count, 0);
    bytes.truncate(count);
    bytes
}

fn lent(blob: Option<Blob<'_>>) -> Option<CowSlice<'_, u8>>
    ensures items { items_of result ≡ bytes_of_blob blob.entry }
    ensures lent { IfSome result IsBorrowedSlice }
{
    blob.map(|blob| CowSlice::Borrowed(blob.contents))
}

fn copy_of<'a>(alloc: Global, part: &CowSlice<'a, u8>) -> Result<CowSlice<'a, u8>, AllocError>
    ensures items { IfOk result (λ copy. cow_slice_items copy ≡ cow_slice_items part.now) }
    ensures lent { IfOk result (λ copy. IsBorrowedSlice part.now → IsBorrowedSlice copy) }
{
    match part {
        CowSlice::Borrowed(part) => Ok(CowSlice::Borrowed(*part)),
        CowSlice::Owned(part) => Ok(CowSlice::Owned(Vec::from_slice(alloc, part)?)),
    }
}
