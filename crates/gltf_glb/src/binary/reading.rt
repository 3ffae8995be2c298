//! A container out of bytes: the header, the JSON chunk, and what follows it.
ghost use Rattle.std.specs.Prelude.{◌≡◌, ◌≤◌, ◌+◌, length, None, Some, Ok, Err, MatchResult};
ghost use Rattle.std.specs.Prelude.{IfOk, IfSome, Result};
ghost use Rattle.gltf_glb.specs.Bytes.{word_at, tag_at};
ghost use Rattle.gltf_glb.specs.Faults.{Short, type_of, later_fault, json_fault, header_fault};
ghost use Rattle.gltf_glb.specs.Container.{Later, IsBody, HasBodyFault};
ghost use Rattle.gltf_glb.specs.Steps.{fault_of, IsNext, CutsJson, CutsHeader};
ghost use Rattle.gltf_glb.specs.Steps.{bytes_of_blob, StandsIn};

use crate::binary::{ChunkType, Error, Header};
use byteorder::{ByteOrder, LittleEndian};
use std::io;

/// The number in the four bytes from a place.
#[tactic(auto, unfolding(crate::specs::Bytes::word_at))]
pub(crate) fn word_at(bytes: &[u8], at: usize) -> u32
    requires { at + 4 ≤ length bytes.now }
    ensures { result ≡ word_at at bytes.now }
{
    let (_, rest) = bytes.split_at(at);
    LittleEndian::read_u32(rest)
}

/// The four bytes from a place.
#[tactic(auto, using(crate::proofs::Words::cells_at))]
pub(crate) fn tag_at(bytes: &[u8], at: usize) -> [u8; 4]
    requires { at + 4 ≤ length bytes.now }
    ensures { result ≡ tag_at at bytes.now }
{
    let (_, rest) = bytes.split_at(at);
    [rest[0], rest[1], rest[2], rest[3]]
}

/// The bytes end too early.
fn short() -> Error
    ensures { fault_of result ≡ Short }
{
    Error::Io(io::Error::new(io::ErrorKind::UnexpectedEof, "failed to fill whole buffer"))
}

/// The type that four bytes name.
fn type_of(tag: [u8; 4]) -> Option<ChunkType>
    ensures { result ≡ type_of tag }
{
    if tag == *b"JSON" {
        Some(ChunkType::Json)
    } else if tag == *b"BIN\0" {
        Some(ChunkType::Bin)
    } else {
        None
    }
}

/// The header, and the bytes between it and the end that it declares.
#[tactic(auto, unfolding(crate::specs::Faults::header_fault))]
pub(crate) fn header_of(bytes: &[u8]) -> Result<(Header, &[u8]), Error>
    ensures { MatchResult result
        (λ found. CutsHeader bytes.now found.0 found.1.now)
        (λ e. header_fault bytes.now ≡ Some (fault_of e)) }
{
    if bytes.len() < 4 {
        return Err(short());
    }
    let magic = tag_at(bytes, 0);
    if magic != *b"glTF" {
        return Err(Error::Magic(magic));
    }
    if bytes.len() < 12 {
        return Err(short());
    }
    let version = word_at(bytes, 4);
    let length = word_at(bytes, 8);
    if length < 12 || bytes.len() < length as usize {
        return Err(Error::Length {
            length,
            length_read: bytes.len(),
        });
    }
    if version != 2 {
        return Err(Error::Version(version));
    }
    let header = Header {
        magic,
        version,
        length,
    };
    let (declared, _) = bytes.split_at(length as usize);
    let (_, body) = declared.split_at(12);
    Ok((header, body))
}

/// The bytes of a BIN chunk, and what follows them up to the declared end.
#[derive(Clone, Copy)]
pub(crate) struct Blob<'a> {
    pub(crate) contents: &'a [u8],
    pub(crate) behind: &'a [u8],
}

/// The two parts of what stands between the header and the declared end.
pub(crate) fn parts_of(body: &[u8]) -> Result<(&[u8], Option<Blob<'_>>), Error>
    ensures parts { MatchResult result
        (λ parts. IsBody body.now parts.0.now (bytes_of_blob parts.1))
        (λ e. HasBodyFault body.now (fault_of e)) }
    ensures place { IfOk result (λ parts. IfSome parts.1 (StandsIn body.now)) }
{
    let (json, left) = json_of(body)?;
    let blob = blob_of(left)?;
    Ok((json, blob))
}

/// The bytes of the JSON chunk, and what follows it.
#[tactic(auto, unfolding(crate::specs::Faults::json_fault))]
fn json_of(body: &[u8]) -> Result<(&[u8], &[u8]), Error>
    ensures { MatchResult result
        (λ parts. CutsJson body.now parts.0.now parts.1.now)
        (λ e. json_fault body.now ≡ Some (fault_of e)) }
{
    if body.len() < 8 {
        return Err(short());
    }
    let length = word_at(body, 0);
    let tag = tag_at(body, 4);
    let (_, contents) = body.split_at(8);
    match type_of(tag) {
        Some(ChunkType::Json) => {
            if contents.len() < length as usize {
                return Err(Error::ChunkLength {
                    ty: ChunkType::Json,
                    length,
                    length_read: contents.len(),
                });
            }
            let (json, left) = contents.split_at(length as usize);
            Ok((json, left))
        }
        Some(ChunkType::Bin) => Err(Error::ChunkType(ChunkType::Bin)),
        None => Err(Error::UnknownChunkType(tag)),
    }
}

/// The BIN chunk among the chunks after the JSON chunk: those of unknown type are skipped.
#[tactic(auto, using(crate::proofs::Chunks::later_here, crate::proofs::Chunks::later_skip))]
fn blob_of(chunks: &[u8]) -> Result<Option<Blob<'_>>, Error>
    ensures later { MatchResult result
        (λ blob. Later chunks.now (Ok (bytes_of_blob blob)))
        (λ e. Later chunks.now (Err (fault_of e))) }
    ensures place { IfOk result (λ blob. IfSome blob (StandsIn chunks.now)) }
{
    let mut left = chunks;
    'chunks: loop {
        match next_of(left)? {
            Next::End => return Ok(None),
            Next::Bin(blob) => return Ok(Some(blob)),
            Next::Skip(rest) => left = rest,
        }
    }
}

/// What one look at the chunks that are left finds.
enum Next<'a> {
    /// No chunk is left.
    End,
    /// A BIN chunk.
    Bin(Blob<'a>),
    /// A chunk of unknown type, and what follows it.
    Skip(&'a [u8]),
}

#[tactic(auto, unfolding(crate::specs::Faults::later_fault))]
fn next_of(left: &[u8]) -> Result<Next<'_>, Error>
    ensures { MatchResult result
        (λ next. IsNext left.now next)
        (λ e. later_fault left.now ≡ Some (fault_of e)) }
{
    if left.is_empty() {
        return Ok(Next::End);
    }
    if left.len() < 8 {
        return Err(short());
    }
    let length = word_at(left, 0);
    let tag = tag_at(left, 4);
    let (_, contents) = left.split_at(8);
    let is_long = contents.len() < length as usize;
    match type_of(tag) {
        Some(ChunkType::Json) => Err(Error::ChunkType(ChunkType::Json)),
        Some(ChunkType::Bin) => {
            if is_long {
                return Err(Error::ChunkLength {
                    ty: ChunkType::Bin,
                    length,
                    length_read: contents.len(),
                });
            }
            let (contents, behind) = contents.split_at(length as usize);
            Ok(Next::Bin(Blob { contents, behind }))
        }
        None => {
            if is_long {
                return Err(Error::UnknownChunkType(tag));
            }
            let (_, rest) = contents.split_at(length as usize);
            Ok(Next::Skip(rest))
        }
    }
}
