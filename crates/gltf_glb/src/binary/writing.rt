//! The bytes of a container out of its parts (glTF 2.0, section 4.4).
ghost use Rattle.std.specs.Prelude.{◌≡◌, ℕ, ◌+◌, ◌<◌, ◌^◌, ◌-◌, ◌%◌, ◌++◌, length, replicate};
ghost use Rattle.std.specs.Prelude.{OnOk, OnErr, SomeIff, None, option_copied};
ghost use Rattle.std.specs.IoError.{error_kind, raw_os_error};
ghost use Rattle.std.specs.Io.KnownBytes.{Appends};
ghost use Rattle.gltf_glb.specs.Bytes.{magic, word, chunk, padded};
ghost use Rattle.gltf_glb.specs.Written.{total_of, container_bytes};
ghost use Rattle.gltf_stream.specs.Streams.{WritesBeginning};

use byteorder::{ByteOrder, LittleEndian};
use gltf_stream::write_pieces;
use std::alloc::AllocError;
use std::io;
use std::io::{ErrorKind, Write};

/// How many bytes fill contents up to a multiple of four.
pub fn padding_of(contents: &[u8]) -> usize
    ensures { result ≡ (4 - length contents.now % 4) % 4 }
{
    (4 - contents.len() % 4) % 4
}

/// The length of the whole container in bytes, where its header can say it.
#[tactic(auto, using(crate::proofs::Lengths::total_none, crate::proofs::Lengths::total_some))]
pub(crate) fn total_of(json: &[u8], bin: Option<&[u8]>) -> Option<u32>
    ensures { let total = total_of json.now (option_copied bin.entry) in SomeIff result
        (total < 2 ^ 32) total }
{
    let mut total = 20 + json.len() as u128 + padding_of(json) as u128;
    if let Some(bin) = bin {
        total += 8 + bin.len() as u128 + padding_of(bin) as u128;
    }
    u32::try_from(total).ok()
}

/// The four bytes of a number, the lowest first.
#[tactic(auto, unfolding(crate::specs::Bytes::word))]
pub fn word_of(number: u32) -> [u8; 4]
    ensures { result ≡ word number }
{
    let mut bytes = [0; 4];
    LittleEndian::write_u32(&mut bytes, number);
    bytes
}

/// Adds the header of a container that has so many bytes (section 4.4.2).
pub fn put_header(out: &mut Vec<u8>, total: u32) -> Result<(), AllocError>
    ensures { OnOk result (out.new.items ≡ out.old.items ++ (magic ++ (word 2 ++ word total))) }
{
    out.extend_from_slice(b"glTF")?;
    out.extend_from_slice(&word_of(2))?;
    out.extend_from_slice(&word_of(total))?;
    Ok(())
}

/// Adds a chunk, filled up to a multiple of four bytes (section 4.4.3).
#[tactic(auto, using(crate::specs::FillingLaws::length_padded))]
pub fn put_chunk(
    out: &mut Vec<u8>,
    tag: [u8; 4],
    contents: &[u8],
    filler: u8,
) -> Result<(), AllocError>
    requires { length (padded filler contents.now) < 2 ^ 32 }
    ensures { OnOk result
        (out.new.items ≡ out.old.items ++ chunk tag (padded filler contents.now)) }
{
    let padding = padding_of(contents);
    let length = word_of((contents.len() + padding) as u32);
    out.extend_from_slice(&length)?;
    out.extend_from_slice(&tag)?;
    out.extend_from_slice(contents)?;
    out.extend_from_slice(&[filler; 3][..padding])?;
    Ok(())
}

/// A container would be longer than its header can say: the error of [`crate::Glb::to_vec`] and of
/// [`crate::Glb::to_writer`]. What a contract sees of an error is its kind, and that it is none of
/// the system's.
pub fn too_long() -> io::Error
    ensures kind { error_kind result ≡ ErrorKind.InvalidInput }
    ensures not_os { raw_os_error result ≡ None }
{
    io::Error::new(
        ErrorKind::InvalidInput,
        "a GLB container has at most 4294967295 bytes",
    )
}

/// Writes a container of the two parts, piece by piece.
pub(crate) fn write_container<W: Write>(
    writer: &mut W,
    total: u32,
    json: &[u8],
    bin: Option<&[u8]>,
) -> io::Result<()>
    requires { total ≡ total_of json.now (option_copied bin) }
    ensures ok { OnOk result (Appends (W.contents writer.old) (W.contents writer.new)
        (container_bytes json.now (option_copied bin.entry))) }
    ensures err { OnErr result (WritesBeginning (W.contents writer.old) (W.contents writer.new)
        (container_bytes json.now (option_copied bin.entry))) }
{
    let version = word_of(2);
    let total = word_of(total);
    let json_length = length_of(json);
    let json_filling = filling_of(json, b"   ");
    match bin {
        None => write_pieces(
            writer,
            &[
                b"glTF",
                &version,
                &total,
                &json_length,
                b"JSON",
                json,
                json_filling,
            ],
        ),
        Some(bin) => {
            let bin_length = length_of(bin);
            let bin_filling = filling_of(bin, b"\0\0\0");
            write_pieces(
                writer,
                &[
                    b"glTF",
                    &version,
                    &total,
                    &json_length,
                    b"JSON",
                    json,
                    json_filling,
                    &bin_length,
                    b"BIN\0",
                    bin,
                    bin_filling,
                ],
            )
        }
    }
}

/// What fills contents up to a multiple of four bytes.
fn filling_of<'f>(contents: &[u8], filler: &'f [u8; 3]) -> &'f [u8]
    ensures { (byte : ℕ) → filler.now ≡ replicate 3 byte
        → contents.now ++ result.now ≡ padded byte contents.now }
{
    &filler[..padding_of(contents)]
}

/// The four bytes of the length of contents that are filled up.
fn length_of(contents: &[u8]) -> [u8; 4]
    requires { length contents.now + (4 - length contents.now % 4) % 4 < 2 ^ 32 }
    ensures { result ≡ word (length contents.now + (4 - length contents.now % 4) % 4) }
{
    word_of((contents.len() + padding_of(contents)) as u32)
}
