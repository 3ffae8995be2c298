//! The codes of containers and texts that are refused (glTF 2.0, sections 4.4 and 2.7).
ghost use Rattle.std.specs.Prelude.{◌≡◌, length};
ghost use Rattle.gltf_inspect_files.specs.Containers.{end_code, length_code, unknown_code};
ghost use Rattle.gltf_inspect_files.specs.Containers.{container_code};

use gltf_findings::code::Code;
use gltf_glb::binary::{ChunkType, Error};

/// The code of the fault of a container with these bytes.
pub(crate) fn container_code(bytes: &[u8], error: &Error) -> Code
    ensures { result ≡ container_code bytes.now error.now }
{
    match error {
        Error::Io(_) => end_code(bytes.len()),
        Error::Version(_) => Code::GlbInvalidVersion,
        Error::Magic(_) => Code::InvalidJson,
        Error::Length { length, .. } => length_code(*length),
        Error::ChunkLength { .. } => Code::GlbChunkTooBig,
        Error::ChunkType(ChunkType::Json) => Code::GlbDuplicateChunk,
        Error::ChunkType(ChunkType::Bin) => Code::GlbUnexpectedFirstChunk,
        Error::UnknownChunkType(_) => unknown_code(bytes),
    }
}

fn end_code(len: usize) -> Code
    ensures { result ≡ end_code len }
{
    if len < 12 {
        Code::GlbUnexpectedEndOfHeader
    } else {
        Code::GlbUnexpectedEndOfChunkHeader
    }
}

fn length_code(declared: u32) -> Code
    ensures { result ≡ length_code declared }
{
    if declared < 12 {
        Code::GlbLengthTooSmall
    } else {
        Code::GlbLengthMismatch
    }
}

fn unknown_code(bytes: &[u8]) -> Code
    ensures { result ≡ unknown_code bytes.now }
{
    let rest = if bytes.len() < 16 {
        &bytes[bytes.len()..]
    } else {
        &bytes[16..]
    };
    if rest.starts_with(b"JSON") {
        Code::GlbChunkTooBig
    } else {
        Code::GlbUnexpectedFirstChunk
    }
}
