//! The GLB container: a header, a JSON chunk and, where there is one, a BIN chunk (glTF 2.0,
//! section 4.4).
mod drawing;
mod glb;
mod reading;
pub mod writing;

pub use drawing::read_bytes;
pub use glb::Glb;
use std::{fmt, io};

/// Why bytes are no GLB container.
#[derive(Debug, Drop)]
pub enum Error {
    /// The bytes end in a header, in front of a chunk or within the first eight bytes of one. From
    /// a reader: it failed, or ended too early.
    Io(io::Error),
    /// The header's version is this one, and not 2.
    Version(u32),
    /// The first four bytes are these, and not `glTF`.
    Magic([u8; 4]),
    /// The declared length is below 12, or above the number of bytes.
    Length {
        /// The length that the header declares, in bytes.
        length: u32,
        /// The number of bytes at hand.
        length_read: usize,
    },
    /// A chunk is longer than the bytes that are left up to the declared length.
    ChunkLength {
        /// The type of the chunk.
        ty: ChunkType,
        /// The length of its data that the chunk declares, in bytes.
        length: u32,
        /// The number of bytes left for its data.
        length_read: usize,
    },
    /// A chunk of this type stands where it may not: BIN in front, or a second JSON.
    ChunkType(ChunkType),
    /// The first chunk has these four bytes for its type, or a later chunk has them and is longer
    /// than the bytes that are left.
    UnknownChunkType([u8; 4]),
}

/// The header of a GLB container, as read (glTF 2.0, section 4.4.2).
#[derive(Clone, Copy, Debug)]
pub struct Header {
    /// `glTF`.
    pub magic: [u8; 4],
    /// The version of the container: 2.
    pub version: u32,
    /// The length of the whole container in bytes, header included.
    pub length: u32,
}

/// The type of a chunk (glTF 2.0, section 4.4.3).
#[derive(Clone, Copy, Debug, PartialEq, Eq)]
pub enum ChunkType {
    /// Structured JSON content.
    Json,
    /// The binary buffer.
    Bin,
}

impl fmt::Display for Error {
    ghost use Rattle.gltf_glb.specs.Texts.{binary_text};

    ghost output = { binary_text };

    fn fmt<W: fmt::Write>(&self, f: &mut fmt::Formatter<W>) -> fmt::Result {
        match self {
            Error::Io(cause) => write!(f, "{cause}"),
            Error::Version(_) => write!(f, "unsupported version"),
            Error::Magic(_) => write!(f, "not glTF magic"),
            Error::Length { .. } => write!(f, "could not completely read the object"),
            Error::ChunkLength {
                ty: ChunkType::Json,
                ..
            } => write!(f, "JSON chunk length exceeds that of slice"),
            Error::ChunkLength {
                ty: ChunkType::Bin,
                ..
            } => write!(f, "BIN\\0 chunk length exceeds that of slice"),
            Error::ChunkType(ChunkType::Json) => write!(f, "was not expecting JSON chunk"),
            Error::ChunkType(ChunkType::Bin) => write!(f, "was not expecting BIN\\0 chunk"),
            Error::UnknownChunkType(_) => write!(f, "unknown chunk type"),
        }
    }
}

impl std::error::Error for Error {}
