//! Buffers and their views (glTF 2.0, section 3.6.1, "Buffers and Buffer Views").
ghost use Rattle.std.specs.Prelude.{IfOk};
ghost use Rattle.gltf_json_record.specs.Copy.{IsCopy};

use gltf_json_record::boxed::Boxed;
use gltf_json_record::copy::Copies;
use gltf_json_record::error::Error;
use gltf_json_record::extensions::Others;
use gltf_json_record::extras::Extras;
use gltf_json_record::index::Index;
use gltf_json_record::lent::Maybe;
use gltf_json_record::read::FromValue;
use gltf_json_record::validation::{Checked, Code};
use gltf_json_record::{copy_record, kinds, read_record};
use serde_json::Value;
use std::alloc::{AllocError, Global};

/// What the bytes of a view are for (glTF 2.0, section 5.11.5, `bufferView.target`).
#[derive(Clone, Copy, Debug, PartialEq, Eq)]
pub enum Target {
    /// Vertex attributes: the code 34962.
    ArrayBuffer,
    /// Vertex indices: the code 34963.
    ElementArrayBuffer,
}

impl Target {
    ghost use Rattle.std.specs.Prelude.{◌≡◌};
    ghost use Rattle.gltf_json_geometry.specs.Names.{view_target_name};

    /// The name of its code (glTF 2.0, section 5.11.5, `bufferView.target`), as `ARRAY_BUFFER`.
    pub fn as_str(&self) -> &'static str
        ensures { result.now ≡ view_target_name self.now }
    {
        match self {
            Target::ArrayBuffer => "ARRAY_BUFFER",
            Target::ElementArrayBuffer => "ELEMENT_ARRAY_BUFFER",
        }
    }
}

impl Code for Target {
    ghost use Rattle.gltf_json_geometry.specs.Codes.{view_target};

    ghost reads = { view_target };

    fn read(value: &Value) -> Option<Checked<Target>> {
        Some(match value.as_u64()? {
            34962 => Checked::Valid(Target::ArrayBuffer),
            34963 => Checked::Valid(Target::ElementArrayBuffer),
            _ => Checked::Invalid,
        })
    }
}

/// A block of bytes (glTF 2.0, section 5.10, "Buffer").
#[derive(Debug, Drop)]
pub struct Buffer {
    /// The length in bytes: `byteLength`.
    pub byte_length: u64,
    /// Where the bytes are: `uri`. A buffer without it is the binary chunk of a GLB file.
    pub uri: Option<String>,
    /// A name given by the user: `name`.
    pub name: Option<String>,
    /// The extensions: `extensions`. None is known here.
    pub extensions: Option<Boxed<Others>>,
    /// What the application stores here: `extras`.
    pub extras: Extras,
}

impl Buffer {
    ghost use Rattle.gltf_json_geometry.specs.Buffers.{buffer};

    /// A copy of the record, which shows what this one shows.
    #[tactic(auto, unfolding(crate::specs::Buffers::buffer))]
    pub fn clone(&self, alloc: Global) -> Result<Buffer, AllocError>
        ensures { IfOk result (IsCopy buffer self.now) }
    {
        copy_record!(self, alloc; Buffer { byte_length, } with {
            uri: Maybe,
            name: Maybe,
            extensions: Maybe,
            extras: Maybe,
        })
    }
}

impl Copies for Buffer {
    fn copy(&self, alloc: Global) -> Result<Buffer, AllocError> {
        self.clone(alloc)
    }
}

/// The rows of a buffer, for a macro that reads a record by them:
/// `buffer_rows!(read_record!(alloc, value))`.
#[macro_export]
macro_rules! buffer_rows {
    ($read:ident!($($from:ident),*)) => {
        $read!($($from),*; Buffer {
            byte_length: required("byteLength"),
            uri: optional("uri"),
            name: optional("name"),
            extensions: optional("extensions"),
            extras: optional("extras"),
        })
    };
}

impl FromValue for Buffer {
    ghost use Rattle.gltf_json_geometry.specs.Buffers.{buffer};

    ghost kind = { buffer };

    #[tactic(auto, unfolding(crate::specs::Buffers::buffer))]
    fn from_value(alloc: Global, value: &Value) -> Result<Buffer, Error> {
        buffer_rows!(read_record!(alloc, value))
    }
}

/// A slice of a buffer (glTF 2.0, section 5.11, "Buffer View").
#[derive(Debug, Drop)]
pub struct View {
    /// The buffer: `buffer`.
    pub buffer: Index<kinds::Buffer>,
    /// The length in bytes: `byteLength`.
    pub byte_length: u64,
    /// The distance in bytes from the start of the buffer: `byteOffset`. It stands for 0 where
    /// absent.
    pub byte_offset: Option<u64>,
    /// The distance in bytes from item to item: `byteStride`. Items are packed where it is absent.
    pub byte_stride: Option<u64>,
    /// What the bytes are for: `target`.
    pub target: Option<Checked<Target>>,
    /// A name given by the user: `name`.
    pub name: Option<String>,
    /// The extensions: `extensions`. None is known here.
    pub extensions: Option<Boxed<Others>>,
    /// What the application stores here: `extras`.
    pub extras: Extras,
}

impl View {
    ghost use Rattle.gltf_json_geometry.specs.Buffers.{buffer_view};

    /// A copy of the record, which shows what this one shows.
    #[tactic(auto, unfolding(crate::specs::Buffers::buffer_view))]
    pub fn clone(&self, alloc: Global) -> Result<View, AllocError>
        ensures { IfOk result (IsCopy buffer_view self.now) }
    {
        copy_record!(self, alloc; View {
            buffer, byte_length, byte_offset, byte_stride, target,
        } with {
            name: Maybe,
            extensions: Maybe,
            extras: Maybe,
        })
    }
}

impl Copies for View {
    fn copy(&self, alloc: Global) -> Result<View, AllocError> {
        self.clone(alloc)
    }
}

/// The rows of a view, for a macro that reads a record by them:
/// `view_rows!(read_record!(alloc, value))`.
#[macro_export]
macro_rules! view_rows {
    ($read:ident!($($from:ident),*)) => {
        $read!($($from),*; View {
            buffer: required("buffer"),
            byte_length: required("byteLength"),
            byte_offset: optional("byteOffset"),
            byte_stride: optional("byteStride"),
            target: optional("target"),
            name: optional("name"),
            extensions: optional("extensions"),
            extras: optional("extras"),
        })
    };
}

impl FromValue for View {
    ghost use Rattle.gltf_json_geometry.specs.Buffers.{buffer_view};

    ghost kind = { buffer_view };

    #[tactic(auto, unfolding(crate::specs::Buffers::buffer_view))]
    fn from_value(alloc: Global, value: &Value) -> Result<View, Error> {
        view_rows!(read_record!(alloc, value))
    }
}
