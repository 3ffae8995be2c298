//! What a call answers.

ghost use Rattle.std.specs.Prelude.{◌≡◌};

use gltf_glb::Error;

/// What a call answers. C sees the number.
#[derive(Clone, Copy, Debug, PartialEq, Eq)]
pub enum Status {
    /// The call did what it says.
    Success,
    /// There was not enough memory.
    NoMemory,
    /// The bytes are no GLB container.
    BadContainer,
    /// The text is no JSON, or its value is no glTF document.
    BadJson,
    /// The document breaks rules.
    BrokenRules,
    /// The payload of a `data:` URI is no base64.
    BadBase64,
    /// A buffer has fewer bytes than it declares.
    ShortBuffer,
    /// A buffer has no URI, and there is no BIN chunk for it.
    MissingBlob,
    /// A URI leads outside of the bytes.
    ExternalReference,
    /// A URI has a scheme that is not supported, or is no text.
    UnsupportedScheme,
    /// A file, a reader or a writer failed. No call of this library answers it.
    InputOutput,
    /// The handle is closed.
    Closed,
    /// Nothing has that index, or it has not what was asked for.
    NoSuchIndex,
    /// The accessor cannot be read over the buffers.
    Unreadable,
    /// The room that was given is too small.
    NoRoom,
    /// An extension does not fit its table, or breaks its rules.
    BadExtension,
    /// A flag is not known, or what is reserved is not 0.
    BadArgument,
}

impl Status {
    ghost use Rattle.gltf_c_fault.specs.Status.{code};

    /// The number that C sees.
    pub fn code(self) -> u32
        ensures { result ≡ code self }
    {
        match self {
            Status::Success => 0,
            Status::NoMemory => 1,
            Status::BadContainer => 2,
            Status::BadJson => 3,
            Status::BrokenRules => 4,
            Status::BadBase64 => 5,
            Status::ShortBuffer => 6,
            Status::MissingBlob => 7,
            Status::ExternalReference => 8,
            Status::UnsupportedScheme => 9,
            Status::InputOutput => 10,
            Status::Closed => 11,
            Status::NoSuchIndex => 12,
            Status::Unreadable => 13,
            Status::NoRoom => 14,
            Status::BadExtension => 17,
            Status::BadArgument => 18,
        }
    }

    ghost use Rattle.gltf_c_fault.specs.Status.{status_of};

    /// What an error of the loader is to C.
    pub fn of(error: &Error) -> Status
        ensures { result ≡ status_of error.now }
    {
        match error {
            Error::Memory => Status::NoMemory,
            Error::Binary(_) => Status::BadContainer,
            Error::Deserialize(_) => Status::BadJson,
            Error::Validation(_) => Status::BrokenRules,
            Error::Base64(_) => Status::BadBase64,
            Error::BufferLength { .. } => Status::ShortBuffer,
            Error::MissingBlob => Status::MissingBlob,
            Error::ExternalReferenceInSliceImport => Status::ExternalReference,
            Error::UnsupportedScheme => Status::UnsupportedScheme,
            Error::Io(_) => Status::InputOutput,
        }
    }
}
