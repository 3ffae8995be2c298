//! Why a call is not answered.
use gltf::Error;
use gltf_validation::error::Error as Broken;
use std::alloc::AllocError;
use std::{fmt, io};

/// Why a call is not answered.
#[derive(Debug, Drop)]
pub(crate) enum Refusal {
    /// The words make no call.
    Usage,
    /// The file is refused, or it or one that it names could not be read.
    File(Error),
    /// The document has no mesh at the index.
    NoMesh,
    /// The mesh has no primitive at the index.
    NoPrimitive,
    /// The primitive has no indices, or none that can be read.
    NoIndices,
    /// The answer could not be written.
    Write(io::Error),
}

impl Refusal {
    /// The exit status.
    pub(crate) fn status(&self) -> u8 {
        match self {
            Refusal::Usage => 2,
            Refusal::File(_)
            | Refusal::NoMesh
            | Refusal::NoPrimitive
            | Refusal::NoIndices
            | Refusal::Write(_) => 1,
        }
    }

    /// Whether what stands in the file is refused.
    pub(crate) fn is_of_content(&self) -> bool {
        matches!(
            self,
            Refusal::File(Error::Binary(_) | Error::Deserialize(_) | Error::Validation(_))
        )
    }

    /// Whether the file breaks no rule but that it requires extensions which the loader does not
    /// support.
    pub(crate) fn is_of_extensions(&self) -> bool {
        match self {
            Refusal::File(Error::Validation(broken)) => {
                broken.iter().all(|rule| rule.1 == Broken::Unsupported)
            }
            _ => false,
        }
    }

    /// Whether a file could not be read.
    pub(crate) fn is_failed_read(&self) -> bool {
        matches!(self, Refusal::File(Error::Io(_)))
    }
}

impl From<AllocError> for Refusal {
    fn from(_fault: AllocError) -> Refusal {
        Refusal::File(Error::Memory)
    }
}

impl From<Error> for Refusal {
    fn from(error: Error) -> Refusal {
        Refusal::File(error)
    }
}

impl fmt::Display for Refusal {
    fn fmt<W: fmt::Write>(&self, f: &mut fmt::Formatter<W>) -> fmt::Result {
        match self {
            Refusal::Usage => {
                write!(f, "usage: gltf_show chunks PATH | ")?;
                write!(f, "check PATH [--extensions[=NAME,..]] [--lenient] | ")?;
                write!(f, "indices PATH MESH PRIMITIVE ")?;
                write!(f, "[--extensions[=NAME,..]] [--lenient] | ")?;
                write!(
                    f,
                    "inspect PATH.. [--json [--pretty]] [--no-files|--outside] | "
                )?;
                write!(f, "inspect PATH --html [--no-files|--outside]")
            }
            Refusal::File(error) => write!(f, "{error}"),
            Refusal::NoMesh => write!(f, "no such mesh"),
            Refusal::NoPrimitive => write!(f, "no such primitive"),
            Refusal::NoIndices => write!(f, "no indices"),
            Refusal::Write(cause) => write!(f, "{cause}"),
        }
    }
}
