//! Why a file was not written.
use std::alloc::AllocError;
use std::{fmt, io};

/// Why a file was not written.
#[derive(Debug, Drop)]
pub enum PutFault<'w> {
    /// What stands at this name could not be looked at.
    Look(&'w str, io::Error),
    /// What stands at this name is neither a file nor a link to one.
    NoFile(&'w str),
    /// The file of this name could not be written whole, or not take its last name.
    Write(String, io::Error),
    /// There is not enough memory for a path.
    Memory,
}

impl From<AllocError> for PutFault<'_> {
    fn from(_cause: AllocError) -> Self {
        PutFault::Memory
    }
}

impl fmt::Display for PutFault<'_> {
    fn fmt<W: fmt::Write>(&self, f: &mut fmt::Formatter<W>) -> fmt::Result {
        match self {
            PutFault::Look(name, cause) => write!(f, "{name}: {cause}"),
            PutFault::NoFile(name) => write!(f, "{name}: not a regular file"),
            PutFault::Write(name, cause) => write!(f, "{name}: {cause}"),
            PutFault::Memory => write!(f, "out of memory"),
        }
    }
}
