//! Why nothing was repacked.
use gltf_glb::Error;
use gltf_put::PutFault;
use std::{fmt, io};

const USAGE: &str = "usage: gltf_repack IN OUT

Writes the glTF file IN, GLB or JSON, to OUT as one GLB container with the same import.

The bytes go to OUT.part, a new file, which takes the name OUT once it is whole; so OUT may be IN.
Where a write fails, OUT is what it was before, and OUT.part is removed. Where the program is
stopped, or OUT.part cannot be removed, it is left behind with a part of the bytes; the program
writes to no OUT.part that is there already.

An OUT that is there has to be a regular file, or a symbolic link to one, which is then replaced in
its place. The new file has its mode. It belongs to whoever runs the program, and no other name of
the old file, a hard link, leads to it.";

/// Why nothing was repacked.
#[derive(Debug, Drop)]
pub(crate) enum Refusal<'w> {
    /// The words are not two.
    Usage,
    /// The file of this name could not be read.
    Read(&'w str, io::Error),
    /// The first file is refused.
    File(Error),
    /// The second file could not be written.
    Put(PutFault<'w>),
    /// The second file is whole, and the line that says so could not be written.
    Line(io::Error),
}

impl Refusal<'_> {
    /// The exit status.
    pub(crate) fn status(&self) -> u8 {
        match self {
            Refusal::Usage => 2,
            _ => 1,
        }
    }
}

impl From<Error> for Refusal<'_> {
    fn from(error: Error) -> Self {
        Refusal::File(error)
    }
}

impl<'w> From<PutFault<'w>> for Refusal<'w> {
    fn from(fault: PutFault<'w>) -> Self {
        Refusal::Put(fault)
    }
}

impl fmt::Display for Refusal<'_> {
    fn fmt<W: fmt::Write>(&self, f: &mut fmt::Formatter<W>) -> fmt::Result {
        match self {
            Refusal::Usage => write!(f, "{USAGE}"),
            Refusal::Read(name, cause) => write!(f, "{name}: {cause}"),
            Refusal::File(error) => write!(f, "{error}"),
            Refusal::Put(fault) => write!(f, "{fault}"),
            Refusal::Line(cause) => write!(f, "{cause}"),
        }
    }
}
