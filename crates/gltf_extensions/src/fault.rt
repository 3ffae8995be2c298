//! Why an extension was not read.
ghost use Rattle.gltf_extensions.specs.Faults.{IsOfRecord};

use gltf_json_record::error::{Error, RecordFault};
use gltf_json_record::path::Path;
use gltf_validation::error as validation;
use std::alloc::AllocError;
use std::fmt;

/// Why an extension was not read. A path begins at the value of the extension;
/// [`Path::pointer`] gives its JSON Pointer.
#[derive(Debug, Drop)]
pub enum ExtensionFault {
    /// A member is missing, or of another kind than the extension asks for.
    Record {
        /// Where it stands.
        path: Path,
        /// What is wrong there.
        fault: RecordFault,
    },
    /// Indices are not below the lengths of their lists, or codes are not in their tables: all of
    /// these, in order.
    Rules(Vec<(Path, validation::Error)>),
    /// There was not enough memory.
    Memory,
}

impl From<AllocError> for ExtensionFault {
    ghost use Rattle.std.specs.Prelude.{◌≡◌};
    ghost use Rattle.gltf_extensions.specs.declared.fault.ExtensionFault.TheVariants.{Memory};

    ghost from_gives = { λ _ fault. fault ≡ Memory };

    fn from(_refused: AllocError) -> ExtensionFault {
        ExtensionFault::Memory
    }
}

/// The place and what is wrong there, as `mask: Index out of bounds;`.
impl fmt::Display for ExtensionFault {
    fn fmt<W: fmt::Write>(&self, f: &mut fmt::Formatter<W>) -> fmt::Result {
        match self {
            ExtensionFault::Record { path, fault } => write!(f, "{path}: {fault}"),
            ExtensionFault::Rules(faults) => write_faults(faults, f),
            ExtensionFault::Memory => write!(f, "out of memory"),
        }
    }
}

impl std::error::Error for ExtensionFault {}

fn write_faults<W: fmt::Write>(
    faults: &[(Path, validation::Error)],
    f: &mut fmt::Formatter<W>,
) -> fmt::Result {
    let mut space = "";
    for (path, error) in faults {
        write!(f, "{space}{path}: {error};")?;
        space = " ";
    }
    Ok(())
}

/// The fault of a record that was read from no text.
pub(crate) fn of_record(error: Error) -> ExtensionFault
    ensures { IsOfRecord error result }
{
    match error {
        Error::Record { path, fault } => ExtensionFault::Record { path, fault },
        Error::Text(_) => ExtensionFault::Memory,
        Error::Memory => ExtensionFault::Memory,
    }
}
