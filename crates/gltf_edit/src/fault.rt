//! Why a document was not edited.
ghost use Rattle.std.specs.Prelude.{◌≡◌};
ghost use Rattle.gltf_edit.specs.declared.fault.Fault.TheVariants.{Memory};

use std::alloc::{AllocError, AllocFailed};

/// Why a document was not edited.
#[derive(Clone, Copy, Debug, Drop, PartialEq, Eq)]
pub enum Fault {
    /// The view at this index, or what `EXT_meshopt_compression` or `KHR_meshopt_compression` says
    /// of it, does not lie in its buffer.
    Outside(usize),
    /// The one buffer would have more than 4294967295 bytes.
    TooLong,
    /// There is not enough memory.
    Memory,
}

impl From<AllocError> for Fault {
    ghost from_gives = { λ _ fault. fault ≡ Memory };

    fn from(_cause: AllocError) -> Fault {
        Fault::Memory
    }
}

impl<T: Drop> From<AllocFailed<T>> for Fault {
    ghost from_gives = { λ _ fault. fault ≡ Memory };

    fn from(_cause: AllocFailed<T>) -> Fault {
        Fault::Memory
    }
}
