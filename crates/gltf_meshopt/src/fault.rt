//! Why a stream is not read.

ghost use Rattle.std.specs.Prelude.{◌≡◌};
ghost use Rattle.gltf_meshopt.specs.declared.fault.Stop.TheVariants as stops;
ghost use Rattle.gltf_meshopt.specs.declared.fault.Fault.TheVariants as faults;

use std::alloc::{AllocError, AllocFailed};

/// Why bytes are no stream of so many items, or that memory ran out.
#[derive(Clone, Copy, Debug, PartialEq, Eq)]
pub enum Fault {
    /// There is no memory for the items.
    Memory,
    /// The mode has no items of so many bytes.
    Stride,
    /// The mode has no streams of so many items.
    Count,
    /// So few bytes hold no stream of so many items.
    Short,
    /// The first byte is not that of the mode.
    Header,
    /// The item or group that begins at this byte goes past the end.
    Cut(usize),
    /// The last item ends before this byte, and the tail begins after it.
    Left(usize),
}

/// Why not all items were read.
#[derive(Clone, Copy, Debug, PartialEq, Eq)]
pub(crate) enum Stop {
    /// There is no memory for the items.
    Memory,
    /// An item ends too soon; so many bytes there are from its first one on.
    Cut(usize),
}

impl From<AllocError> for Stop {
    ghost from_gives = { λ _ e. e ≡ stops.Memory };

    fn from(_e: AllocError) -> Stop {
        Stop::Memory
    }
}

impl From<AllocError> for Fault {
    ghost from_gives = { λ _ e. e ≡ faults.Memory };

    fn from(_e: AllocError) -> Fault {
        Fault::Memory
    }
}
