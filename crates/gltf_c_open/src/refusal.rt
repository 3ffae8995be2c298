//! Why bytes are not opened.
ghost use Rattle.std.specs.Prelude.{◌≡◌};
ghost use Rattle.gltf_c_open.specs.Refusals.{of_no_buffer, out_of_memory, of_buffer};

use gltf::Error;
use std::alloc::{AllocError, AllocFailed};

/// Why bytes are not opened.
#[derive(Debug, Drop)]
pub struct Refusal {
    /// The error of the first layer that does not hold.
    pub error: Error,
    /// The index of the buffer at fault, where one is.
    pub buffer: Option<usize>,
}

impl From<Error> for Refusal {
    ghost from_gives = { λ error refusal. refusal ≡ of_no_buffer error };

    fn from(error: Error) -> Refusal {
        Refusal {
            error,
            buffer: None,
        }
    }
}

impl From<AllocError> for Refusal {
    ghost from_gives = { λ _ refusal. refusal ≡ out_of_memory };

    fn from(_cause: AllocError) -> Refusal {
        Refusal::from(Error::Memory)
    }
}

impl<T: Drop> From<AllocFailed<T>> for Refusal {
    ghost from_gives = { λ _ refusal. refusal ≡ out_of_memory };

    fn from(_cause: AllocFailed<T>) -> Refusal {
        Refusal::from(Error::Memory)
    }
}

/// The refusal of a buffer by its error. Out of memory is no fault of the buffer.
pub(crate) fn of_buffer(index: usize, error: Error) -> Refusal
    ensures { result ≡ of_buffer index error }
{
    match error {
        Error::Memory => Refusal::from(Error::Memory),
        other => Refusal {
            error: other,
            buffer: Some(index),
        },
    }
}
