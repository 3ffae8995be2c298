//! What is asked for, written for C where it is there.
ghost use Rattle.gltf_c_handle.specs.Given.{IsGiven, IsGivenOr};

use gltf_c_extensions::reading::Missing;
use gltf_c_fault::status::Status;

/// Writes what was found.
pub(crate) fn give<T: Copy + Drop>(found: Option<T>, out: &mut T) -> Status
    ensures { IsGiven found result out.old out.new }
{
    match found {
        Some(found) => {
            *out = found;
            Status::Success
        }
        None => Status::NoSuchIndex,
    }
}

/// Writes what was read.
pub(crate) fn give_read<T: Copy + Drop>(read: Result<T, Missing>, out: &mut T) -> Status
    ensures { IsGivenOr read result out.old out.new }
{
    match read {
        Ok(read) => {
            *out = read;
            Status::Success
        }
        Err(Missing::Absent) => Status::NoSuchIndex,
        Err(Missing::Bad) => Status::BadExtension,
        Err(Missing::Memory) => Status::NoMemory,
    }
}
