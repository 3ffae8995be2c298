//! What is asked for, written to a room of the caller's where it is there.
ghost use Rattle.std.specs.Prelude.{◌≡◌, option_map, MatchResult};
ghost use Rattle.std.specs.Option.{option_copied};
ghost use Rattle.std.specs.String.{string_bytes};
ghost use Rattle.gltf_c_fault.specs.declared.status.Status.TheVariants.{NoMemory};
ghost use Rattle.gltf_c_scene.specs.Values.{listed_numbers};
ghost use Rattle.gltf_c_calls.specs.Given.{IsGivenText, IsGivenList};

use gltf_c_fault::message::put;
use gltf_c_fault::status::Status;
use gltf_c_scene::numbers::{write_indices, write_numbers};
use gltf_json::{Index, Value, kinds};
use std::alloc::AllocError;

/// Writes the text that was found to the front of `room`, as `put` does, and how many bytes it has.
pub(crate) fn give_text(found: Option<&str>, room: &mut [u8], length: &mut usize) -> Status
    ensures { IsGivenText (option_copied found.entry) result room.old room.new
        length.old length.new }
{
    match found {
        Some(text) => {
            put(text.as_bytes(), room);
            *length = text.len();
            Status::Success
        }
        None => Status::NoSuchIndex,
    }
}

/// The same of a text that was made. `NoMemory`, and nothing written, where it could not be.
pub(crate) fn give_made_text(
    made: Result<Option<String>, AllocError>,
    room: &mut [u8],
    length: &mut usize,
) -> Status
    ensures { MatchResult made
        (λ found. IsGivenText (option_map string_bytes found) result room.old room.new
        length.old length.new)
        (λ _. (result ≡ NoMemory) × (room.new ≡ room.old) × (length.new ≡ length.old)) }
{
    match made {
        Ok(found) => give_text(found.as_deref(), room, length),
        Err(_) => Status::NoMemory,
    }
}

/// Writes the front of the list that was found to the front of `out`, and how long it is.
pub(crate) fn give_indices(
    found: Option<&[Index<kinds::Node>]>,
    out: &mut [usize],
    count: &mut usize,
) -> Status
    ensures { IsGivenList (option_copied found.entry) result out.old out.new count.old count.new }
{
    match found {
        Some(list) => {
            *count = write_indices(list, out);
            Status::Success
        }
        None => Status::NoSuchIndex,
    }
}

/// The same of the numbers of a member.
pub(crate) fn give_numbers(
    found: Option<&Option<Value>>,
    out: &mut [f64],
    count: &mut usize,
) -> Status
    ensures { IsGivenList (option_map listed_numbers (option_copied found.entry)) result
        out.old out.new count.old count.new }
{
    match found {
        Some(member) => {
            *count = write_numbers(member.as_ref(), out);
            Status::Success
        }
        None => Status::NoSuchIndex,
    }
}
