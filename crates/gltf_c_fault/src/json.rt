//! The JSON of a value, as text for C.
ghost use Rattle.std.specs.Option.{option_copied};
ghost use Rattle.gltf_c_fault.specs.Json.{GivesJson};

use crate::message::put;
use crate::status::Status;
use serde_json::Value;
use std::alloc::Global;

/// Writes the JSON text of a value to the front of `room`, cut to it, with a zero byte after it,
/// and its whole length to `length`. Where there is no value, or no memory for the text, it writes
/// nothing.
pub fn give_json(
    alloc: Global,
    value: Option<&Value>,
    room: &mut [u8],
    length: &mut usize,
) -> Status
    ensures { GivesJson (option_copied value.entry) result room.old room.new
        length.old length.new }
{
    let Some(value) = value else {
        return Status::NoSuchIndex;
    };
    match value.to_string(alloc) {
        Ok(text) => {
            put(text.as_str().as_bytes(), room);
            *length = text.len();
            Status::Success
        }
        Err(_) => Status::NoMemory,
    }
}
