//! Text that C reads: bytes with a zero byte after them.

ghost use Rattle.std.specs.Prelude.{◌≡◌};
ghost use Rattle.gltf_c_fault.specs.Message.{text_in_room, Appends, Tells};

use gltf_glb::Error;
use std::alloc::Global;

/// Writes the text of an error to the front of `room`, cut to it, with a zero byte after it. Where
/// there is no memory for the text, it says so.
pub fn tell(alloc: Global, error: &Error, room: &mut [u8])
    ensures { Tells error.now room.old room.new }
{
    match format!(in alloc; "{error}") {
        Ok(text) => put(text.as_str().as_bytes(), room),
        Err(_) => put(b"there is no memory for the message", room),
    }
}

/// Writes text to the front of `room`, as much of it as there is room for, and a zero byte after
/// it. Where there is no room at all, it writes nothing.
pub fn put(text: &[u8], room: &mut [u8])
    ensures { room.new ≡ text_in_room text.now room.old }
{
    if room.is_empty() {
        return;
    }
    let len = text.len().min(room.len() - 1);
    room[..len].copy_from_slice(&text[..len]);
    room[len] = 0;
}

/// Writes more text behind the text that [`put`] wrote to the front of `room`, of which `used`
/// bytes are there: as much of it as there is room for, and a zero byte after it. Returns how many
/// bytes of both are there.
pub(crate) fn put_more(text: &[u8], room: &mut [u8], used: usize) -> usize
    ensures { Appends text.now room.old used room.new result }
{
    if used >= room.len() {
        return used;
    }
    let rest = &mut room[used..];
    put(text, rest);
    used + text.len().min(rest.len() - 1)
}
