//! The JSON Pointer (RFC 6901) of a part of a document, as text for C.
ghost use Rattle.std.specs.Prelude.{◌≡◌, map};
ghost use Rattle.gltf_json_record.specs.Place.{place_of};
ghost use Rattle.gltf_json_record.specs.Pointer.{escape, escaped, reference_token, pointer_text};
ghost use Rattle.gltf_c_fault.specs.Message.{text_in_room, Appends};

use crate::message::{put, put_more};
use gltf_json_record::path::Step;
use itoa::Buffer;

/// Writes the JSON Pointer of the part of a document that these steps lead to, as
/// [`gltf_json_record::path::Path::pointer`] gives it, to the front of `room`, as much of it as
/// there is room for, and a zero byte after it. It takes no memory.
pub(crate) fn put_pointer(steps: &[Step], room: &mut [u8])
    ensures { room.new ≡ text_in_room (pointer_text (map place_of steps.now)) room.old }
{
    put(b"", room);
    let mut used = 0;
    for step in steps {
        used = put_more(b"/", room, used);
        used = put_token(step, room, used);
    }
}

/// Appends the reference token of a step.
fn put_token(step: &Step, room: &mut [u8], used: usize) -> usize
    ensures { Appends (reference_token (place_of step.now)) room.old used room.new result }
{
    match step {
        Step::Member(name) => put_escaped(name.as_bytes(), room, used),
        Step::Item(index) => put_more(Buffer::new().format(*index).as_bytes(), room, used),
        Step::Attribute(name) => put_escaped(name.as_str().as_bytes(), room, used),
    }
}

/// Appends a name as a reference token.
fn put_escaped(name: &[u8], room: &mut [u8], mut used: usize) -> usize
    ensures { Appends (escaped name.now) room.old used room.new result }
{
    for byte in name {
        used = put_escape(*byte, room, used);
    }
    used
}

/// Appends a byte of a name as it stands in a reference token.
fn put_escape(byte: u8, room: &mut [u8], used: usize) -> usize
    ensures { Appends (escape byte) room.old used room.new result }
{
    match byte {
        b'~' => put_more(b"~0", room, used),
        b'/' => put_more(b"~1", room, used),
        other => put_more(&[other], room, used),
    }
}
