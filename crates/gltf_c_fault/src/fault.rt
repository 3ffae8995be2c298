//! Why a file is refused, and where the fault is.
ghost use Rattle.std.specs.Prelude.{◌≡◌, ℕ, List, map, replicate};
ghost use Rattle.gltf_json_record.specs.Place.{place_of};
ghost use Rattle.gltf_json_record.specs.Pointer.{pointer_text};
ghost use Rattle.gltf_c_fault.specs.Fault.{no_fault, IsFault, first_place, numbers_of, rules_of};
ghost use Rattle.gltf_c_fault.specs.Fault.{extension_fault, argument_fault, reason_fault, part_of};
ghost use Rattle.gltf_c_fault.specs.Fault as fault;
ghost use Rattle.gltf_c_fault.specs.Message.{Tells, text_in_room};

use crate::message::{put, tell};
use crate::pointer::put_pointer;
use crate::status::Status;
use gltf_glb::Error;
use gltf_json_record::error::Error as JsonError;
use gltf_json_record::path::{Path, Step};
use gltf_validation::error::Error as Broken;
use std::alloc::Global;

/// What stands for a buffer where none is at fault.
pub const NONE: usize = usize::MAX;

/// Why a file is refused, or what is wrong with an extension, laid out as C does.
#[repr(C)]
#[derive(Clone, Copy, Drop)]
pub struct GltfFault {
    /// The number of the [`Status`]; 0 where there is no fault.
    pub status: u32,
    /// How many rules are broken.
    pub rules: u32,
    /// The buffer at fault, else [`NONE`].
    pub buffer: usize,
    /// How many bytes that buffer declares, where it has too few, else 0.
    pub expected: usize,
    /// How many it has then, else 0.
    pub actual: usize,
    /// 0.
    pub reserved: [usize; 4],
    /// The JSON Pointer of the part of the document that is at fault (RFC 6901), cut to fit, with a
    /// zero byte after it. Empty where no part is known.
    pub path: [u8; 128],
    /// The message, cut to fit, with a zero byte after it.
    pub text: [u8; 512],
}

/// No fault.
pub fn no_fault() -> GltfFault
    ensures { result ≡ no_fault }
{
    GltfFault {
        status: 0,
        rules: 0,
        buffer: NONE,
        expected: 0,
        actual: 0,
        reserved: [0; 4],
        path: [0; 128],
        text: [0; 512],
    }
}

/// How many bytes a buffer declares that has too few, and how many it has.
#[derive(Clone, Copy, Drop)]
struct Numbers {
    expected: usize,
    actual: usize,
}

/// What is said of an error of the loader, which may be that of a buffer. Where there is no memory
/// for the text, that says so.
pub fn fault_of(alloc: Global, error: &Error, buffer: Option<usize>) -> GltfFault
    ensures { IsFault error.now buffer result }
{
    let Numbers { expected, actual } = numbers_of(error);
    let path = path_of(error, buffer);
    let text = text_of(alloc, error);
    GltfFault {
        status: Status::of(error).code(),
        rules: rules_of(error),
        buffer: buffer.unwrap_or(NONE),
        expected,
        actual,
        reserved: [0; 4],
        path,
        text,
    }
}

/// What is said of an extension at fault: the steps to the place, and the reason. Takes no memory.
pub fn extension_fault(steps: &[Step], reason: &[u8]) -> GltfFault
    ensures { result ≡ extension_fault (map place_of steps.now) reason.now }
{
    reason_fault(Status::BadExtension, steps, reason)
}

/// What is said of options of which a flag is not known, or a reserved member is not 0.
pub fn argument_fault() -> GltfFault
    ensures { result ≡ argument_fault }
{
    let reason = b"an unknown flag, or a reserved member that is not 0";
    reason_fault(Status::BadArgument, &[], reason)
}

/// A fault with this status, at this place, for this reason.
fn reason_fault(status: Status, steps: &[Step], reason: &[u8]) -> GltfFault
    ensures { result ≡ reason_fault status (map place_of steps.now) reason.now }
{
    let mut path = [0; 128];
    put_pointer(steps, &mut path);
    let mut text = [0; 512];
    put(reason, &mut text);
    GltfFault {
        status: status.code(),
        rules: 0,
        buffer: NONE,
        expected: 0,
        actual: 0,
        reserved: [0; 4],
        path,
        text,
    }
}

/// How many rules a document breaks, as far as 32 bits have room for it.
fn rules_of(error: &Error) -> u32
    ensures { result ≡ rules_of error.now }
{
    match error {
        Error::Validation(broken) => broken.len().min(4_294_967_295) as u32,
        _ => 0,
    }
}

fn numbers_of(error: &Error) -> Numbers
    ensures { result ≡ numbers_of error.now }
{
    match error {
        Error::BufferLength {
            expected,
            actual,
            ..
        } => Numbers {
            expected: *expected,
            actual: *actual,
        },
        _ => Numbers {
            expected: 0,
            actual: 0,
        },
    }
}

/// The JSON Pointer of the place of an error in its room.
fn path_of(error: &Error, buffer: Option<usize>) -> [u8; 128]
    ensures { result
        ≡ text_in_room (pointer_text (fault.place_of error.now buffer)) (replicate 128 0) }
{
    let mut room = [0; 128];
    match buffer {
        Some(index) => put_part(error, index, &mut room),
        None => put_pointer(steps_of(error), &mut room),
    }
    room
}

/// Writes the JSON Pointer of the part of a buffer that an error is of.
fn put_part(error: &Error, index: usize, room: &mut [u8])
    ensures { room.new ≡ text_in_room (pointer_text (part_of error.now index)) room.old }
{
    match error {
        Error::Base64(_) | Error::ExternalReferenceInSliceImport | Error::UnsupportedScheme => {
            let steps = [
                Step::Member("buffers"),
                Step::Item(index),
                Step::Member("uri"),
            ];
            put_pointer(&steps, room);
        }
        _ => put_pointer(&[Step::Member("buffers"), Step::Item(index)], room),
    }
}

/// The steps to the place of an error.
fn steps_of(error: &Error) -> &[Step]
    ensures { map place_of result.now ≡ fault.place_in error.now }
{
    match error {
        Error::Validation(broken) => first_steps(broken),
        Error::Deserialize(JsonError::Record { path, .. }) => path.steps(),
        _ => &[],
    }
}

/// The steps to the place of the first rule that is broken.
fn first_steps(broken: &[(Path, Broken)]) -> &[Step]
    ensures { map place_of result.now ≡ first_place broken.now }
{
    match broken.first() {
        Some((path, _)) => path.steps(),
        None => &[],
    }
}

/// The message of an error in its room.
fn text_of(alloc: Global, error: &Error) -> [u8; 512]
    ensures { Tells error.now (replicate 512 0) result }
{
    let mut room = [0; 512];
    tell(alloc, error, &mut room);
    room
}
