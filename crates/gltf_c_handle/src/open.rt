//! Opening and closing files, and bytes for buffers that wait for them.
ghost use Rattle.std.specs.Prelude.{◌≡◌, None, IfOk, IfErr};
ghost use Rattle.std.specs.Cow.{cow_slice_items};
ghost use Rattle.gltf_c_handle.specs.Opened.{IsOpened, wanted_of, HoldsAs, RefusesAs};
ghost use Rattle.gltf_c_handle.specs.Waiting.{IsTaken, IsGivenBytes, given_number};

use crate::handle;
use crate::handle::GltfFile;
use gltf_c_fault::fault::{GltfFault, argument_fault, fault_of, no_fault};
use gltf_c_fault::status::Status;
use gltf_c_open::file::File;
use gltf_c_open::given::GiveError;
use gltf_c_open::refusal::Refusal;
use gltf_c_open::wanted::Wanted;
use gltf_c_open::{given, names, open as opening};
use std::alloc::Global;
use std::borrow::CowSlice;

/// Opens a file from its bytes: a GLB container where they begin with `glTF`, else JSON text (glTF
/// 2.0, sections 2.8, 3.6.1 and 4.4). What `file` held is freed.
///
/// `names` has the names of extensions that the caller handles, each with a zero byte after it.
/// Of `flags` the lowest bit says that a buffer whose URI leads to another file waits for its bytes,
/// and the next that zeros after the bytes of a buffer do not count. The others are 0, and so is
/// `reserved`.
///
/// Returns 0 where the bytes are accepted, and then `file` holds their document and buffers, and
/// `fault` says that there is none. Else `file` is closed, and `fault` says why; the number is that
/// of its status.
pub fn open(
    alloc: Global,
    bytes: CowSlice<'_, u8>,
    names: &[u8],
    flags: u32,
    reserved: usize,
    file: &mut GltfFile,
    fault: &mut GltfFault,
) -> u32
    ensures { IsOpened (wanted_of flags reserved) names.now (cow_slice_items bytes.entry) result
        file.new.value fault.new }
{
    let Some(wanted) = wanted_of(flags, reserved) else {
        close(alloc, file);
        *fault = argument_fault();
        return Status::BadArgument.code();
    };
    match opened(alloc, bytes, names, wanted) {
        Ok(held) => {
            handle::put(alloc, file, held);
            *fault = no_fault();
            Status::Success.code()
        }
        Err(Refusal { error, buffer }) => {
            close(alloc, file);
            *fault = fault_of(alloc, &error, buffer);
            Status::of(&error).code()
        }
    }
}

/// What flags ask of the buffers. None where one is not known, or what is reserved is not 0.
fn wanted_of(flags: u32, reserved: usize) -> Option<Wanted>
    ensures { result ≡ wanted_of flags reserved }
{
    if flags > 3 || reserved > 0 {
        return None;
    }
    Some(Wanted {
        may_wait: flags % 2 == 1,
        exact: flags / 2 == 1,
    })
}

/// The file that these bytes are.
fn opened(
    alloc: Global,
    bytes: CowSlice<'_, u8>,
    names: &[u8],
    wanted: Wanted,
) -> Result<Box<File>, Refusal>
    ensures held { IfOk result (λ held.
        HoldsAs wanted names.now (cow_slice_items bytes.entry) held.value) }
    ensures refused { IfErr result
        (RefusesAs wanted names.now (cow_slice_items bytes.entry)) }
{
    let also = names::names_of(alloc, names)?;
    opening::open(alloc, bytes, also.as_slice(), wanted)
}

/// Gives the bytes of the buffer at an index, which waits for them. They are copied, with zeros
/// after them up to a multiple of four. `NoSuchIndex` where it does not wait, `ShortBuffer` where
/// there are fewer bytes than the file was opened to ask for, and `NoMemory` where there is none for
/// the copy. It waits for them still where the call fails.
pub fn give(alloc: Global, file: &mut GltfFile, index: usize, bytes: &[u8]) -> u32
    ensures { IsGivenBytes index bytes.now result file.old.value file.new.value }
{
    let Some(mut held) = handle::take(alloc, file) else {
        return Status::Closed.code();
    };
    let number = give_to(alloc, &mut held, index, bytes);
    handle::put(alloc, file, held);
    number
}

/// The same of an open file.
fn give_to(alloc: Global, file: &mut File, index: usize, bytes: &[u8]) -> u32
    ensures { IsTaken index bytes.now result file.old file.new }
{
    given_number(given::give(alloc, file, index, bytes))
}

/// The number of what came of bytes for a buffer.
fn given_number(given: Result<(), GiveError>) -> u32
    ensures { result ≡ given_number given }
{
    match given {
        Ok(()) => Status::Success.code(),
        Err(GiveError::NotAwaited) => Status::NoSuchIndex.code(),
        Err(GiveError::TooShort) => Status::ShortBuffer.code(),
        Err(GiveError::Memory) => Status::NoMemory.code(),
    }
}

/// Gives back all that a file took. A closed one stays closed.
pub fn close(alloc: Global, file: &mut GltfFile)
    ensures { file.new.value ≡ None }
{
    handle::take(alloc, file);
}
