//! What calls ask of an open file. Four functions lend the file that a handle holds, each to a
//! trait: what a call does with it is said by an `impl`.
ghost use Rattle.std.specs.Prelude.{◌≡◌, ℕ, List, Option, Result};
ghost use Rattle.gltf_c_extensions.specs.declared.reading.Missing.{Missing};
ghost use Rattle.gltf_c_fault.specs.declared.status.Status.{Status};
ghost use Rattle.gltf_c_open.specs.declared.file.File.{File};
ghost use Rattle.gltf_c_handle.specs.Calls.{Gives, GivesRead, Fills};
ghost use Rattle.gltf_c_handle.specs.Given.{status_of, IsGiven};
ghost use Rattle.gltf_c_look.specs.Written.{IsWritten};

use crate::given::{give, give_read};
use crate::handle::{GltfFile, put, take};
use gltf_c_extensions::reading::Missing;
use gltf_c_fault::status::Status;
use gltf_c_open::file::File;
use std::alloc::Global;

/// What is asked for where the answer is one value.
pub trait Ask<T> {
    /// The value, as contracts see it.
    ghost asked: { Self → File → Option T };

    /// The value, where the file has it.
    fn ask(&self, file: &File) -> Option<T>
        ensures { result ≡ asked self.now file.now };
}

/// What is asked for where the answer is a large value, which is written where it is wanted.
pub trait Write<T> {
    /// The value, as contracts see it.
    ghost asked: { Self → File → Option T };

    /// Writes the value, where the file has it, and returns whether it has.
    fn write(&self, file: &File, out: &mut T) -> bool
        ensures { IsWritten (asked self.now file.now) result out.old out.new };
}

/// What is asked for where the answer is read from JSON.
pub trait Read<T> {
    /// The answers that may come, as contracts see them.
    ghost answers: { Self → File → Result T Missing → Type 0 };

    /// The value, or why there is none.
    fn read(&self, alloc: Global, file: &File) -> Result<T, Missing>
        ensures { answers self.now file.now result };
}

/// What is asked for where it fills a room of the caller's.
pub trait Fill {
    /// What the room has room for.
    type Item;

    /// What is written beside the room.
    type Count;

    /// What is written, as contracts see it: the room and the count before it and after it.
    ghost filled: { Self → File → Status → List Self.Item → List Self.Item
        → Self.Count → Self.Count → Type 0 };

    /// Writes it.
    fn fill(
        &self,
        alloc: Global,
        file: &File,
        room: &mut [Self::Item],
        count: &mut Self::Count,
    ) -> Status
        ensures { filled self.now file.now result room.old room.new count.old count.new };
}

/// Writes what is asked for of the file of a handle, where it is there. Returns the number of the
/// status.
pub fn answer<T: Copy + Drop, A: Ask<T>>(
    alloc: Global,
    handle: &mut GltfFile,
    ask: &A,
    out: &mut T,
) -> u32
    ensures same { handle.new.value ≡ handle.old.value }
    ensures given { Gives (A.asked ask.now) handle.old.value result out.old out.new }
{
    let Some(file) = take(alloc, handle) else {
        return Status::Closed.code();
    };
    let status = give(ask.ask(&file), out);
    put(alloc, handle, file);
    status.code()
}

/// Writes what is asked for of the file of a handle, where it is there, at once to its place. Returns
/// the number of the status.
pub fn answer_in_place<T, A: Write<T>>(
    alloc: Global,
    handle: &mut GltfFile,
    ask: &A,
    out: &mut T,
) -> u32
    ensures same { handle.new.value ≡ handle.old.value }
    ensures given { Gives (A.asked ask.now) handle.old.value result out.old out.new }
{
    let Some(file) = take(alloc, handle) else {
        return Status::Closed.code();
    };
    let status = write_to(ask, &file, out);
    put(alloc, handle, file);
    status.code()
}

/// Writes what is asked for of a file.
#[tactic(auto, using(crate::proofs::Written::written_is_given))]
fn write_to<T, A: Write<T>>(ask: &A, file: &File, out: &mut T) -> Status
    ensures { IsGiven (A.asked ask.now file.now) result out.old out.new }
{
    status_of(ask.write(file, out))
}

/// The status of an answer that was written, or is not there.
fn status_of(was_written: bool) -> Status
    ensures { result ≡ status_of was_written }
{
    if was_written {
        Status::Success
    } else {
        Status::NoSuchIndex
    }
}

/// Writes what is read for what is asked. Returns the number of the status.
pub fn answer_read<T: Copy + Drop, A: Read<T>>(
    alloc: Global,
    handle: &mut GltfFile,
    ask: &A,
    out: &mut T,
) -> u32
    ensures same { handle.new.value ≡ handle.old.value }
    ensures given { GivesRead (A.answers ask.now) handle.old.value result out.old out.new }
{
    let Some(file) = take(alloc, handle) else {
        return Status::Closed.code();
    };
    let status = give_read(ask.read(alloc, &file), out);
    put(alloc, handle, file);
    status.code()
}

/// Fills a room with what is asked for of the file of a handle. Returns the number of the status.
pub fn fill_room<A: Fill>(
    alloc: Global,
    handle: &mut GltfFile,
    ask: &A,
    room: &mut [A::Item],
    count: &mut A::Count,
) -> u32
    ensures same { handle.new.value ≡ handle.old.value }
    ensures filled { Fills (A.filled ask.now) handle.old.value result room.old room.new
        count.old count.new }
{
    let Some(file) = take(alloc, handle) else {
        return Status::Closed.code();
    };
    let status = ask.fill(alloc, &file, room, count);
    put(alloc, handle, file);
    status.code()
}
