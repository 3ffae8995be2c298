//! The items of accessors, written for C.

ghost use Rattle.std.specs.Prelude.{◌≡◌};
ghost use Rattle.gltf_data.specs.Documents.{accessor_at};
ghost use Rattle.gltf_c_bytes.specs.Read.{IsRead, status_of};

use gltf::buffer::{Buffer, bytes_of};
use gltf_access::{NotWritten, write_components};
use gltf_c_fault::status::Status;
use gltf_c_open::file::File;

/// The items of the accessor at an index, one after the other, without the padding of small matrices
/// (glTF 2.0, section 3.6.2.4), and zeros where it has no view (section 5.1.1).
pub fn read(file: &File, index: usize, out: &mut [u8]) -> Status
    ensures { IsRead file.now index (accessor_at file.now.document index) result out.old out.new }
{
    let Some(accessor) = file.document.accessors().nth(index) else {
        return Status::NoSuchIndex;
    };
    status(write_components(
        accessor,
        &|buffer: Buffer| bytes_of(&file.buffers, buffer),
        out,
    ))
}

/// How a call of C reports whether items were written.
fn status(written: Result<usize, NotWritten>) -> Status
    ensures { result ≡ status_of written }
{
    match written {
        Ok(_) => Status::Success,
        Err(NotWritten::Unreadable) => Status::Unreadable,
        Err(NotWritten::NoRoom) => Status::NoRoom,
    }
}
