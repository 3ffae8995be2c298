//! The bytes of a file out of a reader.
ghost use Rattle.std.specs.Prelude.{◌≡◌, ◌≤◌, [], OnOk, IfErr, length, true, nat_eq};
ghost use Rattle.std.specs.List.{starts_with};
ghost use Rattle.gltf_glb.specs.Bytes.{magic};
ghost use Rattle.gltf_glb.specs.Reader.{needed_length};
ghost use Rattle.gltf_stream.specs.Streams.{ReadsBehind};
ghost use Rattle.gltf.specs.Reader.{IsAllThatCounts, StopsReading, IsIoOrMemory};

use gltf_glb::{Error, Result, binary};
use gltf_stream::{ReadFault, read_to_end, read_up_to};
use std::io;
use std::io::Read;

/// The bytes of a file out of a reader, of which nothing was read before: those of a GLB container
/// up to its declared length where they begin with `glTF`, and no further than its header where
/// that is refused; else all.
///
/// Where it stops before, what came stays in `bytes`. The error is [`Error::Io`]; of a container
/// [`Error::Binary`], with what is wrong with its header, or [`binary::Error::Io`] where it failed
/// or ended too early; or [`Error::Memory`]. A read that fails is not tried again.
pub fn read_file<R: Read>(reader: &mut R, bytes: &mut Vec<u8>) -> Result<()>
    requires { bytes.old.items ≡ [] }
    ensures came { ReadsBehind (R.remaining reader.old) (R.remaining reader.new)
        bytes.old.items bytes.new.items }
    ensures within { starts_with nat_eq bytes.new.items magic ≡ true
        → length bytes.new.items ≤ needed_length bytes.new.items }
    ensures all { OnOk result (IsAllThatCounts (R.remaining reader.new) bytes.new.items) }
    ensures stopped { IfErr result (StopsReading bytes.new.items) }
{
    if let Err(fault) = read_up_to(reader, bytes, 4) {
        return Err(failure_of(fault));
    }
    if bytes.starts_with(b"glTF") {
        return binary::read_bytes(reader, bytes);
    }
    match read_to_end(reader, bytes) {
        Ok(()) => Ok(()),
        Err(fault) => Err(failure_of(fault)),
    }
}

/// Why no more bytes came, outside of a container.
fn failure_of(fault: ReadFault) -> Error
    ensures { IsIoOrMemory result }
{
    match fault {
        ReadFault::Ended => Error::Io(io::Error::new(
            io::ErrorKind::UnexpectedEof,
            "failed to fill whole buffer",
        )),
        ReadFault::Failed(cause) => Error::Io(cause),
        ReadFault::Memory => Error::Memory,
    }
}
