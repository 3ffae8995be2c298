//! The bytes of a container out of a reader: no more than its header declares, and no more than the
//! header where that is refused. Memory grows with what came, whatever the header declares.
ghost use Rattle.std.specs.Prelude.{◌≡◌, ◌≤◌, ◌<◌, length, OnOk, OnErr, IfOk, IfErr, MatchResult};
ghost use Rattle.gltf_stream.specs.Streams.{ReadsBehind};
ghost use Rattle.gltf_glb.specs.Bytes.{magic, tag_at};
ghost use Rattle.gltf_glb.specs.Front.{IsStop, IsFront, IsFrontFault, IsDeclarationFault, IsWhole};
ghost use Rattle.gltf_glb.specs.Reader.{needed_length, RefusesReader};

use crate::binary;
use crate::binary::reading::{tag_at, word_at};
use crate::error::{Error, Result};
use gltf_stream::{ReadFault, read_up_to};
use std::io;
use std::io::Read;

/// Reads the bytes of a container up to the length that its header declares, and no further than
/// the header where that is refused. Up to four of them may be there already. What came is put
/// after these, also where the answer is an error.
///
/// Nothing but the header is looked at. A read that fails, for whatever cause, is not tried again:
/// [`binary::Error::Io`] says that the reader failed or ended too early, and [`Error::Memory`] that
/// there was not enough for the bytes that came.
pub fn read_bytes<R: Read>(reader: &mut R, bytes: &mut Vec<u8>) -> Result<()>
    requires { length bytes.old.items ≤ 4 }
    ensures came { ReadsBehind (R.remaining reader.old) (R.remaining reader.new)
        bytes.old.items bytes.new.items }
    ensures within { length bytes.new.items ≤ needed_length bytes.new.items }
    ensures whole { OnOk result (IsWhole bytes.new.items) }
    ensures refused { IfErr result (RefusesReader bytes.new.items) }
{
    let length = front_of(reader, bytes)?;
    fill_up(reader, bytes, length)
}

/// Reads the header, and gives the length that it declares (glTF 2.0, section 4.4.2). Its first
/// four bytes may be there already.
fn front_of<R: Read>(reader: &mut R, bytes: &mut Vec<u8>) -> Result<usize>
    requires { length bytes.old.items ≤ 4 }
    ensures came { ReadsBehind (R.remaining reader.old) (R.remaining reader.new)
        bytes.old.items bytes.new.items }
    ensures ok { IfOk result (IsFront bytes.new.items) }
    ensures err { IfErr result (IsFrontFault bytes.new.items) }
{
    fill_up(reader, bytes, 4)?;
    let magic = tag_at(bytes, 0);
    if magic != *b"glTF" {
        return Err(Error::Binary(binary::Error::Magic(magic)));
    }
    fill_up(reader, bytes, 12)?;
    match declared_length(bytes) {
        Ok(length) => Ok(length),
        Err(fault) => Err(Error::Binary(fault)),
    }
}

/// The length that a header declares.
#[tactic(auto, unfolding(crate::specs::Faults::front_fault))]
fn declared_length(bytes: &[u8]) -> Result<usize, binary::Error>
    requires long { length bytes.now ≡ 12 }
    requires magic { tag_at 0 bytes.now ≡ magic }
    ensures { MatchResult result (IsFront bytes.now) (IsDeclarationFault bytes.now) }
{
    let version = word_at(bytes, 4);
    let length = word_at(bytes, 8);
    if version != 2 {
        return Err(binary::Error::Version(version));
    }
    if length < 12 {
        return Err(binary::Error::Length {
            length,
            length_read: 12,
        });
    }
    Ok(length as usize)
}

/// Reads until there are this many bytes.
fn fill_up<R: Read>(reader: &mut R, bytes: &mut Vec<u8>, count: usize) -> Result<()>
    requires { length bytes.old.items ≤ count }
    ensures came { ReadsBehind (R.remaining reader.old) (R.remaining reader.new)
        bytes.old.items bytes.new.items }
    ensures all { OnOk result (length bytes.new.items ≡ count) }
    ensures fewer { OnErr result (length bytes.new.items < count) }
    ensures stop { IfErr result IsStop }
{
    match read_up_to(reader, bytes, count) {
        Ok(()) => Ok(()),
        Err(ReadFault::Ended) => Err(Error::Binary(binary::Error::Io(io::Error::new(
            io::ErrorKind::UnexpectedEof,
            "failed to fill whole buffer",
        )))),
        Err(ReadFault::Failed(cause)) => Err(Error::Binary(binary::Error::Io(cause))),
        Err(ReadFault::Memory) => Err(Error::Memory),
    }
}
