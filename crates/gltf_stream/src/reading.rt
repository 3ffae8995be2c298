//! Bytes out of readers.
ghost use Rattle.std.specs.Prelude.{◌≡◌, ◌≤◌, ◌<◌, ◌+◌, take, drop, length, OnOk, OnErr, IfOk};
ghost use Rattle.std.specs.Prelude.{IfErr};
ghost use Rattle.std.specs.Io.KnownBytes.{Consumes, Keeps, IsAtEnd};
ghost use Rattle.gltf_stream.specs.Streams.{ReadsBehind, EndsOnlyAtEnd, IsNoEnd};

use std::alloc::AllocError;
use std::io;
use std::io::Read;

/// Why no more bytes came.
#[derive(Debug, Drop)]
pub enum ReadFault {
    /// The reader was at its end.
    Ended,
    /// The reader failed.
    Failed(io::Error),
    /// There was not enough memory.
    Memory,
}

impl From<AllocError> for ReadFault {
    ghost use Rattle.gltf_stream.specs.declared.reading.ReadFault.TheVariants.{Memory};

    ghost from_gives = { λ _ fault. fault ≡ Memory };

    fn from(_cause: AllocError) -> ReadFault {
        ReadFault::Memory
    }
}

/// The most bytes that one read is asked for, and so the most for which room is made before they
/// come.
pub const PIECE: usize = 8192;

/// Reads until there are this many bytes. What came is put after what was there, also where the
/// answer says why no more did.
///
/// The reader is asked for no more bytes than are missing, at most 8192 at a time. It may give
/// fewer at each read. It is not asked again where a read failed, was interrupted or gave nothing.
pub fn read_up_to<R: Read>(
    reader: &mut R,
    bytes: &mut Vec<u8>,
    count: usize,
) -> Result<(), ReadFault>
    requires { length bytes.old.items ≤ count }
    ensures came { ReadsBehind (R.remaining reader.old) (R.remaining reader.new)
        bytes.old.items bytes.new.items }
    ensures within { length bytes.new.items ≤ count }
    ensures all { OnOk result (length bytes.new.items ≡ count) }
    ensures fewer { OnErr result (length bytes.new.items < count) }
    ensures ended { IfErr result (EndsOnlyAtEnd (R.remaining reader.new)) }
{
    let mut at = bytes.len();
    'pieces: while at < count {
        let most = (count - at).min(PIECE);
        at += read_piece(reader, bytes, at, most)?;
    }
    Ok(())
}

/// Reads to the end. What came is put after what was there, also where the answer says why no more
/// did: the reader failed, and is not asked again, or there was not enough memory.
pub fn read_to_end<R: Read>(reader: &mut R, bytes: &mut Vec<u8>) -> Result<(), ReadFault>
    ensures came { ReadsBehind (R.remaining reader.old) (R.remaining reader.new)
        bytes.old.items bytes.new.items }
    ensures end { OnOk result (IsAtEnd (R.remaining reader.new)) }
    ensures no_end { IfErr result IsNoEnd }
{
    let mut at = bytes.len();
    'pieces: loop {
        match read_piece(reader, bytes, at, PIECE) {
            Ok(count) => at += count,
            Err(ReadFault::Ended) => return Ok(()),
            Err(fault) => return Err(fault),
        }
    }
}

/// One read of at most so many bytes, which come after the first `at`; returns how many came. Room
/// for them is made first, so that no byte is lost where there is not enough memory. Where the
/// answer is `Ok`, the room stays for the next read: no more is cleared than comes.
fn read_piece<R: Read>(
    reader: &mut R,
    bytes: &mut Vec<u8>,
    at: usize,
    most: usize,
) -> Result<usize, ReadFault>
    requires some { 0 < most }
    requires few { most ≤ 8192 }
    requires there { at ≤ length bytes.old.items }
    ensures came { IfOk result (λ count. ReadsBehind (R.remaining reader.old)
        (R.remaining reader.new) (take at bytes.old.items) (take (at + count) bytes.new.items)) }
    ensures more { IfOk result (λ count. 0 < count) }
    ensures fits { IfOk result (λ count. at + count ≤ length bytes.new.items) }
    ensures within { length bytes.new.items ≤ at + most }
    ensures nothing { OnErr result (ReadsBehind (R.remaining reader.old) (R.remaining reader.new)
        (take at bytes.old.items) bytes.new.items) }
    ensures kept { OnErr result (bytes.new.items ≡ take at bytes.old.items) }
    ensures ended { IfErr result (EndsOnlyAtEnd (R.remaining reader.new)) }
{
    make_room(bytes, at, most)?;
    let answer = read_behind(reader, bytes.as_mut_slice(), at);
    match answer {
        Ok(0) => {
            bytes.truncate(at);
            Err(ReadFault::Ended)
        }
        Ok(count) => Ok(count),
        Err(cause) => {
            bytes.truncate(at);
            Err(ReadFault::Failed(cause))
        }
    }
}

/// Room for so many bytes after the first `at`. Where there is not enough memory, those stay.
fn make_room(bytes: &mut Vec<u8>, at: usize, most: usize) -> Result<(), AllocError>
    requires some { 0 < most }
    requires few { most ≤ 8192 }
    requires there { at ≤ length bytes.old.items }
    ensures front { take at bytes.new.items ≡ take at bytes.old.items }
    ensures room { OnOk result (length bytes.new.items ≡ at + most) }
    ensures kept { OnErr result (bytes.new.items ≡ take at bytes.old.items) }
{
    match bytes.resize(at + most, 0) {
        Ok(()) => Ok(()),
        Err(cause) => {
            bytes.truncate(at);
            Err(cause)
        }
    }
}

/// One read into what follows a place.
fn read_behind<R: Read>(reader: &mut R, bytes: &mut [u8], at: usize) -> io::Result<usize>
    requires { at < length bytes.old }
    ensures front { take at bytes.new ≡ take at bytes.old }
    ensures fits { IfOk result (λ count. at + count ≤ length bytes.new) }
    ensures ok { IfOk result (λ count. Consumes (R.remaining reader.old) (R.remaining reader.new)
        (take count (drop at bytes.new))) }
    ensures err { OnErr result (Keeps (R.remaining reader.old) (R.remaining reader.new)) }
    ensures end { IfOk result (λ count. count ≡ 0 → IsAtEnd (R.remaining reader.new)) }
{
    reader.read(&mut bytes[at..])
}
