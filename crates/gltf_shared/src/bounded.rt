//! Readers that may have no end.
ghost use Rattle.std.specs.Prelude.{◌≡◌, ◌≤◌, ◌+◌, List, ℕ, length, IfOk, IfSome};
ghost use Rattle.std.specs.Io.KnownBytes.{Consumes};

use gltf_names::NamedFault;
use gltf_stream::{PIECE, ReadFault, read_to_end, read_up_to};
use std::alloc::Global;
use std::io;
use std::io::Read;

/// All that a reader still gives, where that is at most so many bytes. Else the read fails, and no
/// more than one further byte is taken.
pub(crate) fn all_up_to<R: Read>(
    alloc: Global,
    reader: &mut R,
    most: u64,
) -> Result<Vec<u8>, NamedFault>
    ensures all { IfOk result
        (λ bytes. IfSome (R.remaining reader.old) (λ known. bytes.items ≡ known)) }
    ensures few { IfOk result (λ bytes. length bytes.items ≤ most) }
    ensures taken { (came : List ℕ) × Consumes (R.remaining reader.old) (R.remaining reader.new) came
        × (length came ≤ most + 1) }
{
    let mut bytes = Vec::new(alloc);
    match read_up_to(reader, &mut bytes, most.saturating_add(1) as usize) {
        Ok(()) => Err(NamedFault::Io(io::Error::from(io::ErrorKind::FileTooLarge))),
        Err(ReadFault::Ended) => Ok(bytes),
        Err(ReadFault::Failed(cause)) => Err(NamedFault::Io(cause)),
        Err(ReadFault::Memory) => Err(NamedFault::Memory),
    }
}

/// All that a reader still gives. There is room for this many bytes from the first read on, so that
/// no more memory is taken where they are all.
pub(crate) fn all_of<R: Read>(
    alloc: Global,
    reader: &mut R,
    size: u64,
) -> Result<Vec<u8>, NamedFault>
    ensures { IfOk result
        (λ bytes. IfSome (R.remaining reader.old) (λ known. bytes.items ≡ known)) }
{
    let room = size.saturating_add(PIECE as u64) as usize;
    let mut bytes = Vec::with_capacity(alloc, room)?;
    match read_to_end(reader, &mut bytes) {
        Ok(()) => Ok(bytes),
        Err(ReadFault::Ended) => unreachable!(),
        Err(ReadFault::Failed(cause)) => Err(NamedFault::Io(cause)),
        Err(ReadFault::Memory) => Err(NamedFault::Memory),
    }
}
