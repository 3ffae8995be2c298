//! Named bytes in files.
ghost use Rattle.std.specs.Prelude.{◌≡◌, [], IfOk, IfSome, string_bytes};
ghost use Rattle.gltf_names.specs.Answers.{NotesFailure};
ghost use Rattle.gltf_names.specs.Named.{named};
ghost use Rattle.gltf_names.specs.Paths.{path_of};
ghost use Rattle.gltf_names.specs.Sources.{folder_base, folder_failures};

use crate::log::Log;
use crate::name::{Name, NamedBytes, NamedFault};
use gltf_stream::{PIECE, ReadFault, read_to_end};
use std::alloc::{AllocError, Global};
use std::fs::{File, OpenFile};
use std::io::Read;
use std::rt::Files;

/// Files by name: [`Name::File`] as it stands, [`Name::Relative`] after the base, but one that
/// begins with `/` as it stands.
///
/// What the system reports of an open or a read, want of memory too, is a failed read with its name;
/// out of memory is answered only where there was no room for the bytes here.
///
/// It looks at no name: `..` leads out of the folder, and what is there is read to its end, also a
/// device that has none. For names that are not trusted, write a source that looks at them.
#[derive(Drop)]
pub struct Folder<'a, R: Files> {
    rt: &'a R,
    base: &'a str,
    log: Log,
}

impl<'a, R: Files> Folder<'a, R> {
    /// A folder whose relative names are put after the base, as `models/`: no `/` is put between.
    /// Takes no memory, and opens nothing.
    pub fn new(rt: &'a R, base: &'a str) -> Folder<'a, R>
        ensures base { folder_base result ≡ base.now }
        ensures failures { folder_failures result ≡ [] }
    {
        Folder {
            rt,
            base,
            log: Log::new(),
        }
    }

    fn find(&self, alloc: Global, name: &Name<'_>) -> Result<Vec<u8>, NamedFault> {
        let path = path_of(alloc, self.base, name)?;
        match File::open(self.rt, path.as_str()) {
            Ok(mut file) => {
                let size = file.metadata().map_or(0, |about| about.len());
                all_of(alloc, &mut file, size)
            }
            Err(cause) => Err(NamedFault::Io(cause)),
        }
    }
}

impl<'a, R: Files> NamedBytes for Folder<'a, R> {
    ghost failures = { folder_failures };

    fn read(&mut self, alloc: Global, name: Name<'_>) -> Result<Vec<u8>, NamedFault>
        ensures failure { NotesFailure result (named name.entry)
            (folder_failures self.old) (folder_failures self.new) }
        ensures base { folder_base self.new ≡ folder_base self.old }
    {
        match self.find(alloc, &name) {
            Ok(bytes) => Ok(bytes),
            Err(NamedFault::Memory) => Err(NamedFault::Memory),
            Err(NamedFault::Io(cause)) => {
                self.log.note(alloc, &name);
                Err(NamedFault::Io(cause))
            }
        }
    }

    fn last_failed(&self) -> Option<&str> {
        self.log.last()
    }
}

/// The path of the file that a name stands for.
fn path_of(alloc: Global, base: &str, name: &Name<'_>) -> Result<String, AllocError>
    ensures { IfOk result (λ path. string_bytes path ≡ path_of base.now (named name.now)) }
{
    match name {
        Name::File(text) => String::from_str(alloc, text),
        Name::Relative(text) => {
            if text.starts_with('/') {
                return String::from_str(alloc, text);
            }
            let mut path = String::from_str(alloc, base)?;
            path.push_str(text)?;
            Ok(path)
        }
    }
}

/// All that a reader still gives. There is room for this many bytes from the first read on, so that
/// no more memory is taken where they are all.
fn all_of<R: Read>(alloc: Global, reader: &mut R, size: u64) -> Result<Vec<u8>, NamedFault>
    ensures { IfOk result
        (λ bytes. IfSome (R.remaining reader.old) (λ known. bytes.items ≡ known)) }
{
    let mut bytes = Vec::with_capacity(alloc, room_for(size))?;
    match read_to_end(reader, &mut bytes) {
        Ok(()) => Ok(bytes),
        Err(ReadFault::Ended) => unreachable!(),
        Err(ReadFault::Failed(cause)) => Err(NamedFault::Io(cause)),
        Err(ReadFault::Memory) => Err(NamedFault::Memory),
    }
}

/// Room for so many bytes, and for the read after the last of them that finds the end.
fn room_for(size: u64) -> usize {
    size.saturating_add(PIECE as u64) as usize
}
