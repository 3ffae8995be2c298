//! Named bytes in the files of one folder.
ghost use Rattle.std.specs.Prelude.{◌≡◌, []};
ghost use Rattle.gltf_names.specs.Answers.{NotesFailure};
ghost use Rattle.gltf_names.specs.Named.{named};
ghost use Rattle.gltf_names.specs.Sources.{own_failures};

use crate::folder::Folder;
use crate::links::stays_inside;
use crate::log::Log;
use crate::name::{Name, NamedBytes, NamedFault};
use std::alloc::Global;
use std::io::{self, ErrorKind};
use std::rt::Files;

/// Files by name, as [`Folder`] finds them, but none that a symbolic link leads to outside of the
/// folder: that is a failed read of the kind `PermissionDenied`, whose text says why.
///
/// A link that stays in the folder is followed. [`stays_inside`] says what this leaves open.
/// Names are not looked at: put [`crate::Inside`] over it. [`Name::File`] is opened as it stands.
#[derive(Drop)]
pub struct OwnFolder<'a, R: Files> {
    rt: &'a R,
    base: &'a str,
    files: Folder<'a, R>,
    log: Log,
}

impl<'a, R: Files> OwnFolder<'a, R> {
    /// A folder whose relative names are put after the base, as `models/`: no `/` is put between.
    /// Takes no memory, and opens nothing.
    pub fn new(rt: &'a R, base: &'a str) -> OwnFolder<'a, R>
        ensures { own_failures result ≡ [] }
    {
        OwnFolder {
            rt,
            base,
            files: Folder::new(rt, base),
            log: Log::new(),
        }
    }

    fn find(&mut self, alloc: Global, name: Name<'_>) -> Result<Vec<u8>, NamedFault>
        ensures { self.new.log ≡ self.old.log }
    {
        if let Name::Relative(path) = name {
            if !stays_inside(self.rt, alloc, self.base, path)? {
                return Err(NamedFault::Io(link_error()));
            }
        }
        self.files.read(alloc, name)
    }
}

impl<'a, R: Files> NamedBytes for OwnFolder<'a, R> {
    ghost failures = { own_failures };

    fn read(&mut self, alloc: Global, name: Name<'_>) -> Result<Vec<u8>, NamedFault>
        ensures failure { NotesFailure result (named name.entry)
            (own_failures self.old) (own_failures self.new) }
    {
        match self.find(alloc, name) {
            Ok(bytes) => Ok(bytes),
            Err(NamedFault::Memory) => Err(NamedFault::Memory),
            Err(NamedFault::Io(cause)) => {
                self.log.note(alloc, &name);
                Err(NamedFault::Io(cause))
            }
        }
    }

    fn last_failed(&self) -> Option<&str> {
        self.log.last()
    }
}

/// The read of a file that a symbolic link leads to outside of the folder, as a failed one.
pub fn link_error() -> io::Error {
    let reason = "a symbolic link, which leads out of the document's folder";
    io::Error::new(ErrorKind::PermissionDenied, reason)
}
