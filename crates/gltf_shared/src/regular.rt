//! Named bytes in files, for names that a stranger wrote.
ghost use Rattle.std.specs.Prelude.{◌≡◌, [], None, IfOk, string_bytes};
ghost use Rattle.std.proofs.Props.{props};
ghost use Rattle.gltf_names.specs.Named.{Named, named};
ghost use Rattle.gltf_names.specs.Paths.{path_of};
ghost use Rattle.gltf_names.specs.Sources.{shelf_failures, shelf_holds};
ghost use Rattle.gltf_buffers.specs.Errors.{IsUnanswered};
ghost use Rattle.gltf_buffers.specs.Names.{Anywhere};

use crate::asking::AskUpTo;
use crate::bounded::{all_of, all_up_to};
use gltf_glb::{Error, Result};
use gltf_names::{Name, NamedBytes, NamedFault, Shelf};
use std::alloc::{AllocError, Global};
use std::fs::{File, OpenFile};
use std::io;
use std::rt::Files;

/// Files by name, as [`gltf_names::Folder`] finds them: [`Name::File`] as it stands,
/// [`Name::Relative`] after the base, but one that begins with `/` as it stands.
///
/// A file that is no regular one, as a device or a pipe, is read to as many bytes as are wanted at
/// most, where that is known. One that has more is a failed read: its end may never come.
#[derive(Drop)]
pub struct RegularFolder<'a, R: Files> {
    rt: &'a R,
    base: &'a str,
    // Asked for a name whose read failed, it fails too, and notes the name.
    failed: Shelf,
    ghost empty: { (name : Named) → shelf_holds failed name ≡ None } by { Prim.hlevel props },
}

impl<'a, R: Files> RegularFolder<'a, R> {
    /// A folder whose relative names are put after the base, as `models/`: no `/` is put between.
    /// Takes no memory, and opens nothing.
    pub fn new(rt: &'a R, alloc: Global, base: &'a str) -> RegularFolder<'a, R>
        ensures { shelf_failures result.failed ≡ [] }
    {
        RegularFolder {
            rt,
            base,
            failed: Shelf::new(alloc),
        }
    }

    fn find(
        &self,
        alloc: Global,
        name: &Name<'_>,
        most: Option<u64>,
    ) -> Result<Vec<u8>, NamedFault> {
        let path = path_of(alloc, self.base, name)?;
        let mut file = match File::open(self.rt, path.as_str()) {
            Ok(file) => file,
            Err(cause) => return Err(NamedFault::Io(cause)),
        };
        let (is_regular, size) = match file.metadata() {
            Ok(about) => (about.is_file(), about.len()),
            Err(_) => (false, 0),
        };
        match most {
            Some(most) if !is_regular => all_up_to(alloc, &mut file, most),
            _ => all_of(alloc, &mut file, size),
        }
    }

    /// Notes a name whose read failed.
    fn note(&mut self, alloc: Global, name: Name<'_>, cause: io::Error) -> Error
        ensures { IsUnanswered Anywhere (named name.entry) (shelf_failures self.old.failed)
            (shelf_failures self.new.failed) result }
    {
        match self.failed.read(alloc, name) {
            Ok(_) => unreachable!(),
            Err(NamedFault::Io(_)) => Error::Io(cause),
            Err(NamedFault::Memory) => Error::Memory,
        }
    }
}

impl<'a, R: Files> AskUpTo for RegularFolder<'a, R> {
    ghost names = { λ _. Anywhere };

    ghost failures = { λ folder. shelf_failures folder.failed };

    fn ask_up_to(&mut self, alloc: Global, name: Name<'_>, most: Option<u64>) -> Result<Vec<u8>> {
        match self.find(alloc, &name, most) {
            Ok(bytes) => Ok(bytes),
            Err(NamedFault::Memory) => Err(Error::Memory),
            Err(NamedFault::Io(cause)) => Err(self.note(alloc, name, cause)),
        }
    }

    fn last_failed(&self) -> Option<&str> {
        NamedBytes::last_failed(&self.failed)
    }
}

/// The path of the file that a name stands for.
fn path_of(alloc: Global, base: &str, name: &Name<'_>) -> Result<String, AllocError>
    ensures { IfOk result (λ path. string_bytes path ≡ path_of base.now (named name.now)) }
{
    match name {
        Name::File(text) => String::from_str(alloc, text),
        Name::Relative(text) => {
            if text.starts_with('/') {
                return String::from_str(alloc, text);
            }
            let mut path = String::from_str(alloc, base)?;
            path.push_str(text)?;
            Ok(path)
        }
    }
}
