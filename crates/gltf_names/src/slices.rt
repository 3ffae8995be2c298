//! Named bytes that are lent.
ghost use Rattle.std.specs.Prelude.{◌≡◌, [], Some, Err, map, option_copied};
ghost use Rattle.gltf_names.specs.Named.{named, is_same};
ghost use Rattle.gltf_names.specs.Answers.{NotesFailure, GivesHeld, GivesExactly};
ghost use Rattle.gltf_names.specs.Slices.{held_in, slices_failures, slices_files, slices_holds};

use crate::log::Log;
use crate::name::{Name, NamedBytes, NamedFault};
use std::alloc::Global;
use std::io;

/// Bytes by name that are lent: a read copies those that it gives, and nothing is copied before.
/// Of two files of one name the first counts. A name that is not among them is a failure.
#[derive(Drop)]
pub struct Slices<'a> {
    files: &'a [(Name<'a>, &'a [u8])],
    log: Log,
}

impl<'a> Slices<'a> {
    /// A source of these files. Takes no memory.
    pub fn new(files: &'a [(Name<'a>, &'a [u8])]) -> Slices<'a>
        ensures files { slices_files result ≡ map (λ file. (named file.0, file.1.now)) files.now }
        ensures failures { slices_failures result ≡ [] }
    {
        Slices {
            files,
            log: Log::new(),
        }
    }

    /// The bytes of the first file of a name.
    fn find(&self, name: &Name<'_>) -> Option<&'a [u8]>
        ensures { option_copied result ≡ slices_holds self.now (named name.now) }
    {
        for (own, bytes) in self.files {
            if is_same(own, name) {
                return Some(*bytes);
            }
        }
        None
    }
}

/// Whether two names are one.
fn is_same(one: &Name<'_>, other: &Name<'_>) -> bool
    ensures { result ≡ is_same (named one.now) (named other.now) }
{
    match (one, other) {
        (Name::File(one), Name::File(other)) => one == other,
        (Name::Relative(one), Name::Relative(other)) => one == other,
        _ => false,
    }
}

impl<'a> NamedBytes for Slices<'a> {
    ghost failures = { slices_failures };

    ghost bytes_by_name = { λ slices. Some (slices_holds slices) };

    /// A copy of the bytes of the name.
    fn read(&mut self, alloc: Global, name: Name<'_>) -> Result<Vec<u8>, NamedFault>
        ensures failure { NotesFailure result (named name.entry)
            (slices_failures self.old) (slices_failures self.new) }
        ensures honest { GivesHeld result (named name.entry) (Some (slices_holds self.old)) }
        ensures kept { Some (slices_holds self.new) ≡ Some (slices_holds self.old) }
        ensures exact { GivesExactly (slices_holds self.old (named name.entry)) result }
    {
        let Some(bytes) = self.find(&name) else {
            self.log.note(alloc, &name);
            return Err(NamedFault::Io(io::Error::from(io::ErrorKind::NotFound)));
        };
        match Vec::from_slice(alloc, bytes) {
            Ok(bytes) => Ok(bytes),
            Err(_) => Err(NamedFault::Memory),
        }
    }

    fn last_failed(&self) -> Option<&str> {
        self.log.last()
    }
}
