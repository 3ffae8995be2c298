//! Named bytes, but none from outside the folder of a document.
ghost use Rattle.std.specs.Prelude.{◌≡◌, []};
ghost use Rattle.gltf_names.specs.Answers.{NotesFailure, GivesHeld};
ghost use Rattle.gltf_names.specs.Inside.{IsForbidden, MayBeAsked};
ghost use Rattle.gltf_names.specs.Named.{named};
ghost use Rattle.gltf_names.specs.Sources.{inside_document, inside_failures, inside_source};

use crate::log::Log;
use crate::name::{Name, NamedBytes, NamedFault};
use crate::outside::outside_of;
use std::alloc::Global;

/// A source that is asked for a document, by its own path, and for names that stay inside its
/// folder (glTF 2.0, section 2.8), and for no other name: for documents that are not trusted.
///
/// A [`Name::Relative`] that is absolute, has a scheme or climbs out by `..`, as
/// [`crate::leads_outside`] has it, and a [`Name::File`] but the document's path, as a `file:` URI
/// has it, are failed reads: [`NamedFault::Io`] of the kind `PermissionDenied`, whose text says why.
/// The source is not asked for them. It gives what the source gives for the others.
///
/// Names are looked at, and no files. Over a [`crate::Folder`] a symbolic link in the folder leads
/// wherever it leads: take [`crate::OwnFolder`] there.
#[derive(Drop)]
pub struct Inside<'a, S: Drop> {
    source: S,
    document: &'a str,
    log: Log,
}

impl<'a, S: Drop> Inside<'a, S> {
    /// The source, for the document of this path. Takes no memory, and asks for nothing.
    pub fn new(source: S, document: &'a str) -> Inside<'a, S>
        ensures source { inside_source result ≡ source }
        ensures document { inside_document result ≡ document.now }
        ensures failures { inside_failures result ≡ [] }
    {
        Inside {
            source,
            document,
            log: Log::new(),
        }
    }
}

impl<'a, S: NamedBytes + Drop> NamedBytes for Inside<'a, S> {
    ghost failures = { inside_failures };

    ghost bytes_by_name = { λ inside. S.bytes_by_name (inside_source inside) };

    fn read(&mut self, alloc: Global, name: Name<'_>) -> Result<Vec<u8>, NamedFault>
        ensures failure { NotesFailure result (named name.entry)
            (inside_failures self.old) (inside_failures self.new) }
        ensures honest { GivesHeld result (named name.entry)
            (S.bytes_by_name (inside_source self.old)) }
        ensures kept { S.bytes_by_name (inside_source self.new)
            ≡ S.bytes_by_name (inside_source self.old) }
        ensures document { inside_document self.new ≡ inside_document self.old }
        // A name that leads outside is a failed read, and the source is what it was.
        ensures refused { ¬ MayBeAsked (inside_document self.old) (named name.entry)
            → IsForbidden result × (inside_source self.new ≡ inside_source self.old) }
        // The source is asked for each other name: where it fails, and there alone, this one fails.
        ensures asked { MayBeAsked (inside_document self.old) (named name.entry)
            → NotesFailure result (named name.entry)
            (S.failures (inside_source self.old)) (S.failures (inside_source self.new)) }
    {
        if let Some(outside) = outside_of(self.document, &name) {
            self.log.note(alloc, &name);
            return Err(NamedFault::Io(outside.error()));
        }
        match self.source.read(alloc, name) {
            Ok(bytes) => Ok(bytes),
            Err(NamedFault::Memory) => Err(NamedFault::Memory),
            Err(NamedFault::Io(cause)) => {
                self.log.note(alloc, &name);
                Err(NamedFault::Io(cause))
            }
        }
    }

    fn last_failed(&self) -> Option<&str> {
        self.log.last()
    }
}
