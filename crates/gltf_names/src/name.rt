//! Names of bytes, and sources that hold what they name.
ghost use Rattle.std.specs.Prelude.{◌≡◌, List, ℕ, Option, Some, None, IfSome};
ghost use Rattle.gltf_names.specs.Named.{Named, named, text_of, text_of_last};
ghost use Rattle.gltf_names.specs.Answers.{NotesFailure, GivesHeld};

use std::alloc::{AllocError, Global};
use std::io;

/// The name of bytes that stand outside a document. Two names are one where kind and text are.
#[derive(Clone, Copy, Debug)]
pub enum Name<'a> {
    /// A file's path, as it stands: the path of a document, or of a `file:` URI.
    File(&'a str),
    /// A relative reference of a document, percent-decoded (glTF 2.0, section 2.8).
    Relative(&'a str),
}

impl<'a> Name<'a> {
    /// The path, or the reference.
    pub(crate) fn text(&self) -> &'a str
        ensures { result.now ≡ text_of (named self.now) }
    {
        match self {
            Name::File(text) => text,
            Name::Relative(text) => text,
        }
    }
}

/// Why a name's bytes were not given.
#[derive(Debug, Drop)]
pub enum NamedFault {
    /// The source failed, or holds no such name. It notes the name.
    Io(io::Error),
    /// There was not enough memory.
    Memory,
}

impl From<AllocError> for NamedFault {
    ghost use Rattle.gltf_names.specs.declared.name.NamedFault.TheVariants.{Memory};

    ghost from_gives = { λ _ fault. fault ≡ Memory };

    fn from(_cause: AllocError) -> NamedFault {
        NamedFault::Memory
    }
}

/// A source of named bytes.
///
/// Contracts see two things of it that have no bytes at run time: the names whose reads failed,
/// and, where the source is honest, the bytes that each name holds.
pub trait NamedBytes {
    /// The names whose reads failed, the last of them first: the length of this list is the count
    /// of failures, and its head the last failed name.
    ghost failures: { Self → List Named };

    /// The bytes of each name, where the source is honest: `None` says nothing of them.
    ghost bytes_by_name: { Self → Option (Named → Option (List ℕ)) } = { λ _. None };

    /// The bytes of the name.
    ///
    /// Answers [`NamedFault::Io`] exactly where the count of failures rises by one and the last
    /// failed name is the one that was asked for, else both stay as they are. An honest source
    /// gives the bytes that the name holds, and a read leaves what is held as it is.
    fn read(&mut self, alloc: Global, name: Name<'_>) -> Result<Vec<u8>, NamedFault>
        ensures failure { NotesFailure result (named name.entry)
            (failures self.old) (failures self.new) }
        ensures honest { GivesHeld result (named name.entry) (bytes_by_name self.old) }
        ensures kept { bytes_by_name self.new ≡ bytes_by_name self.old };

    /// The text of the name whose read failed last; `None` where no read failed, or where there
    /// was no memory to keep the text.
    fn last_failed(&self) -> Option<&str>
        ensures { IfSome result
            (λ text. text_of_last (failures self.now) ≡ Some text.now) };
}
