//! How bytes that stand outside a document are asked for, by a caller who knows how many it wants.
ghost use Rattle.std.specs.Prelude.{◌≡◌, List, Some, ⊤, IfOk, IfErr, IfSome, OnOk};
ghost use Rattle.gltf_names.specs.Named.{Named, named, text_of_last};
ghost use Rattle.gltf_buffers.specs.Errors.{IsUnanswered};
ghost use Rattle.gltf_buffers.specs.Names.{Names, Gives};

use gltf_buffers::Ask;
use gltf_glb::Result;
use gltf_names::Name;
use std::alloc::Global;

/// What the references of a document are asked of, by a caller who says how many bytes it wants at
/// most.
pub trait AskUpTo {
    /// What is known of the names.
    ghost names: { Self → Names };

    /// The names whose reads failed, the last of them first.
    ghost failures: { Self → List Named };

    /// What one call does to the source, by the name that was asked for.
    ghost asks: { Self → Named → Self → Type 0 } = { λ _ _ _. ⊤ };

    /// The bytes of the name. `most` is how many are wanted at most, where that is known: a source
    /// may fail at a name with more, or give them all.
    ///
    /// Returns [`Error::Io`] where the source failed, and has noted the name, and
    /// [`Error::ExternalReferenceInSliceImport`] where no name can be asked for.
    fn ask_up_to(&mut self, alloc: Global, name: Name<'_>, most: Option<u64>) -> Result<Vec<u8>>
        ensures gives { IfOk result
            (λ bytes. Gives (names self.old) (named name.entry) bytes.items) }
        ensures unanswered { IfErr result (IsUnanswered (names self.old) (named name.entry)
            (failures self.old) (failures self.new)) }
        ensures fine { OnOk result (failures self.new ≡ failures self.old) }
        ensures kept { names self.new ≡ names self.old }
        ensures asked { asks self.old (named name.entry) self.new };

    /// The text of the name whose read failed last; `None` where no read failed, or where there was
    /// no memory to keep the text.
    fn last_failed(&self) -> Option<&str>
        ensures { IfSome result
            (λ text. text_of_last (failures self.now) ≡ Some text.now) };
}

/// A source that is asked for names gives all bytes of each, whatever is wanted. It is asked itself
/// which read failed last.
impl<T: Ask> AskUpTo for T {
    ghost names = { λ source. T.names source };

    ghost failures = { λ source. T.failures source };

    fn ask_up_to(&mut self, alloc: Global, name: Name<'_>, _most: Option<u64>) -> Result<Vec<u8>> {
        self.ask(alloc, name)
    }

    fn last_failed(&self) -> Option<&str> {
        None
    }
}
