//! How bytes that stand outside a document are asked for, where they can be.
ghost use Rattle.std.specs.Prelude.{◌≡◌, [], List, IfOk, IfErr, OnOk};
ghost use Rattle.gltf_names.specs.Named.{Named, named};
ghost use Rattle.gltf_buffers.specs.Errors.{IsUnanswered};
ghost use Rattle.gltf_buffers.specs.Names.{Names, Nowhere, Gives, names_of};

use gltf_glb::{Error, Result};
use gltf_names::{Name, NamedBytes, NamedFault};
use std::alloc::Global;

/// What the references of a document are asked of: any source of named bytes, or [`NoNames`].
pub trait Ask {
    /// What is known of the names.
    ghost names: { Self → Names };

    /// The names whose reads failed, the last of them first.
    ghost failures: { Self → List Named };

    /// The bytes of the name.
    ///
    /// Answers [`Error::Io`] where the source failed, and has noted the name, and
    /// [`Error::ExternalReferenceInSliceImport`] where no name can be asked for.
    fn ask(&mut self, alloc: Global, name: Name<'_>) -> Result<Vec<u8>>
        ensures gives { IfOk result
            (λ bytes. Gives (names self.old) (named name.entry) bytes.items) }
        ensures unanswered { IfErr result (IsUnanswered (names self.old) (named name.entry)
            (failures self.old) (failures self.new)) }
        ensures fine { OnOk result (failures self.new ≡ failures self.old) }
        ensures kept { names self.new ≡ names self.old };
}

/// No name can be asked for.
#[derive(Drop)]
pub struct NoNames;

impl Ask for NoNames {
    ghost names = { λ _. Nowhere };

    ghost failures = { λ _. [] };

    fn ask(&mut self, _alloc: Global, _name: Name<'_>) -> Result<Vec<u8>> {
        Err(Error::ExternalReferenceInSliceImport)
    }
}

impl<S: NamedBytes> Ask for S {
    ghost names = { λ s. names_of (S.bytes_by_name s) };

    ghost failures = { λ s. S.failures s };

    fn ask(&mut self, alloc: Global, name: Name<'_>) -> Result<Vec<u8>> {
        match self.read(alloc, name) {
            Ok(bytes) => Ok(bytes),
            Err(NamedFault::Io(cause)) => Err(Error::Io(cause)),
            Err(NamedFault::Memory) => Err(Error::Memory),
        }
    }
}
