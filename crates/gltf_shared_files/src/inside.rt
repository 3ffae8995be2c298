//! Named bytes, but none from outside the folder of a document, for names that a stranger wrote.
ghost use Rattle.std.specs.Prelude.{◌≡◌, [], None, ⊤, IsErr, IfOk, IfErr, OnOk};
ghost use Rattle.std.proofs.Props.{props};
ghost use Rattle.gltf_names.specs.Inside.{MayBeAsked};
ghost use Rattle.gltf_names.specs.Named.{Named, named};
ghost use Rattle.gltf_names.specs.Sources.{shelf_failures, shelf_holds};
ghost use Rattle.gltf_buffers.specs.Errors.{IsUnanswered};
ghost use Rattle.gltf_buffers.specs.Names.{Anywhere, Gives};

use gltf_glb::Error;
use gltf_names::{Name, NamedBytes, NamedFault, Shelf, link_error, outside_of, stays_inside};
use gltf_shared::AskUpTo;
use std::alloc::Global;
use std::io;
use std::rt::Files;

/// A name that was refused, and why.
#[derive(Debug, Drop)]
pub struct Outsider {
    /// The path, or the relative reference, percent-decoded.
    pub name: String,
    /// Why it is not read.
    pub cause: io::Error,
}

/// A source that is asked for a document, by its own path, and for names that stay inside its
/// folder, and for no other name: for documents that are not trusted (glTF 2.0, section 2.8). As
/// [`gltf_names::Inside`], over a source that is asked for so many bytes at most, as
/// [`gltf_shared::RegularFolder`].
///
/// A name that leads out of the folder, as [`outside_of`] has it, or by a symbolic link, as
/// [`stays_inside`] has it, is a failed read of the kind `PermissionDenied`, and the source is not
/// asked for it.
#[derive(Drop)]
pub struct InsideUpTo<'a, R: Files, S: Drop> {
    rt: &'a R,
    base: &'a str,
    document: &'a str,
    source: S,
    outsiders: Vec<Outsider>,
    // Asked for a name whose read failed, it fails too, and notes the name.
    failed: Shelf,
    ghost empty: { (name : Named) → shelf_holds failed name ≡ None } by { Prim.hlevel props },
}

impl<'a, R: Files, S: Drop> InsideUpTo<'a, R, S> {
    /// The source, for the document of this path. Symbolic links are looked for after the base, as
    /// `models/`, which is the folder of the document. Takes no memory, and asks for nothing.
    pub fn new(
        rt: &'a R,
        alloc: Global,
        base: &'a str,
        document: &'a str,
        source: S,
    ) -> InsideUpTo<'a, R, S>
        ensures source { result.source ≡ source }
        ensures document { result.document.now ≡ document.now }
        ensures failures { shelf_failures result.failed ≡ [] }
    {
        InsideUpTo {
            rt,
            base,
            document,
            source,
            outsiders: Vec::new(alloc),
            failed: Shelf::new(alloc),
        }
    }

    /// The names that were refused, in order, as far as there was memory to keep them.
    pub fn outsiders(&self) -> &[Outsider] {
        &self.outsiders
    }

    /// Whether no symbolic link leads out of the folder.
    fn look(&self, alloc: Global, name: &Name<'_>) -> Result<bool, NamedFault> {
        match name {
            Name::File(_) => Ok(true),
            Name::Relative(path) => stays_inside(self.rt, alloc, self.base, path),
        }
    }

    /// Keeps a name that was refused, where there is memory for it.
    fn keep(&mut self, alloc: Global, name: &Name<'_>, cause: io::Error)
        ensures source { self.new.source ≡ self.old.source }
        ensures document { self.new.document.now ≡ self.old.document.now }
        ensures failures { shelf_failures self.new.failed ≡ shelf_failures self.old.failed }
    {
        let text = match name {
            Name::File(text) => text,
            Name::Relative(text) => text,
        };
        if let Ok(name) = String::from_str(alloc, text) {
            let _ = self.outsiders.push(Outsider { name, cause });
        }
    }

    /// Notes a name whose read failed.
    fn note(&mut self, alloc: Global, name: Name<'_>, cause: io::Error) -> Error
        ensures noted { IsUnanswered Anywhere (named name.entry) (shelf_failures self.old.failed)
            (shelf_failures self.new.failed) result }
        ensures source { self.new.source ≡ self.old.source }
        ensures document { self.new.document.now ≡ self.old.document.now }
    {
        match self.failed.read(alloc, name) {
            Ok(_) => unreachable!(),
            Err(NamedFault::Io(_)) => Error::Io(cause),
            Err(NamedFault::Memory) => Error::Memory,
        }
    }

    /// Notes a name that is refused, and keeps it.
    fn refuse(&mut self, alloc: Global, name: Name<'_>, cause: io::Error) -> Error
        ensures noted { IsUnanswered Anywhere (named name.entry) (shelf_failures self.old.failed)
            (shelf_failures self.new.failed) result }
        ensures source { self.new.source ≡ self.old.source }
        ensures document { self.new.document.now ≡ self.old.document.now }
    {
        self.keep(alloc, &name, cause);
        self.note(alloc, name, cause)
    }
}

impl<'a, R: Files, S: AskUpTo + Drop> AskUpTo for InsideUpTo<'a, R, S> {
    ghost names = { λ _. Anywhere };

    ghost failures = { λ inside. shelf_failures inside.failed };

    fn ask_up_to(
        &mut self,
        alloc: Global,
        name: Name<'_>,
        most: Option<u64>,
    ) -> gltf_glb::Result<Vec<u8>>
        ensures gives { IfOk result (λ bytes. Gives Anywhere (named name.entry) bytes.items) }
        ensures unanswered { IfErr result (IsUnanswered Anywhere (named name.entry)
            (shelf_failures self.old.failed) (shelf_failures self.new.failed)) }
        ensures fine { OnOk result (shelf_failures self.new.failed ≡ shelf_failures self.old.failed) }
        ensures kept { Anywhere ≡ Anywhere }
        ensures asked { ⊤ }
        ensures document { self.new.document.now ≡ self.old.document.now }
        // A name that leads outside is not answered, and the source is what it was.
        ensures refused { ¬ MayBeAsked self.old.document.now (named name.entry)
            → IsErr result × (self.new.source ≡ self.old.source) }
    {
        if let Some(outside) = outside_of(self.document, &name) {
            return Err(self.refuse(alloc, name, outside.error()));
        }
        match self.look(alloc, &name) {
            Ok(true) => {}
            Ok(false) => return Err(self.refuse(alloc, name, link_error())),
            Err(NamedFault::Io(cause)) => return Err(self.note(alloc, name, cause)),
            Err(NamedFault::Memory) => return Err(Error::Memory),
        }
        match self.source.ask_up_to(alloc, name, most) {
            Ok(bytes) => Ok(bytes),
            Err(Error::Io(cause)) => Err(self.note(alloc, name, cause)),
            Err(_) => Err(Error::Memory),
        }
    }

    fn last_failed(&self) -> Option<&str> {
        NamedBytes::last_failed(&self.failed)
    }
}

#[cfg(test)]
mod tests {
    use super::*;
    use std::test::Fail;

    #[test]
    fn nothing_outside_is_asked_for(rt: HostRuntime) -> std::result::Result<(), Fail> {
        let alloc = rt.alloc();
        let mut shelf = Shelf::new(alloc);
        shelf.put(Name::File("m/a.gltf"), &[1])?;
        shelf.put(Name::File("/b.bin"), &[2])?;
        shelf.put(Name::Relative("../b.bin"), &[3])?;
        let mut inside = InsideUpTo::new(&rt, alloc, "m/", "m/a.gltf", shelf);
        let file = inside.ask_up_to(alloc, Name::File("m/a.gltf"), None)?;
        assert_eq!(rt; file.as_slice(), [1u8].as_slice());
        for name in [Name::File("/b.bin"), Name::Relative("../b.bin")] {
            assert!(rt; inside.ask_up_to(alloc, name, None).is_err());
        }
        assert_eq!(rt; inside.outsiders().len(), 2);
        assert_eq!(rt; AskUpTo::last_failed(&inside), Some("../b.bin"));
        Ok(())
    }
}
