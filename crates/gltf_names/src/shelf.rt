//! Named bytes in memory.
ghost use Rattle.std.specs.Prelude.{◌≡◌, [], List, ℕ, Option, Some, None, Err, OnOk, OnErr};
ghost use Rattle.std.specs.Prelude.{option_map, if◌then◌else◌};
ghost use Rattle.std.specs.BTreeMap.{get_by_text};
ghost use Rattle.std.specs.Str.{bytes_eq};
ghost use Rattle.gltf_names.specs.Named.{Named, named};
ghost use Rattle.gltf_names.specs.Answers.{NotesFailure, GivesHeld, GivesExactly};
ghost use Rattle.gltf_names.specs.Sources.{bytes_at, shelf_failures, shelf_holds, shelf_due};
ghost use Rattle.gltf_names.specs.Sources.{PutsBytes, HoldsTheSame, unless_due, due_after};

use crate::log::Log;
use crate::name::{Name, NamedBytes, NamedFault};
use std::alloc::{AllocError, Global};
use std::collections::BTreeMap;
use std::io;

/// Bytes in memory by name. A name that it does not hold is a failure.
#[derive(Drop)]
pub struct Shelf {
    alloc: Global,
    files: BTreeMap<String, Vec<u8>>,
    relatives: BTreeMap<String, Vec<u8>>,
    due: Option<usize>,
    log: Log,
}

impl Shelf {
    /// A shelf that holds no name. Takes no memory.
    pub fn new(alloc: Global) -> Shelf
        ensures empty { (name : Named) → shelf_holds result name ≡ None }
        ensures due { shelf_due result ≡ None }
        ensures failures { shelf_failures result ≡ [] }
    {
        Shelf {
            alloc,
            files: BTreeMap::new(alloc),
            relatives: BTreeMap::new(alloc),
            due: None,
            log: Log::new(),
        }
    }

    /// The name has these bytes from now on, in place of those that it had. Where there is not
    /// enough memory, nothing changes.
    pub fn put(&mut self, name: Name<'_>, bytes: &[u8]) -> Result<(), AllocError>
        ensures put { OnOk result (PutsBytes self.old self.new (named name.entry) bytes.now) }
        ensures refused { OnErr result (HoldsTheSame self.old self.new) }
        ensures due { shelf_due self.new ≡ shelf_due self.old }
        ensures failures { shelf_failures self.new ≡ shelf_failures self.old }
    {
        match name {
            Name::File(text) => put(self.alloc, &mut self.files, text, bytes),
            Name::Relative(text) => put(self.alloc, &mut self.relatives, text, bytes),
        }
    }

    /// The read after the next `k` ones fails, whatever it asks for. A later call takes the place
    /// of an earlier one.
    pub fn fail_at(&mut self, k: usize)
        ensures holds { HoldsTheSame self.old self.new }
        ensures due { shelf_due self.new ≡ Some k }
        ensures failures { shelf_failures self.new ≡ shelf_failures self.old }
    {
        self.due = Some(k);
    }

    fn find(&self, name: &Name<'_>) -> Option<&Vec<u8>>
        ensures { option_map (λ bytes. bytes.now.items) result
            ≡ shelf_holds self.now (named name.now) }
    {
        match name {
            Name::File(text) => self.files.get(*text),
            Name::Relative(text) => self.relatives.get(*text),
        }
    }

    /// Whether the next read is the one that is to fail, and one read less to go.
    fn is_due(&mut self) -> bool
        ensures due { shelf_due self.new ≡ due_after (shelf_due self.old) }
        ensures files { self.new.files ≡ self.old.files }
        ensures relatives { self.new.relatives ≡ self.old.relatives }
        ensures log { self.new.log ≡ self.old.log }
        ensures when { (bytes : Option (List ℕ)) → (if result then None else bytes)
            ≡ unless_due (shelf_due self.old) bytes }
    {
        match self.due {
            None => false,
            Some(0) => {
                self.due = None;
                true
            }
            Some(k) => {
                self.due = Some(k - 1);
                false
            }
        }
    }

    fn fail(&mut self, name: &Name<'_>) -> NamedFault
        ensures noted { NotesFailure (Err result) (named name.now)
            (shelf_failures self.old) (shelf_failures self.new) }
        ensures gives { GivesExactly None (Err result) }
        ensures files { self.new.files ≡ self.old.files }
        ensures relatives { self.new.relatives ≡ self.old.relatives }
        ensures due { self.new.due ≡ self.old.due }
    {
        self.log.note(self.alloc, name);
        NamedFault::Io(io::Error::from(io::ErrorKind::NotFound))
    }
}

fn put(
    alloc: Global,
    held: &mut BTreeMap<String, Vec<u8>>,
    text: &str,
    bytes: &[u8],
) -> Result<(), AllocError>
    ensures put { OnOk result ((other : List ℕ) → bytes_at held.new other
        ≡ (if bytes_eq text.now other then Some bytes.now else bytes_at held.old other)) }
    ensures refused { OnErr result ((other : List ℕ) →
        get_by_text held.new other ≡ get_by_text held.old other) }
{
    let text = String::from_str(alloc, text)?;
    let bytes = Vec::from_slice(alloc, bytes)?;
    held.insert(text, bytes)?;
    Ok(())
}

impl NamedBytes for Shelf {
    ghost failures = { shelf_failures };

    ghost bytes_by_name = { λ shelf. Some (shelf_holds shelf) };

    /// The bytes of the name, but for the read that [`Shelf::fail_at`] set.
    fn read(&mut self, alloc: Global, name: Name<'_>) -> Result<Vec<u8>, NamedFault>
        ensures failure { NotesFailure result (named name.entry)
            (shelf_failures self.old) (shelf_failures self.new) }
        ensures honest { GivesHeld result (named name.entry) (Some (shelf_holds self.old)) }
        ensures kept { Some (shelf_holds self.new) ≡ Some (shelf_holds self.old) }
        ensures exact { GivesExactly
            (unless_due (shelf_due self.old) (shelf_holds self.old (named name.entry))) result }
        ensures due { shelf_due self.new ≡ due_after (shelf_due self.old) }
    {
        if self.is_due() {
            return Err(self.fail(&name));
        }
        let Some(bytes) = self.find(&name) else {
            return Err(self.fail(&name));
        };
        match Vec::from_slice(alloc, bytes) {
            Ok(bytes) => Ok(bytes),
            Err(_) => Err(NamedFault::Memory),
        }
    }

    fn last_failed(&self) -> Option<&str> {
        self.log.last()
    }
}
