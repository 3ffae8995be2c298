//! What a source gave for names. Each is asked for once.
ghost use Rattle.std.specs.Prelude.{◌≡◌, ◌≢◌, ℕ, List, Option, Some, None, IfOk, IfErr, OnOk};
ghost use Rattle.std.specs.Prelude.{option_map, is_some};
ghost use Rattle.gltf_names.specs.Named.{Named, named};
ghost use Rattle.gltf_buffers.specs.Names.{CanBeAsked};
ghost use Rattle.gltf_buffers.specs.Padding.{padded};
ghost use Rattle.gltf_shared.specs.Asked.{Notes, UnlessMemory};
ghost use Rattle.gltf_shared.specs.Given.{given_bytes, given_at, held_at, IsSound, Keeps, Puts};
ghost use Rattle.gltf_shared.specs.Given.{Fits, IsFilled, IsNotGiven, AsksOrHolds, NoneFailed};
ghost use Rattle.gltf_shared.specs.Given.{is_failure};
ghost use Rattle.gltf_shared.specs.Shown.{answer_of};

use crate::asking::AskUpTo;
use gltf_buffers::Data;
use gltf_buffers::payload::pad_to_four;
use gltf_glb::{Error, Result};
use gltf_names::Name;
use std::alloc::{AllocError, Global};
use std::collections::BTreeMap;
use std::io;
use std::rc::Rc;

/// What a source gave for a name.
#[derive(Drop)]
pub(crate) enum Given {
    /// Its bytes, with zeros after them up to a multiple of four.
    Bytes(Rc<Data>),
    /// Nothing: it failed so.
    Failed(io::ErrorKind),
}

/// What a source gave, by name.
#[derive(Drop)]
pub(crate) struct Held {
    files: BTreeMap<String, Given>,
    relatives: BTreeMap<String, Given>,
}

impl Held {
    /// Nothing yet. Takes no memory.
    pub(crate) fn new(alloc: Global) -> Held
        ensures { (name : Named) → held_at result name ≡ None }
    {
        Held {
            files: BTreeMap::new(alloc),
            relatives: BTreeMap::new(alloc),
        }
    }

    fn find(&self, name: &Name<'_>) -> Option<&Given>
        ensures { option_map (λ given. given_bytes given.now) result
            ≡ held_at self.now (named name.now) }
    {
        match name {
            Name::File(text) => self.files.get(*text),
            Name::Relative(text) => self.relatives.get(*text),
        }
    }

    fn put(&mut self, alloc: Global, name: Name<'_>, given: Given) -> Result<(), AllocError>
        ensures { OnOk result (Puts self.old self.new (named name.entry) (given_bytes given)) }
    {
        match name {
            Name::File(text) => put(alloc, &mut self.files, text, given),
            Name::Relative(text) => put(alloc, &mut self.relatives, text, given),
        }
    }

    /// The bytes of a name, with zeros after them up to a multiple of four. The source is asked
    /// where it was not asked before; else what it gave then is given again.
    ///
    /// Where there is no memory, the source may have been asked, and what it gave is lost.
    pub(crate) fn read<N: AskUpTo>(
        &mut self,
        alloc: Global,
        names: &mut N,
        name: Name<'_>,
        declared: u64,
    ) -> Result<Rc<Data>>
        requires { IsSound (N.names names.old) self.old }
        ensures ok { IfOk result (λ buffer. IsFilled (N.names names.old) (named name.entry)
            buffer.value.0.items) }
        ensures err { IfErr result (IsNotGiven (N.names names.old)) }
        ensures sound { UnlessMemory result (IsSound (N.names names.old) self.new) }
        ensures fits { Fits (held_at self.new (named name.entry)) (answer_of result) }
        ensures keeps { UnlessMemory result (Keeps self.old self.new) }
        ensures asked { CanBeAsked (N.names names.old) → UnlessMemory result
            (AsksOrHolds N.asks (named name.entry) self.old self.new names.old names.new) }
        ensures noted { Notes (λ other. other ≡ named name.entry) self.old result
            (N.failures names.old) (N.failures names.new) }
        ensures none { NoneFailed self.old → OnOk result (NoneFailed self.new) }
        ensures kept { N.names names.new ≡ N.names names.old }
    {
        match self.find(&name) {
            Some(Given::Bytes(data)) => Ok(data.clone()?),
            Some(Given::Failed(kind)) => Err(Error::Io(io::Error::from(*kind))),
            None => self.ask(alloc, names, name, declared),
        }
    }

    /// The same of a name that the source was not asked for before.
    #[tactic(auto, using(crate::proofs::Noted::unanswered))]
    fn ask<N: AskUpTo>(
        &mut self,
        alloc: Global,
        names: &mut N,
        name: Name<'_>,
        declared: u64,
    ) -> Result<Rc<Data>>
        requires sound { IsSound (N.names names.old) self.old }
        requires new { held_at self.old (named name) ≡ None }
        ensures ok { IfOk result (λ buffer. IsFilled (N.names names.old) (named name.entry)
            buffer.value.0.items) }
        ensures err { IfErr result (IsNotGiven (N.names names.old)) }
        ensures sound { UnlessMemory result (IsSound (N.names names.old) self.new) }
        ensures fits { Fits (held_at self.new (named name.entry)) (answer_of result) }
        ensures keeps { UnlessMemory result (Keeps self.old self.new) }
        ensures asked { CanBeAsked (N.names names.old) → UnlessMemory result
            (AsksOrHolds N.asks (named name.entry) self.old self.new names.old names.new) }
        ensures noted { Notes (λ other. other ≡ named name.entry) self.old result
            (N.failures names.old) (N.failures names.new) }
        ensures none { NoneFailed self.old → OnOk result (NoneFailed self.new) }
        ensures kept { N.names names.new ≡ N.names names.old }
    {
        match names.ask_up_to(alloc, name, Some(declared.saturating_add(3))) {
            Ok(bytes) => Ok(self.hold(alloc, name, bytes)?),
            Err(error) => match failure(&error) {
                Some(kind) => {
                    self.put(alloc, name, Given::Failed(kind))?;
                    Err(error)
                }
                None => Err(error),
            },
        }
    }

    /// Holds the bytes of a name, with zeros after them, and gives them.
    fn hold(
        &mut self,
        alloc: Global,
        name: Name<'_>,
        bytes: Vec<u8>,
    ) -> Result<Rc<Data>, AllocError>
        ensures bytes { IfOk result (λ buffer. buffer.value.0.items ≡ padded bytes.items) }
        ensures put { OnOk result (Puts self.old self.new (named name.entry)
            (Some (padded bytes.items))) }
    {
        let mut bytes = bytes;
        pad_to_four(&mut bytes)?;
        let data = Rc::new(alloc, Data(bytes))?;
        let copy = data.clone()?;
        self.put(alloc, name, Given::Bytes(copy))?;
        Ok(data)
    }
}

/// How a source failed, where the error says that it did.
fn failure(error: &Error) -> Option<io::ErrorKind>
    ensures { is_some result ≡ is_failure error.now }
{
    match error {
        Error::Io(cause) => Some(cause.kind()),
        _ => None,
    }
}

fn put(
    alloc: Global,
    held: &mut BTreeMap<String, Given>,
    text: &str,
    given: Given,
) -> Result<(), AllocError>
    ensures same { OnOk result (given_at held.new text.now ≡ Some (given_bytes given)) }
    ensures others { OnOk result ((other : List ℕ) → other ≢ text.now
        → given_at held.new other ≡ given_at held.old other) }
{
    let text = String::from_str(alloc, text)?;
    held.insert(text, given)?;
    Ok(())
}
