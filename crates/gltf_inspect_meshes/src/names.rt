//! Names of extensions in a list.
ghost use Rattle.std.specs.Prelude.{◌≡◌, ◌||◌, ℕ, List, false, IfOk, OnOk, bytes_eq, string_bytes};
ghost use Rattle.gltf_inspect_meshes.specs.Names.{is_among, has_name};

use std::alloc::{AllocError, Global};
use std::collections::BTreeSet;

/// Whether a name is one of these. Where many names are looked up, a [`NameSet`] is faster.
pub fn is_among(name: &str, names: &[String]) -> bool
    ensures { result ≡ is_among names.now name.now }
{
    for other in names {
        if name == other.as_str() {
            return true;
        }
    }
    false
}

/// The names of a list, to be looked up.
#[derive(Debug, Drop)]
pub struct NameSet {
    names: BTreeSet<String>,
}

impl NameSet {
    /// The set of these names. Fails where there is no memory.
    pub fn of(alloc: Global, names: &[String]) -> Result<NameSet, AllocError>
        ensures { IfOk result (λ set. has_name set ≡ is_among names.now) }
    {
        let mut set = BTreeSet::new(alloc);
        for name in names {
            set.insert(name.clone()?)?;
        }
        Ok(NameSet { names: set })
    }

    /// No names yet. Takes no memory.
    pub fn new(alloc: Global) -> NameSet
        ensures { (q : List ℕ) → has_name result q ≡ false }
    {
        NameSet {
            names: BTreeSet::new(alloc),
        }
    }

    /// Adds a name, and answers whether it was one of them. Fails where there is no memory.
    pub fn add(&mut self, name: &String) -> Result<bool, AllocError>
        ensures was { IfOk result (λ was. was ≡ has_name self.old (string_bytes name.now)) }
        ensures now { OnOk result ((q : List ℕ) → has_name self.new q
            ≡ (has_name self.old q || bytes_eq q (string_bytes name.now))) }
    {
        let was = self.has(name.as_str());
        self.names.insert(name.clone()?)?;
        Ok(was)
    }

    /// Whether a name is one of them.
    pub fn has(&self, name: &str) -> bool
        ensures { result ≡ has_name self.now name.now }
    {
        self.names.contains(name)
    }
}
