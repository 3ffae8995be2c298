//! What a walk has found.
ghost use Rattle.std.specs.Prelude.{◌≡◌, [], ◌∷◌, ◌++◌, OnOk};
ghost use Rattle.gltf_validation.specs.Locations.{places_of};
ghost use Rattle.gltf_findings.specs.Checks.{Condition, told_after, member};

use crate::code::Code;
use gltf_json_record::path::Path;
use gltf_validation::location::Location;
use std::alloc::{AllocError, Global};
use std::marker::Model;

/// What a walk has found so far, in the order of the walk. Contracts see the list of it.
#[derive(Debug, Drop)]
pub struct Findings {
    alloc: Global,
    found: Vec<(Path, Code)>,
}

impl Model for Findings {
    ghost use Rattle.std.specs.Prelude.{List};
    ghost use Rattle.gltf_json_record.specs.Place.{Place};
    ghost use Rattle.gltf_findings.specs.declared.code.Code.{Code};

    ghost Value = { List (List Place × Code) };

    ghost view = { λ r. r.found.items };
}

impl Findings {
    /// Nothing yet. Takes no memory.
    pub fn new(alloc: Global) -> Findings
        ensures { result ≡ [] }
    {
        Findings {
            alloc,
            found: Vec::new(alloc),
        }
    }

    /// One more finding, at a path. Fails where there is no memory.
    pub fn add(&mut self, path: Path, code: Code) -> Result<(), AllocError>
        ensures { OnOk result (self.new ≡ self.old ++ (path, code) ∷ []) }
    {
        self.found.push((path, code))?;
        Ok(())
    }

    /// A condition of the value at a location: it is found where it does not hold. Takes memory
    /// only there, and fails where there is none.
    pub fn tell(
        &mut self,
        holds: bool,
        code: Code,
        location: &Location<'_>,
    ) -> Result<(), AllocError>
        ensures { OnOk result (self.new
            ≡ told_after self.old (places_of location.now) (Condition holds code)) }
    {
        if holds {
            return Ok(());
        }
        let path = location.path(self.alloc)?;
        self.add(path, code)
    }

    /// A condition of the member of this name of the value at a location. Fails where there is no
    /// memory.
    pub fn tell_member(
        &mut self,
        holds: bool,
        code: Code,
        name: &'static str,
        location: &Location<'_>,
    ) -> Result<(), AllocError>
        ensures { OnOk result (self.new
            ≡ told_after self.old (places_of location.now)
            (member name.now (Condition holds code))) }
    {
        self.tell(holds, code, &Location::Member(location, name))
    }

    /// All of them.
    pub fn into_found(self) -> Vec<(Path, Code)>
        ensures { result.items ≡ self }
    {
        let Findings { found, .. } = self;
        found
    }
}
