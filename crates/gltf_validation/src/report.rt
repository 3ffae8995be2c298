//! The broken rules that the walk has met.
ghost use Rattle.std.specs.Prelude.{◌≡◌, [], ◌∷◌, ◌++◌, OnOk};
ghost use Rattle.gltf_validation.specs.Locations.{places_of};

use crate::error::Error;
use crate::location::Location;
use gltf_json_record::path::Path;
use std::alloc::{AllocError, Global};
use std::marker::Model;

/// The broken rules that a walk has met so far, in the order of the walk. Contracts see the list of
/// them.
#[derive(Debug, Drop)]
pub struct Report {
    alloc: Global,
    faults: Vec<(Path, Error)>,
}

impl Model for Report {
    ghost use Rattle.std.specs.Prelude.{List};
    ghost use Rattle.gltf_json_record.specs.Place.{Place};
    ghost use Rattle.gltf_validation.specs.declared.error.Error.{Error};

    ghost Value = { List (List Place × Error) };

    ghost view = { λ r. r.faults.items };
}

impl Report {
    /// No broken rule yet. Takes no memory.
    pub fn new(alloc: Global) -> Report
        ensures { result ≡ [] }
    {
        Report {
            alloc,
            faults: Vec::new(alloc),
        }
    }

    /// One more broken rule.
    pub fn add(&mut self, location: &Location<'_>, error: Error) -> Result<(), AllocError>
        ensures { OnOk result (self.new ≡ self.old ++ (places_of location.now, error) ∷ []) }
    {
        let path = location.path(self.alloc)?;
        self.faults.push((path, error))?;
        Ok(())
    }

    /// All of them.
    pub fn into_faults(self) -> Vec<(Path, Error)>
        ensures { result.items ≡ self }
    {
        let Report { faults, .. } = self;
        faults
    }
}
