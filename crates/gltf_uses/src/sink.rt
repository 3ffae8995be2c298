//! What a walk over the indices of a document collects.
ghost use Rattle.std.specs.Prelude.{◌≡◌, OnOk};
ghost use Rattle.gltf_validation.specs.Locations.{places_of};
ghost use Rattle.gltf_uses.specs.References.{paths_after, marks_after};

use crate::kind::Kind;
use gltf_json_record::path::Path;
use gltf_validation::location::Location;
use std::alloc::{AllocError, Global};
use std::marker::Model;

/// What takes the members that hold an index, one after the other.
pub(crate) trait Sink {
    ghost use Rattle.std.specs.Prelude.{ℕ, List};
    ghost use Rattle.gltf_json_record.specs.Place.{Place};
    ghost use Rattle.gltf_uses.specs.declared.kind.Kind.{Kind};

    /// What it has once it has taken the member at this path, with this list and index.
    ghost after: { Self → List Place → Kind → ℕ → Self };

    /// Takes one member.
    fn add(&mut self, location: &Location<'_>, kind: Kind, index: usize) -> Result<(), AllocError>
        ensures { OnOk result (self.new ≡ after self.old (places_of location.now) kind index) };
}

/// The paths of the members that hold one index into one list.
#[derive(Drop)]
pub(crate) struct Paths {
    pub(crate) alloc: Global,
    pub(crate) kind: Kind,
    pub(crate) index: usize,
    pub(crate) paths: Vec<Path>,
}

impl Model for Paths {
    ghost use Rattle.gltf_uses.specs.References.{Found};

    ghost Value = { Found };

    ghost view = { λ p. record { kind = p.kind; index = p.index; paths = p.paths.items } };
}

impl Sink for Paths {
    ghost after = { λ p path kind i. paths_after p path kind i };

    fn add(&mut self, location: &Location<'_>, kind: Kind, index: usize) -> Result<(), AllocError> {
        if kind.is(self.kind) && index == self.index {
            self.paths.push(location.path(self.alloc)?)?;
        }
        Ok(())
    }
}

/// Which elements of one list some member names: a mark for each.
#[derive(Drop)]
pub(crate) struct Marks {
    pub(crate) kind: Kind,
    pub(crate) marks: Vec<bool>,
}

impl Model for Marks {
    ghost use Rattle.gltf_uses.specs.References.{Marked};

    ghost Value = { Marked };

    ghost view = { λ m. record { kind = m.kind; marks = m.marks.items } };
}

impl Sink for Marks {
    ghost after = { λ m path kind i. marks_after m path kind i };

    fn add(
        &mut self,
        _location: &Location<'_>,
        kind: Kind,
        index: usize,
    ) -> Result<(), AllocError> {
        if kind.is(self.kind) && index < self.marks.len() {
            self.marks[index] = true;
        }
        Ok(())
    }
}
