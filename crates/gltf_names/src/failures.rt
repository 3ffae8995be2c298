//! The names whose reads failed. They exist only in contracts, and take no bytes.
ghost use Rattle.std.specs.Prelude.{◌≡◌, [], ◌∷◌, List};
ghost use Rattle.std.specs.Borrow.{ftrue};
ghost use Rattle.gltf_names.specs.Named.{Named, named, coded_names};

use crate::name::Name;
use std::marker::Model;

#[derive(Drop)]
pub(crate) struct Failures {
    ghost names: { List Named } by { coded_names },
}

impl Model for Failures {
    ghost also_owns = { λ _. ftrue };
}

impl Failures {
    /// No name.
    pub(crate) fn new() -> Failures
        ensures { result.names ≡ [] }
    {
        Failures {}
    }

    /// These names, and this one before them.
    pub(crate) fn and(&self, _name: &Name<'_>) -> Failures
        ensures { result.names ≡ named _name.now ∷ self.now.names }
    {
        Failures {}
    }
}
