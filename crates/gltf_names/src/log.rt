//! The names whose reads failed, and the text of the last of them.
ghost use Rattle.std.specs.Prelude.{◌≡◌, [], ◌∷◌, IfSome, Some};
ghost use Rattle.std.proofs.Props.{props};
ghost use Rattle.gltf_names.specs.Named.{named, text_of_last, IsTextOfLast};

use crate::failures::Failures;
use crate::name::Name;
use std::alloc::Global;

#[derive(Drop)]
pub(crate) struct Log {
    failures: Failures,
    last: Option<String>,
    ghost is_last: { IsTextOfLast failures.names last } by { Prim.hlevel props },
}

impl Log {
    /// No name.
    pub(crate) fn new() -> Log
        ensures { result.failures.names ≡ [] }
    {
        Log {
            failures: Failures::new(),
            last: None,
        }
    }

    /// Notes one more name. Its text is kept where there is memory for it.
    pub(crate) fn note(&mut self, alloc: Global, name: &Name<'_>)
        ensures { self.new.failures.names ≡ named name.now ∷ self.old.failures.names }
    {
        *self = Log {
            failures: self.failures.and(name),
            last: String::from_str(alloc, name.text()).ok(),
        };
    }

    /// The text of the name that failed last, where one did and it was kept.
    pub(crate) fn last(&self) -> Option<&str>
        ensures { IfSome result
            (λ text. text_of_last self.now.failures.names ≡ Some text.now) }
    {
        match &self.last {
            Some(text) => Some(text.as_str()),
            None => None,
        }
    }
}
