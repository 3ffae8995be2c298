//! Elements of lists that have each number once.
ghost use Rattle.std.specs.Prelude.{◌≡◌, OnOk};
ghost use Rattle.gltf_validation.specs.Locations.{places_of};
ghost use Rattle.gltf_findings.specs.Checks.{told_after};
ghost use Rattle.gltf_inspect_nodes.specs.Graphs.{path_key};

use gltf_findings::code::Code;
use gltf_findings::findings::Findings;
use gltf_json_animation::animation::{Channel, Property};
use gltf_json_record::index::Index;
use gltf_json_record::kinds;
use gltf_json_record::validation::Checked;
use gltf_validation::location::Location;
use std::alloc::AllocError;

/// An element of a list in which no two may have one number.
pub(crate) trait Entry {
    ghost use Rattle.std.specs.Prelude.{ℕ, Bool};
    ghost use Rattle.gltf_findings.specs.Checks.{Checks};

    /// The number.
    ghost key: { Self → ℕ };

    /// What is reported of an element, by whether it is the first with its number.
    ghost told: { Bool → Checks };

    /// The number.
    fn key(&self) -> usize
        ensures { result ≡ key self.now };

    /// Reports that an element is not the first with its number, where it is not.
    fn tell(
        &self,
        is_first: bool,
        location: &Location<'_>,
        findings: &mut Findings,
    ) -> Result<(), AllocError>
        ensures { OnOk result (findings.new
            ≡ told_after findings.old (places_of location.now) (told is_first)) };
}

impl Entry for Index<kinds::Node> {
    ghost use Rattle.gltf_inspect_nodes.specs.Graphs.{node_key, node_told};

    ghost key = { node_key };

    ghost told = { node_told };

    fn key(&self) -> usize {
        self.value()
    }

    fn tell(
        &self,
        is_first: bool,
        location: &Location<'_>,
        findings: &mut Findings,
    ) -> Result<(), AllocError> {
        findings.tell(is_first, Code::DuplicateElements, location)
    }
}

impl Entry for Channel {
    ghost use Rattle.gltf_inspect_nodes.specs.Graphs.{channel_key, channel_told};

    ghost key = { channel_key };

    ghost told = { channel_told };

    fn key(&self) -> usize {
        path_key(self.target.path, self.target.node)
    }

    fn tell(
        &self,
        is_first: bool,
        location: &Location<'_>,
        findings: &mut Findings,
    ) -> Result<(), AllocError> {
        findings.tell_member(is_first, Code::DuplicateTargets, "target", location)
    }
}

fn path_key(path: Checked<Property>, node: Index<kinds::Node>) -> usize
    ensures { result ≡ path_key path node }
{
    let first = 4 * node.value();
    match path {
        Checked::Valid(Property::Translation) => first,
        Checked::Valid(Property::Rotation) => first + 1,
        Checked::Valid(Property::Scale) => first + 2,
        Checked::Valid(Property::MorphTargetWeights) => first + 3,
        Checked::Invalid => usize::MAX,
    }
}
