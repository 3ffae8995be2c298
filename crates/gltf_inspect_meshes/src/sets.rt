//! The sets of attributes (glTF 2.0, section 3.7.2.1).
ghost use Rattle.std.specs.Prelude.{◌≡◌, OnOk, length};
ghost use Rattle.gltf_validation.specs.Locations.{places_of};
ghost use Rattle.gltf_findings.specs.Checks.{told_after};
ghost use Rattle.gltf_inspect_meshes.specs.Sets.{sets, are_consecutive, sets_checks};

use crate::meaning::{COLORS, JOINTS, TEX_COORDS, WEIGHTS, meaning_number, set_number};
use gltf_findings::code::Code;
use gltf_findings::findings::Findings;
use gltf_json_geometry::semantic::Semantic;
use gltf_json_record::index::Index;
use gltf_json_record::kinds;
use gltf_validation::location::Location;
use std::alloc::AllocError;
use std::collections::BTreeMap;

/// Reports what is found in the numbers of the sets.
pub(crate) fn tell_sets(
    attributes: &BTreeMap<Semantic, Index<kinds::Accessor>>,
    location: &Location<'_>,
    findings: &mut Findings,
) -> Result<(), AllocError>
    ensures { OnOk result (findings.new ≡ told_after findings.old (places_of location.now)
        (sets_checks attributes.now.entries)) }
{
    let are_in_order = are_consecutive(COLORS, attributes)
        && are_consecutive(TEX_COORDS, attributes)
        && are_consecutive(JOINTS, attributes)
        && are_consecutive(WEIGHTS, attributes);
    findings.tell(are_in_order, Code::IndexedSemanticContinuity, location)?;
    let are_as_many = set_count(JOINTS, attributes) == set_count(WEIGHTS, attributes);
    findings.tell(are_as_many, Code::JointsWeightsMismatch, location)
}

fn are_consecutive(kind: u8, attributes: &BTreeMap<Semantic, Index<kinds::Accessor>>) -> bool
    ensures { result ≡ are_consecutive kind attributes.now.entries }
{
    let mut next = 0;
    for (semantic, _index) in attributes {
        if meaning_number(semantic) == kind {
            let set = set_number(semantic) as u64;
            if set != next {
                return false;
            }
            next = set + 1;
        }
    }
    true
}

fn set_count(kind: u8, attributes: &BTreeMap<Semantic, Index<kinds::Accessor>>) -> usize
    ensures { result ≡ length (sets kind attributes.now.entries) }
{
    let len = attributes.len();
    let mut count = 0;
    for (semantic, _index) in attributes {
        if meaning_number(semantic) == kind {
            count += 1;
        }
    }
    count
}
