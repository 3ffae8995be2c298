//! Morph targets (glTF 2.0, section 3.7.2.2).
ghost use Rattle.std.specs.Prelude.{◌≡◌, OnOk, length};
ghost use Rattle.gltf_validation.specs.Locations.{places_of};
ghost use Rattle.gltf_findings.specs.Checks.{told_after, optional_checks};
ghost use Rattle.gltf_inspect_meshes.specs.Meanings.{first_of};
ghost use Rattle.gltf_inspect_meshes.specs.Targets.{displaced_checks, displacing_checks};
ghost use Rattle.gltf_inspect_meshes.specs.Targets.{targets_checks};
ghost use Rattle.gltf_inspect_meshes.specs.Targets.{have_targets, target_count};

use crate::meaning::{NORMALS, POSITIONS, TANGENTS, agree, count_of_index, first_of};
use gltf_findings::code::Code;
use gltf_findings::findings::Findings;
use gltf_json_geometry::accessor::Accessor;
use gltf_json_geometry::mesh::{MorphTarget, Primitive};
use gltf_json_record::index::Index;
use gltf_json_record::kinds;
use gltf_validation::location::Location;
use std::alloc::AllocError;

/// Reports what is found in each morph target of a primitive.
pub(crate) fn tell_targets(
    accessors: &[Accessor],
    primitive: &Primitive,
    location: &Location<'_>,
    findings: &mut Findings,
) -> Result<(), AllocError>
    ensures { OnOk result (findings.new ≡ told_after findings.old (places_of location.now)
        (targets_checks accessors.now primitive.now)) }
{
    let positions = first_of(POSITIONS, &primitive.attributes);
    let normals = first_of(NORMALS, &primitive.attributes);
    let tangents = first_of(TANGENTS, &primitive.attributes);
    for (i, target) in primitive.targets.iter().enumerate() {
        let at = Location::Item(&*location, i);
        tell_target(
            accessors, positions, normals, tangents, target, &at, findings,
        )?;
    }
    Ok(())
}

/// The accessors are those that the target displaces.
fn tell_target(
    accessors: &[Accessor],
    positions: Option<usize>,
    normals: Option<usize>,
    tangents: Option<usize>,
    target: &MorphTarget,
    location: &Location<'_>,
    findings: &mut Findings,
) -> Result<(), AllocError>
    ensures { OnOk result (findings.new ≡ told_after findings.old (places_of location.now)
        (displacing_checks accessors.now positions normals tangents target.now)) }
{
    let at = Location::Member(location, "POSITION");
    tell_displaced(accessors, positions, target.positions, &at, findings)?;
    let at = Location::Member(location, "NORMAL");
    tell_displaced(accessors, normals, target.normals, &at, findings)?;
    let at = Location::Member(location, "TANGENT");
    tell_displaced(accessors, tangents, target.tangents, &at, findings)
}

fn tell_displaced(
    accessors: &[Accessor],
    base: Option<usize>,
    index: Option<Index<kinds::Accessor>>,
    location: &Location<'_>,
    findings: &mut Findings,
) -> Result<(), AllocError>
    ensures { OnOk result (findings.new ≡ told_after findings.old (places_of location.now)
        (optional_checks (displaced_checks accessors.now base) index)) }
{
    let Some(index) = index else {
        return Ok(());
    };
    findings.tell(base.is_some(), Code::MorphTargetNoBaseAccessor, location)?;
    match accessors.get(index.value()) {
        None => Ok(()),
        Some(accessor) => {
            let is_equal = agree(count_of_index(accessors, base), accessor.count);
            findings.tell(is_equal, Code::MorphTargetInvalidCount, location)
        }
    }
}

/// Whether each primitive has so many morph targets.
pub(crate) fn have_targets(count: usize, primitives: &[Primitive]) -> bool
    ensures { result ≡ have_targets count primitives.now }
{
    for primitive in primitives {
        if primitive.targets.len() != count {
            return false;
        }
    }
    true
}

/// The number of morph targets of the first primitive, and so of the mesh.
pub fn target_count(primitives: &[Primitive]) -> usize
    ensures { result ≡ target_count primitives.now }
{
    match primitives.first() {
        None => 0,
        Some(primitive) => primitive.targets.len(),
    }
}
