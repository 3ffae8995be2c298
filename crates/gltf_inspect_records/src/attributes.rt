//! The attributes of a primitive (glTF 2.0, section 3.7.2.1).
ghost use Rattle.std.specs.Prelude.{◌≡◌, OnOk};
ghost use Rattle.gltf_validation.specs.Locations.{places_of};
ghost use Rattle.gltf_findings.specs.Checks.{told_after};
ghost use Rattle.gltf_inspect_meshes.specs.Facts.{is_bounded};
ghost use Rattle.gltf_inspect_records.specs.Attributes.{vertex_count, attribute_checks};
ghost use Rattle.gltf_inspect_records.specs.Attributes.{attributes_checks};

use gltf_findings::code::Code;
use gltf_findings::findings::Findings;
use gltf_inspect_meshes::meaning::{
    NORMALS, POSITIONS, TANGENTS, agree, count_at, first_of, meaning_number,
};
use gltf_json_geometry::accessor::Accessor;
use gltf_json_geometry::semantic::Semantic;
use gltf_json_record::index::Index;
use gltf_json_record::kinds;
use gltf_validation::location::Location;
use std::alloc::AllocError;
use std::collections::BTreeMap;

fn vertex_count(
    accessors: &[Accessor],
    attributes: &BTreeMap<Semantic, Index<kinds::Accessor>>,
) -> Option<u64>
    ensures { result ≡ vertex_count accessors.now attributes.now.entries }
{
    match first_of(POSITIONS, attributes) {
        Some(index) => count_at(accessors, index),
        None => {
            let (_semantic, index) = attributes.iter().next()?;
            count_at(accessors, index.value())
        }
    }
}

/// Whether an accessor states its least and greatest values.
pub(crate) fn is_bounded(accessor: &Accessor) -> bool
    ensures { result ≡ is_bounded accessor.now }
{
    accessor.min.is_some() && accessor.max.is_some()
}

/// Reports what is found in each attribute, in the order of their meanings.
pub(crate) fn tell_attributes(
    accessors: &[Accessor],
    attributes: &BTreeMap<Semantic, Index<kinds::Accessor>>,
    location: &Location<'_>,
    findings: &mut Findings,
) -> Result<(), AllocError>
    ensures { OnOk result (findings.new ≡ told_after findings.old (places_of location.now)
        (attributes_checks accessors.now attributes.now.entries)) }
{
    let vertices = vertex_count(accessors, attributes);
    let has_normals = first_of(NORMALS, attributes).is_some();
    for (semantic, index) in attributes {
        let at = Location::Attribute(&*location, semantic);
        let is_of_use = meaning_number(semantic) != TANGENTS || has_normals;
        findings.tell(is_of_use, Code::TangentWithoutNormal, &at)?;
        if let Some(accessor) = accessors.get(index.value()) {
            tell_attribute(vertices, semantic, accessor, &at, findings)?;
        }
    }
    Ok(())
}

fn tell_attribute(
    vertices: Option<u64>,
    semantic: &Semantic,
    accessor: &Accessor,
    location: &Location<'_>,
    findings: &mut Findings,
) -> Result<(), AllocError>
    ensures { OnOk result (findings.new ≡ told_after findings.old (places_of location.now)
        (attribute_checks vertices semantic.now accessor.now)) }
{
    let is_equal = agree(vertices, accessor.count);
    findings.tell(is_equal, Code::UnequalAccessorCount, location)?;
    let is_in_order = meaning_number(semantic) != POSITIONS || is_bounded(accessor);
    findings.tell(is_in_order, Code::PositionWithoutBounds, location)
}
