//! The rules of meshes, their primitives and morph targets (glTF 2.0, section 3.7).
ghost use Rattle.std.specs.Prelude.{◌≡◌, OnOk};
ghost use Rattle.gltf_validation.specs.Locations.{places_of};
ghost use Rattle.gltf_validation.specs.Rules.{report_after};
ghost use Rattle.gltf_validation.specs.Meshes.{morph_target_rules, entries_rules, unknown_rules};
ghost use Rattle.gltf_validation.specs.Meshes.{primitive_rules, mesh_rules};

use crate::counts::Counts;
use crate::error::Error;
use crate::location::Location;
use crate::members::{member, members};
use crate::report::Report;
use crate::validate::Validate;
use gltf_json_geometry::mesh::{Mesh, MorphTarget, Primitive};
use gltf_json_geometry::semantic::Semantic;
use std::alloc::AllocError;
use std::collections::BTreeMap;

impl Validate for MorphTarget {
    ghost rules = { λ c r. morph_target_rules c r };

    fn validate(
        &self,
        counts: &Counts,
        location: &Location<'_>,
        report: &mut Report,
    ) -> Result<(), AllocError> {
        members!(self, counts, location, report; {
            positions: "POSITION",
            normals: "NORMAL",
            tangents: "TANGENT",
        })
    }
}

impl Validate for Primitive {
    ghost rules = { λ c r. primitive_rules c r };

    fn validate(
        &self,
        counts: &Counts,
        location: &Location<'_>,
        report: &mut Report,
    ) -> Result<(), AllocError> {
        let attributes = Location::Member(location, "attributes");
        validate_attributes(&self.attributes, counts, &attributes, report)?;
        validate_unknown(&self.unknown_attributes, &attributes, report)?;
        members!(self, counts, location, report; {
            indices: "indices",
            material: "material",
            mode: "mode",
            targets: "targets",
        })
    }
}

impl Validate for Mesh {
    ghost rules = { λ c r. mesh_rules c r };

    fn validate(
        &self,
        counts: &Counts,
        location: &Location<'_>,
        report: &mut Report,
    ) -> Result<(), AllocError> {
        member(&self.primitives, "primitives", counts, location, report)
    }
}

/// Reports the broken rules of the attributes that have a meaning, in the order of their meanings.
fn validate_attributes<T: Validate>(
    attributes: &BTreeMap<Semantic, T>,
    counts: &Counts,
    location: &Location<'_>,
    report: &mut Report,
) -> Result<(), AllocError>
    ensures { OnOk result (report.new ≡ report_after report.old (places_of location.now)
        (entries_rules (T.rules counts.now) attributes.now.entries)) }
{
    for (semantic, value) in attributes {
        value.validate(counts, &Location::Attribute(&*location, semantic), report)?;
    }
    Ok(())
}

/// Reports each attribute that has no meaning: none of them is valid.
fn validate_unknown(
    names: &[String],
    location: &Location<'_>,
    report: &mut Report,
) -> Result<(), AllocError>
    ensures { OnOk result (report.new ≡ report_after report.old (places_of location.now)
        (unknown_rules names.now)) }
{
    for name in names {
        report.add(
            &Location::UnknownAttribute(&*location, name.as_str()),
            Error::Invalid,
        )?;
    }
    Ok(())
}
