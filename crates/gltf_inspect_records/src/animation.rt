//! Animations (glTF 2.0, section 3.11).
ghost use Rattle.std.specs.Prelude.{◌≡◌, OnOk};
ghost use Rattle.gltf_validation.specs.Locations.{places_of};
ghost use Rattle.gltf_findings.specs.Checks.{told_after};
ghost use Rattle.gltf_inspect_records.specs.Animations.{channel_checks};
ghost use Rattle.gltf_inspect_records.specs.Animations.{input_checks, sampler_checks, animation_checks};

use crate::attributes::is_bounded;
use crate::list::{Inspect, inspect_each};
use crate::mesh::is_scalar;
use crate::scene::is_float;
use gltf_findings::code::Code;
use gltf_findings::findings::Findings;
use gltf_inspect_scenes::animation::{is_spline, is_weights};
use gltf_json::root::Root;
use gltf_json_animation::animation::{Animation, Channel, Interpolation, Sampler};
use gltf_json_geometry::accessor::Accessor;
use gltf_json_record::validation::Checked;
use gltf_validation::location::Location;
use std::alloc::AllocError;

impl Inspect for Animation {
    ghost checks = { λ r a. animation_checks r a };

    fn inspect(
        &self,
        root: &Root,
        location: &Location<'_>,
        findings: &mut Findings,
    ) -> Result<(), AllocError> {
        let at = Location::Member(location, "channels");
        findings.tell(!self.channels.is_empty(), Code::EmptyEntity, &at)?;
        inspect_each(self.channels.as_slice(), root, &at, findings)?;
        let at = Location::Member(location, "samplers");
        findings.tell(!self.samplers.is_empty(), Code::EmptyEntity, &at)?;
        inspect_each(self.samplers.as_slice(), root, &at, findings)
    }
}

impl Inspect for Channel {
    ghost checks = { λ r c. channel_checks r c };

    fn inspect(
        &self,
        root: &Root,
        location: &Location<'_>,
        findings: &mut Findings,
    ) -> Result<(), AllocError> {
        let Some(node) = root.nodes.as_slice().get(self.target.node.value()) else {
            return Ok(());
        };
        let is_allowed = is_weights(self.target.path) || node.matrix.is_none();
        let target = Location::Member(location, "target");
        findings.tell_member(is_allowed, Code::ChannelTargetMatrix, "path", &target)
    }
}

impl Inspect for Sampler {
    ghost checks = { λ r s. sampler_checks r s };

    fn inspect(
        &self,
        root: &Root,
        location: &Location<'_>,
        findings: &mut Findings,
    ) -> Result<(), AllocError> {
        match root.accessors.as_slice().get(self.input.value()) {
            None => Ok(()),
            Some(accessor) => {
                let at = Location::Member(location, "input");
                tell_input(self.interpolation, accessor, &at, findings)
            }
        }
    }
}

fn tell_input(
    interpolation: Checked<Interpolation>,
    accessor: &Accessor,
    location: &Location<'_>,
    findings: &mut Findings,
) -> Result<(), AllocError>
    ensures { OnOk result (findings.new ≡ told_after findings.old (places_of location.now)
        (input_checks interpolation accessor.now)) }
{
    let is_format = is_float(accessor.component_type) && is_scalar(accessor.type_);
    findings.tell(is_format, Code::InputInvalidFormat, location)?;
    findings.tell(is_bounded(accessor), Code::InputWithoutBounds, location)?;
    let is_enough = !is_spline(interpolation) || 2 <= accessor.count;
    findings.tell(is_enough, Code::InputTooFewElements, location)
}
