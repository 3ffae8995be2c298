//! Animations and what they animate (glTF 2.0, section 3.11).
ghost use Rattle.std.specs.Prelude.{◌≡◌, OnOk, slice_get};
ghost use Rattle.gltf_validation.specs.Locations.{places_of};
ghost use Rattle.gltf_findings.specs.Checks.{told_after, optional_checks, member};
ghost use Rattle.gltf_inspect_scenes.specs.Animations.{channel_checks, animation_checks};
ghost use Rattle.gltf_inspect_scenes.specs.Animations.{count_checks, output_checks};
ghost use Rattle.gltf_inspect_scenes.specs.Animations.{sampler_checks, outputs_checks};
ghost use Rattle.gltf_inspect_scenes.specs.Animations.{channel_output_checks};
ghost use Rattle.gltf_inspect_scenes.specs.Outputs.{items_of_value};

use crate::list::{Inspect, inspect_each};
pub use crate::output::{is_spline, is_weights};
use crate::output::{are_some, fits_path, is_product, node_morphs, values_at_time};
use gltf_findings::code::Code;
use gltf_findings::findings::Findings;
use gltf_json::root::Root;
use gltf_json_animation::animation::{Animation, Channel, Sampler, Target};
use gltf_json_geometry::accessor::Accessor;
use gltf_validation::location::Location;
use std::alloc::AllocError;

impl Inspect for Animation {
    ghost checks = { λ r a. animation_checks r a };

    fn inspect(
        &self,
        root: &Root,
        location: &Location<'_>,
        findings: &mut Findings,
    ) -> Result<(), AllocError> {
        let at = Location::Member(location, "channels");
        inspect_each(self.channels.as_slice(), root, &at, findings)?;
        let at = Location::Member(location, "samplers");
        tell_outputs(
            root,
            self.samplers.as_slice(),
            self.channels.as_slice(),
            &at,
            findings,
        )
    }
}

impl Inspect for Channel {
    ghost checks = { λ r c. channel_checks r c };

    fn inspect(
        &self,
        root: &Root,
        location: &Location<'_>,
        findings: &mut Findings,
    ) -> Result<(), AllocError> {
        let Some(node) = root.nodes.as_slice().get(self.target.node.value()) else {
            return Ok(());
        };
        let is_allowed = !is_weights(self.target.path) || are_some(node_morphs(root, node));
        let target = Location::Member(location, "target");
        findings.tell_member(is_allowed, Code::ChannelTargetNoMorphs, "path", &target)
    }
}

fn tell_outputs(
    root: &Root,
    samplers: &[Sampler],
    channels: &[Channel],
    location: &Location<'_>,
    findings: &mut Findings,
) -> Result<(), AllocError>
    ensures { OnOk result (findings.new ≡ told_after findings.old (places_of location.now)
        (outputs_checks root.now samplers.now channels.now)) }
{
    for channel in channels {
        tell_channel_output(root, samplers, channel, location, findings)?;
    }
    Ok(())
}

fn tell_channel_output(
    root: &Root,
    samplers: &[Sampler],
    channel: &Channel,
    location: &Location<'_>,
    findings: &mut Findings,
) -> Result<(), AllocError>
    ensures { OnOk result (findings.new ≡ told_after findings.old (places_of location.now)
        (channel_output_checks root.now samplers.now channel.now)) }
{
    let index = channel.sampler.value();
    match samplers.get(index) {
        None => Ok(()),
        Some(sampler) => {
            let at = Location::Item(location, index);
            tell_sampler(root, channel, sampler, &at, findings)
        }
    }
}

fn tell_sampler(
    root: &Root,
    channel: &Channel,
    sampler: &Sampler,
    location: &Location<'_>,
    findings: &mut Findings,
) -> Result<(), AllocError>
    ensures { OnOk result (findings.new ≡ told_after findings.old (places_of location.now)
        (sampler_checks root.now channel.now sampler.now)) }
{
    match root.accessors.as_slice().get(sampler.output.value()) {
        None => Ok(()),
        Some(output) => {
            let at = Location::Member(location, "output");
            tell_output(root, channel, sampler, output, &at, findings)
        }
    }
}

fn tell_output(
    root: &Root,
    channel: &Channel,
    sampler: &Sampler,
    output: &Accessor,
    location: &Location<'_>,
    findings: &mut Findings,
) -> Result<(), AllocError>
    ensures { OnOk result (findings.new ≡ told_after findings.old (places_of location.now)
        (output_checks root.now channel.now sampler.now output.now)) }
{
    let fits = fits_path(channel.target.path, output);
    findings.tell(fits, Code::OutputInvalidFormat, location)?;
    match root.accessors.as_slice().get(sampler.input.value()) {
        None => Ok(()),
        Some(input) => tell_count(root, channel, sampler, output, input, location, findings),
    }
}

fn tell_count(
    root: &Root,
    channel: &Channel,
    sampler: &Sampler,
    output: &Accessor,
    input: &Accessor,
    location: &Location<'_>,
    findings: &mut Findings,
) -> Result<(), AllocError>
    ensures { OnOk result (findings.new ≡ told_after findings.old (places_of location.now)
        (count_checks root.now channel.now sampler.now output.now input.now)) }
{
    let Some(items) = items_of_value(root, &channel.target) else {
        return Ok(());
    };
    let values = values_at_time(sampler.interpolation);
    let fits = is_product(output.count, input.count, values, items as u64);
    findings.tell(fits, Code::OutputInvalidCount, location)
}

/// The items of a value; `None` where weights are animated, and the node or its mesh is not there.
fn items_of_value(root: &Root, target: &Target) -> Option<usize>
    ensures { result ≡ items_of_value root.now target.now.path
        (slice_get root.now.nodes.items target.now.node) }
{
    if !is_weights(target.path) {
        return Some(1);
    }
    match root.nodes.as_slice().get(target.node.value()) {
        None => None,
        Some(node) => node_morphs(root, node),
    }
}
