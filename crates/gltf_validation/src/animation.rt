//! The rules of animations (glTF 2.0, section 3.11).
ghost use Rattle.gltf_validation.specs.Animations.{target_rules, channel_rules};
ghost use Rattle.gltf_validation.specs.Animations.{animation_sampler_rules, animation_rules};

use crate::counts::Counts;
use crate::location::Location;
use crate::members::{member, members};
use crate::report::Report;
use crate::validate::Validate;
use gltf_json_animation::animation::{Animation, Channel, Sampler, Target};
use std::alloc::AllocError;

impl Validate for Target {
    ghost rules = { λ c r. target_rules c r };

    fn validate(
        &self,
        counts: &Counts,
        location: &Location<'_>,
        report: &mut Report,
    ) -> Result<(), AllocError> {
        members!(self, counts, location, report; {
            node: "node",
            path: "path",
        })
    }
}

impl Validate for Channel {
    ghost rules = { λ c r. channel_rules c r };

    fn validate(
        &self,
        counts: &Counts,
        location: &Location<'_>,
        report: &mut Report,
    ) -> Result<(), AllocError> {
        members!(self, counts, location, report; {
            sampler: "sampler",
            target: "target",
        })
    }
}

impl Validate for Sampler {
    ghost rules = { λ c r. animation_sampler_rules c r };

    fn validate(
        &self,
        counts: &Counts,
        location: &Location<'_>,
        report: &mut Report,
    ) -> Result<(), AllocError> {
        members!(self, counts, location, report; {
            input: "input",
            interpolation: "interpolation",
            output: "output",
        })
    }
}

impl Validate for Animation {
    ghost rules = { λ c r. animation_rules c r };

    fn validate(
        &self,
        counts: &Counts,
        location: &Location<'_>,
        report: &mut Report,
    ) -> Result<(), AllocError> {
        let within = Counts {
            animation_samplers: self.samplers.len(),
            ..*counts
        };
        member(&self.channels, "channels", &within, location, report)?;
        member(&self.samplers, "samplers", &within, location, report)
    }
}
