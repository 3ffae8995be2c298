//! The indices in animations (glTF 2.0, section 3.11).
ghost use Rattle.gltf_uses.specs.Animations.{target_uses, channel_uses, animation_sampler_uses};
ghost use Rattle.gltf_uses.specs.Animations.{animation_uses};

use crate::sink::Sink;
use crate::visit::{Visit, member, members};
use gltf_json_animation::animation::{Animation, Channel, Sampler, Target};
use gltf_validation::location::Location;
use std::alloc::AllocError;

impl Visit for Target {
    ghost uses = { λ r. target_uses r };

    fn visit<S: Sink>(&self, location: &Location<'_>, sink: &mut S) -> Result<(), AllocError> {
        member(&self.node, "node", location, sink)
    }
}

impl Visit for Channel {
    ghost uses = { λ r. channel_uses r };

    fn visit<S: Sink>(&self, location: &Location<'_>, sink: &mut S) -> Result<(), AllocError> {
        member(&self.target, "target", location, sink)
    }
}

impl Visit for Sampler {
    ghost uses = { λ r. animation_sampler_uses r };

    fn visit<S: Sink>(&self, location: &Location<'_>, sink: &mut S) -> Result<(), AllocError> {
        members!(self, location, sink; {
            input: "input",
            output: "output",
        })
    }
}

impl Visit for Animation {
    ghost uses = { λ r. animation_uses r };

    fn visit<S: Sink>(&self, location: &Location<'_>, sink: &mut S) -> Result<(), AllocError> {
        members!(self, location, sink; {
            channels: "channels",
            samplers: "samplers",
        })
    }
}
