//! The rules of lights, and of the light at a node (KHR_lights_punctual).
ghost use Rattle.gltf_validation.specs.Lights.{light_rules, node_light_rules};

use crate::counts::Counts;
use crate::location::Location;
use crate::members::{member, needed};
use crate::report::Report;
use crate::validate::Validate;
use gltf_json_record::validation::Checked;
use gltf_json_scene::extensions::scene::KhrLightsPunctual;
use gltf_json_scene::extensions::scene::khr_lights_punctual::{Light, Type};
use std::alloc::AllocError;

impl Validate for Light {
    ghost rules = { λ c r. light_rules c r };

    fn validate(
        &self,
        counts: &Counts,
        location: &Location<'_>,
        report: &mut Report,
    ) -> Result<(), AllocError> {
        member(&self.type_, "type", counts, location, report)?;
        let needs_spot = matches!(self.type_, Checked::Valid(Type::Spot));
        needed(needs_spot, &self.spot, "spot", location, report)
    }
}

impl Validate for KhrLightsPunctual {
    ghost rules = { λ c r. node_light_rules c r };

    fn validate(
        &self,
        counts: &Counts,
        location: &Location<'_>,
        report: &mut Report,
    ) -> Result<(), AllocError> {
        member(&self.light, "light", counts, location, report)
    }
}
