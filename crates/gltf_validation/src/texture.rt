//! The rules of textures, their samplers and their uses (glTF 2.0, section 3.8).
ghost use Rattle.gltf_validation.specs.Textures.{sampler_rules, texture_rules, info_rules};

use crate::counts::Counts;
use crate::location::Location;
use crate::members::{member, members};
use crate::report::Report;
use crate::validate::Validate;
use gltf_json_material::texture::Info;
use gltf_json_scene::texture::{Sampler, Texture};
use std::alloc::AllocError;

impl Validate for Sampler {
    ghost rules = { λ c r. sampler_rules c r };

    fn validate(
        &self,
        counts: &Counts,
        location: &Location<'_>,
        report: &mut Report,
    ) -> Result<(), AllocError> {
        members!(self, counts, location, report; {
            mag_filter: "magFilter",
            min_filter: "minFilter",
            wrap_s: "wrapS",
            wrap_t: "wrapT",
        })
    }
}

impl Validate for Texture {
    ghost rules = { λ c r. texture_rules c r };

    fn validate(
        &self,
        counts: &Counts,
        location: &Location<'_>,
        report: &mut Report,
    ) -> Result<(), AllocError> {
        members!(self, counts, location, report; {
            sampler: "sampler",
            source: "source",
        })
    }
}

impl Validate for Info {
    ghost rules = { λ c r. info_rules c r };

    fn validate(
        &self,
        counts: &Counts,
        location: &Location<'_>,
        report: &mut Report,
    ) -> Result<(), AllocError> {
        member(&self.index, "index", counts, location, report)
    }
}
