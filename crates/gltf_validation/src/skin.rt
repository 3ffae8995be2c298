//! The rules of skins (glTF 2.0, section 3.7.3).
ghost use Rattle.gltf_validation.specs.Skins.{skin_rules};

use crate::counts::Counts;
use crate::location::Location;
use crate::members::members;
use crate::report::Report;
use crate::validate::Validate;
use gltf_json_scene::skin::Skin;
use std::alloc::AllocError;

impl Validate for Skin {
    ghost rules = { λ c r. skin_rules c r };

    fn validate(
        &self,
        counts: &Counts,
        location: &Location<'_>,
        report: &mut Report,
    ) -> Result<(), AllocError> {
        members!(self, counts, location, report; {
            inverse_bind_matrices: "inverseBindMatrices",
            joints: "joints",
            skeleton: "skeleton",
        })
    }
}
