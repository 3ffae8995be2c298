//! The rules of cameras (glTF 2.0, section 3.10).
ghost use Rattle.gltf_validation.specs.Cameras.{camera_rules};

use crate::counts::Counts;
use crate::location::Location;
use crate::members::{member, needed};
use crate::report::Report;
use crate::validate::Validate;
use gltf_json_record::validation::Checked;
use gltf_json_scene::camera::{Camera, Type};
use std::alloc::AllocError;

impl Validate for Camera {
    ghost rules = { λ c r. camera_rules c r };

    fn validate(
        &self,
        counts: &Counts,
        location: &Location<'_>,
        report: &mut Report,
    ) -> Result<(), AllocError> {
        member(&self.type_, "type", counts, location, report)?;
        let needs_orthographic = matches!(self.type_, Checked::Valid(Type::Orthographic));
        needed(
            needs_orthographic,
            &self.orthographic,
            "orthographic",
            location,
            report,
        )?;
        let needs_perspective = matches!(self.type_, Checked::Valid(Type::Perspective));
        needed(
            needs_perspective,
            &self.perspective,
            "perspective",
            location,
            report,
        )
    }
}
