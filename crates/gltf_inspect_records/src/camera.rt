//! Cameras: their projections, clipping planes and ranges (glTF 2.0, sections 5.12 to 5.14).
ghost use Rattle.std.specs.Prelude.{◌≡◌, OnOk};
ghost use Rattle.gltf_validation.specs.Locations.{places_of};
ghost use Rattle.gltf_findings.specs.Checks.{told_after, optional_checks};
ghost use Rattle.gltf_inspect_records.specs.Cameras.{camera_checks, is_farther};
ghost use Rattle.gltf_inspect_records.specs.Cameras.{orthographic_checks, perspective_checks};

use crate::list::Inspect;
use crate::number::{is_not_negative, is_positive, number_of};
use gltf_findings::code::Code;
use gltf_findings::findings::Findings;
use gltf_json::root::Root;
use gltf_json_scene::camera::{Camera, Orthographic, Perspective};
use gltf_validation::location::Location;
use std::alloc::AllocError;

impl Inspect for Camera {
    ghost checks = { λ _ c. camera_checks c };

    fn inspect(
        &self,
        _root: &Root,
        location: &Location<'_>,
        findings: &mut Findings,
    ) -> Result<(), AllocError> {
        let is_one = self.orthographic.is_none() || self.perspective.is_none();
        findings.tell(is_one, Code::OneOfMismatch, location)?;
        tell_orthographic(self, &Location::Member(location, "orthographic"), findings)?;
        tell_perspective(self, &Location::Member(location, "perspective"), findings)
    }
}

fn tell_orthographic(
    camera: &Camera,
    location: &Location<'_>,
    findings: &mut Findings,
) -> Result<(), AllocError>
    ensures { OnOk result (findings.new ≡ told_after findings.old (places_of location.now)
        (optional_checks orthographic_checks camera.now.orthographic)) }
{
    match &camera.orthographic {
        None => Ok(()),
        Some(it) => tell_box(it, location, findings),
    }
}

fn tell_box(
    camera: &Orthographic,
    location: &Location<'_>,
    findings: &mut Findings,
) -> Result<(), AllocError>
    ensures { OnOk result (findings.new ≡ told_after findings.old (places_of location.now)
        (orthographic_checks camera.now)) }
{
    let (far, near) = (number_of(&camera.zfar), number_of(&camera.znear));
    let is_in_order = is_farther(far, near);
    findings.tell(is_in_order, Code::CameraZfarLequalZnear, location)?;
    findings.tell_member(is_positive(far), Code::ValueNotInRange, "zfar", location)?;
    findings.tell_member(
        is_not_negative(near),
        Code::ValueNotInRange,
        "znear",
        location,
    )
}

fn tell_perspective(
    camera: &Camera,
    location: &Location<'_>,
    findings: &mut Findings,
) -> Result<(), AllocError>
    ensures { OnOk result (findings.new ≡ told_after findings.old (places_of location.now)
        (optional_checks perspective_checks camera.now.perspective)) }
{
    match &camera.perspective {
        None => Ok(()),
        Some(it) => tell_lens(it, location, findings),
    }
}

fn tell_lens(
    camera: &Perspective,
    location: &Location<'_>,
    findings: &mut Findings,
) -> Result<(), AllocError>
    ensures { OnOk result (findings.new ≡ told_after findings.old (places_of location.now)
        (perspective_checks camera.now)) }
{
    let (far, near) = (number_of(&camera.zfar), number_of(&camera.znear));
    let is_in_order = is_farther(far, near);
    findings.tell(is_in_order, Code::CameraZfarLequalZnear, location)?;
    let ratio = is_positive(number_of(&camera.aspect_ratio));
    findings.tell_member(ratio, Code::ValueNotInRange, "aspectRatio", location)?;
    let angle = is_positive(number_of(&camera.yfov));
    findings.tell_member(angle, Code::ValueNotInRange, "yfov", location)?;
    findings.tell_member(is_positive(far), Code::ValueNotInRange, "zfar", location)?;
    findings.tell_member(is_positive(near), Code::ValueNotInRange, "znear", location)
}

fn is_farther(far: Option<f64>, near: Option<f64>) -> bool
    ensures { result ≡ is_farther far near }
{
    match (far, near) {
        (Some(far), Some(near)) => !(far <= near),
        _ => true,
    }
}
