//! Materials (glTF 2.0, sections 3.9, 5.19, 5.21 and 5.22).
ghost use Rattle.std.specs.Prelude.{◌≡◌, OnOk};
ghost use Rattle.std.specs.Option.{option_copied};
ghost use Rattle.serde_json.specs.View.{items_view};
ghost use Rattle.gltf_validation.specs.Locations.{places_of};
ghost use Rattle.gltf_findings.specs.Checks.{told_after, optional_checks};
ghost use Rattle.gltf_inspect_records.specs.Materials.{is_mask, material_checks, all_fractions};
ghost use Rattle.gltf_inspect_records.specs.Materials.{are_fractions, metallic_checks};
ghost use Rattle.gltf_inspect_records.specs.Materials.{occlusion_checks};

use crate::list::Inspect;
use crate::number::{is_fraction, is_not_negative, number_of};
use gltf_findings::code::Code;
use gltf_findings::findings::Findings;
use gltf_json::boxed::lent;
use gltf_json::root::Root;
use gltf_json_material::material::{AlphaMode, Material, OcclusionTexture, PbrMetallicRoughness};
use gltf_json_record::validation::Checked;
use gltf_validation::location::Location;
use serde_json::Value;
use std::alloc::AllocError;

impl Inspect for Material {
    ghost checks = { λ _ m. material_checks m };

    fn inspect(
        &self,
        _root: &Root,
        location: &Location<'_>,
        findings: &mut Findings,
    ) -> Result<(), AllocError> {
        let cutoff = Location::Member(location, "alphaCutoff");
        let is_allowed = self.alpha_cutoff.is_none() || is_mask(self.alpha_mode);
        findings.tell(is_allowed, Code::AlphaCutoffInvalidMode, &cutoff)?;
        let is_in_range = is_not_negative(number_of(&self.alpha_cutoff));
        findings.tell(is_in_range, Code::ValueNotInRange, &cutoff)?;
        let at = Location::Member(location, "pbrMetallicRoughness");
        tell_metallic(lent(&self.pbr_metallic_roughness), &at, findings)?;
        let at = Location::Member(location, "occlusionTexture");
        tell_occlusion(lent(&self.occlusion_texture), &at, findings)?;
        let are_in_range = are_fractions(&self.emissive_factor);
        findings.tell_member(
            are_in_range,
            Code::ValueNotInRange,
            "emissiveFactor",
            location,
        )
    }
}

fn is_mask(mode: Checked<AlphaMode>) -> bool
    ensures { result ≡ is_mask mode }
{
    matches!(mode, Checked::Valid(AlphaMode::Mask))
}

fn tell_metallic(
    model: Option<&PbrMetallicRoughness>,
    location: &Location<'_>,
    findings: &mut Findings,
) -> Result<(), AllocError>
    ensures { OnOk result (findings.new ≡ told_after findings.old (places_of location.now)
        (optional_checks metallic_checks (option_copied model.entry))) }
{
    let Some(model) = model else {
        return Ok(());
    };
    let are_in_range = are_fractions(&model.base_color_factor);
    findings.tell_member(
        are_in_range,
        Code::ValueNotInRange,
        "baseColorFactor",
        location,
    )?;
    let is_in_range = is_fraction(number_of(&model.metallic_factor));
    findings.tell_member(
        is_in_range,
        Code::ValueNotInRange,
        "metallicFactor",
        location,
    )?;
    let is_in_range = is_fraction(number_of(&model.roughness_factor));
    findings.tell_member(
        is_in_range,
        Code::ValueNotInRange,
        "roughnessFactor",
        location,
    )
}

fn tell_occlusion(
    texture: Option<&OcclusionTexture>,
    location: &Location<'_>,
    findings: &mut Findings,
) -> Result<(), AllocError>
    ensures { OnOk result (findings.new ≡ told_after findings.old (places_of location.now)
        (optional_checks occlusion_checks (option_copied texture.entry))) }
{
    let Some(texture) = texture else {
        return Ok(());
    };
    let is_in_range = is_fraction(number_of(&texture.strength));
    findings.tell_member(is_in_range, Code::ValueNotInRange, "strength", location)
}

/// Whether each number of a list is from 0 to 1. What is no list is not asked.
fn are_fractions(member: &Option<Value>) -> bool
    ensures { result ≡ are_fractions member.now }
{
    match member {
        None => true,
        Some(value) => match value.as_array() {
            None => true,
            Some(values) => all_fractions(values.as_slice()),
        },
    }
}

fn all_fractions(values: &[Value]) -> bool
    ensures { result ≡ all_fractions (items_view values.now) }
{
    for value in values {
        if !is_fraction(value.as_f64()) {
            return false;
        }
    }
    true
}
