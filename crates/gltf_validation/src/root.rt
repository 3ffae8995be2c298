//! The rules of the whole document (glTF 2.0, section 5.17).
ghost use Rattle.std.specs.Prelude.{◌≡◌, length, OnOk};
ghost use Rattle.gltf_json_record.specs.Member.{is_one_of};
ghost use Rattle.gltf_validation.specs.Locations.{places_of};
ghost use Rattle.gltf_validation.specs.Rules.{report_after};
ghost use Rattle.gltf_validation.specs.Documents.{counts_of, supported_extensions, required_rules};
ghost use Rattle.gltf_validation.specs.Documents.{root_lights_rules};
ghost use Rattle.gltf_validation.specs.Lights.{lights_of};
ghost use Rattle.gltf_validation.specs.Documents.{first_members_rules, later_members_rules};
ghost use Rattle.gltf_validation.specs.Documents.{root_extensions_rules, root_rules};

use crate::counts::Counts;
use crate::error::Error;
use crate::location::Location;
use crate::members::{member, members};
use crate::report::Report;
use crate::validate::Validate;
use gltf_json::extensions::root as extended;
use gltf_json::root::Root;
use std::alloc::AllocError;

impl Counts {
    /// The lengths of the lists of a document.
    pub fn of(root: &Root) -> Counts
        ensures { result ≡ counts_of root.now }
    {
        Counts {
            accessors: root.accessors.len(),
            animation_samplers: 0,
            buffers: root.buffers.len(),
            cameras: root.cameras.len(),
            images: root.images.len(),
            lights: light_count(root),
            materials: root.materials.len(),
            meshes: root.meshes.len(),
            nodes: root.nodes.len(),
            samplers: root.samplers.len(),
            scenes: root.scenes.len(),
            skins: root.skins.len(),
            textures: root.textures.len(),
            views: root.buffer_views.len(),
        }
    }
}

fn light_count(root: &Root) -> usize
    ensures { result ≡ length (lights_of root.now.extensions) }
{
    match &root.extensions {
        Some(extensions) => match &extensions.khr_lights_punctual {
            Some(extension) => extension.lights.len(),
            None => 0,
        },
        None => 0,
    }
}

impl Validate for extended::KhrLightsPunctual {
    ghost rules = { λ c r. root_lights_rules c r };

    fn validate(
        &self,
        counts: &Counts,
        location: &Location<'_>,
        report: &mut Report,
    ) -> Result<(), AllocError> {
        member(&self.lights, "lights", counts, location, report)
    }
}

impl Validate for extended::Root {
    ghost rules = { λ c r. root_extensions_rules c r };

    fn validate(
        &self,
        counts: &Counts,
        location: &Location<'_>,
        report: &mut Report,
    ) -> Result<(), AllocError> {
        members!(self, counts, location, report; {
            khr_lights_punctual: "KHR_lights_punctual",
        })
    }
}

impl Validate for Root {
    ghost rules = { λ c r. root_rules c r };

    fn validate(
        &self,
        counts: &Counts,
        location: &Location<'_>,
        report: &mut Report,
    ) -> Result<(), AllocError> {
        first_members(self, counts, location, report)?;
        later_members(self, counts, location, report)
    }
}

fn first_members(
    root: &Root,
    counts: &Counts,
    location: &Location<'_>,
    report: &mut Report,
) -> Result<(), AllocError>
    ensures { OnOk result (report.new ≡ report_after report.old (places_of location.now)
        (first_members_rules counts.now root.now)) }
{
    members!(root, counts, location, report; {
        accessors: "accessors",
        animations: "animations",
        buffers: "buffers",
        buffer_views: "bufferViews",
        cameras: "cameras",
        images: "images",
        materials: "materials",
        meshes: "meshes",
        nodes: "nodes",
        samplers: "samplers",
    })
}

fn later_members(
    root: &Root,
    counts: &Counts,
    location: &Location<'_>,
    report: &mut Report,
) -> Result<(), AllocError>
    ensures { OnOk result (report.new ≡ report_after report.old (places_of location.now)
        (later_members_rules counts.now root.now)) }
{
    members!(root, counts, location, report; {
        scene: "scene",
        scenes: "scenes",
        skins: "skins",
        textures: "textures",
    })?;
    let required = Location::Member(location, "extensionsRequired");
    validate_required(&root.extensions_required, &required, report)?;
    member(&root.extensions, "extensions", counts, location, report)
}

/// Whether the extension is supported.
pub fn is_supported(name: &str) -> bool
    ensures { result ≡ is_one_of supported_extensions name.now }
{
    match name {
        "KHR_lights_punctual"
        | "KHR_materials_variants"
        | "KHR_texture_transform"
        | "KHR_materials_pbrSpecularGlossiness"
        | "KHR_materials_unlit"
        | "KHR_materials_transmission"
        | "KHR_materials_ior"
        | "KHR_materials_emissive_strength"
        | "KHR_materials_volume"
        | "KHR_materials_specular" => true,
        _ => false,
    }
}

/// Each extension that a reader has to know is supported.
fn validate_required(
    names: &[String],
    location: &Location<'_>,
    report: &mut Report,
) -> Result<(), AllocError>
    ensures { OnOk result (report.new ≡ report_after report.old (places_of location.now)
        (required_rules names.now)) }
{
    for (i, name) in names.iter().enumerate() {
        if !is_supported(name) {
            report.add(&Location::Item(&*location, i), Error::Unsupported)?;
        }
    }
    Ok(())
}
