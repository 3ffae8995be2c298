//! Materials, and the textures that they use.
ghost use Rattle.std.specs.Prelude.{◌≡◌, OnOk};
ghost use Rattle.gltf_validation.specs.Locations.{places_of};
ghost use Rattle.gltf_inspect_meshes.specs.Names.{has_name};
ghost use Rattle.gltf_findings.specs.Checks.{told_after};
ghost use Rattle.gltf_inspect_extensions.specs.Materials.{info_checks, info_extensions_checks};
ghost use Rattle.gltf_inspect_extensions.specs.Materials.{normal_checks, occlusion_checks};
ghost use Rattle.gltf_inspect_extensions.specs.Materials.{metallic_checks, glossiness_checks};
ghost use Rattle.gltf_inspect_extensions.specs.Materials.{transmission_checks, volume_checks};
ghost use Rattle.gltf_inspect_extensions.specs.Materials.{specular_checks, surface_checks};
ghost use Rattle.gltf_inspect_extensions.specs.Materials.{surface_names_checks, material_checks};
ghost use Rattle.gltf_inspect_extensions.specs.Materials.{first_textures_checks};
ghost use Rattle.gltf_inspect_extensions.specs.Materials.{later_textures_checks, textures_checks};

use crate::extended::{Extended, tell_extensions, tell_known, tell_optional, tell_others};
use gltf_findings::findings::Findings;
use gltf_inspect_meshes::names::NameSet;
use gltf_json_material::extensions::{material as surface, texture as moved};
use gltf_json_material::material::{
    Material, NormalTexture, OcclusionTexture, PbrMetallicRoughness,
};
use gltf_json_material::texture::Info;
use gltf_json_record::boxed::lent;
use gltf_validation::location::Location;
use std::alloc::AllocError;

impl Extended for moved::Info {
    ghost checks = { λ used r. info_extensions_checks used r };

    fn tell(
        &self,
        used: &NameSet,
        location: &Location<'_>,
        findings: &mut Findings,
    ) -> Result<(), AllocError> {
        let transform = &self.texture_transform;
        tell_known(transform, "KHR_texture_transform", used, location, findings)?;
        tell_others(&self.others, used, location, findings)
    }
}

impl Extended for Info {
    ghost checks = { λ used r. info_checks used r };

    fn tell(
        &self,
        used: &NameSet,
        location: &Location<'_>,
        findings: &mut Findings,
    ) -> Result<(), AllocError> {
        tell_extensions(lent(&self.extensions), used, location, findings)
    }
}

impl Extended for NormalTexture {
    ghost checks = { λ used r. normal_checks used r };

    fn tell(
        &self,
        used: &NameSet,
        location: &Location<'_>,
        findings: &mut Findings,
    ) -> Result<(), AllocError> {
        tell_extensions(lent(&self.extensions), used, location, findings)
    }
}

impl Extended for OcclusionTexture {
    ghost checks = { λ used r. occlusion_checks used r };

    fn tell(
        &self,
        used: &NameSet,
        location: &Location<'_>,
        findings: &mut Findings,
    ) -> Result<(), AllocError> {
        tell_extensions(lent(&self.extensions), used, location, findings)
    }
}

impl Extended for PbrMetallicRoughness {
    ghost checks = { λ used r. metallic_checks used r };

    fn tell(
        &self,
        used: &NameSet,
        location: &Location<'_>,
        findings: &mut Findings,
    ) -> Result<(), AllocError> {
        tell_extensions(lent(&self.extensions), used, location, findings)?;
        let base = self.base_color_texture.as_ref();
        tell_optional(base, "baseColorTexture", used, location, findings)?;
        let metallic = self.metallic_roughness_texture.as_ref();
        tell_optional(
            metallic,
            "metallicRoughnessTexture",
            used,
            location,
            findings,
        )
    }
}

impl Extended for surface::PbrSpecularGlossiness {
    ghost checks = { λ used r. glossiness_checks used r };

    fn tell(
        &self,
        used: &NameSet,
        location: &Location<'_>,
        findings: &mut Findings,
    ) -> Result<(), AllocError> {
        let diffuse = self.diffuse_texture.as_ref();
        tell_optional(diffuse, "diffuseTexture", used, location, findings)?;
        let glossiness = self.specular_glossiness_texture.as_ref();
        tell_optional(
            glossiness,
            "specularGlossinessTexture",
            used,
            location,
            findings,
        )
    }
}

impl Extended for surface::Transmission {
    ghost checks = { λ used r. transmission_checks used r };

    fn tell(
        &self,
        used: &NameSet,
        location: &Location<'_>,
        findings: &mut Findings,
    ) -> Result<(), AllocError> {
        let transmission = self.transmission_texture.as_ref();
        tell_optional(
            transmission,
            "transmissionTexture",
            used,
            location,
            findings,
        )
    }
}

impl Extended for surface::Volume {
    ghost checks = { λ used r. volume_checks used r };

    fn tell(
        &self,
        used: &NameSet,
        location: &Location<'_>,
        findings: &mut Findings,
    ) -> Result<(), AllocError> {
        let thickness = self.thickness_texture.as_ref();
        tell_optional(thickness, "thicknessTexture", used, location, findings)
    }
}

impl Extended for surface::Specular {
    ghost checks = { λ used r. specular_checks used r };

    fn tell(
        &self,
        used: &NameSet,
        location: &Location<'_>,
        findings: &mut Findings,
    ) -> Result<(), AllocError> {
        let specular = self.specular_texture.as_ref();
        tell_optional(specular, "specularTexture", used, location, findings)?;
        let color = self.specular_color_texture.as_ref();
        tell_optional(color, "specularColorTexture", used, location, findings)
    }
}

impl Extended for surface::Material {
    ghost checks = { λ used r. surface_checks used r };

    fn tell(
        &self,
        used: &NameSet,
        location: &Location<'_>,
        findings: &mut Findings,
    ) -> Result<(), AllocError> {
        tell_names(self, used, location, findings)?;
        tell_first_textures(self, used, location, findings)?;
        tell_later_textures(self, used, location, findings)
    }
}

fn tell_names(
    surface: &surface::Material,
    used: &NameSet,
    location: &Location<'_>,
    findings: &mut Findings,
) -> Result<(), AllocError>
    ensures { OnOk result (findings.new ≡ told_after findings.old (places_of location.now)
        (surface_names_checks (has_name used.now) surface.now)) }
{
    let it = &surface.pbr_specular_glossiness;
    tell_known(
        it,
        "KHR_materials_pbrSpecularGlossiness",
        used,
        location,
        findings,
    )?;
    let it = &surface.unlit;
    tell_known(it, "KHR_materials_unlit", used, location, findings)?;
    let it = &surface.transmission;
    tell_known(it, "KHR_materials_transmission", used, location, findings)?;
    let it = &surface.ior;
    tell_known(it, "KHR_materials_ior", used, location, findings)?;
    let it = &surface.emissive_strength;
    tell_known(
        it,
        "KHR_materials_emissive_strength",
        used,
        location,
        findings,
    )?;
    let it = &surface.volume;
    tell_known(it, "KHR_materials_volume", used, location, findings)?;
    let it = &surface.specular;
    tell_known(it, "KHR_materials_specular", used, location, findings)?;
    tell_others(&surface.others, used, location, findings)
}

fn tell_first_textures(
    surface: &surface::Material,
    used: &NameSet,
    location: &Location<'_>,
    findings: &mut Findings,
) -> Result<(), AllocError>
    ensures { OnOk result (findings.new ≡ told_after findings.old (places_of location.now)
        (first_textures_checks (has_name used.now) surface.now)) }
{
    let it = surface.pbr_specular_glossiness.as_ref();
    tell_optional(
        it,
        "KHR_materials_pbrSpecularGlossiness",
        used,
        location,
        findings,
    )?;
    let it = surface.transmission.as_ref();
    tell_optional(it, "KHR_materials_transmission", used, location, findings)
}

fn tell_later_textures(
    surface: &surface::Material,
    used: &NameSet,
    location: &Location<'_>,
    findings: &mut Findings,
) -> Result<(), AllocError>
    ensures { OnOk result (findings.new ≡ told_after findings.old (places_of location.now)
        (later_textures_checks (has_name used.now) surface.now)) }
{
    let it = surface.volume.as_ref();
    tell_optional(it, "KHR_materials_volume", used, location, findings)?;
    let it = surface.specular.as_ref();
    tell_optional(it, "KHR_materials_specular", used, location, findings)
}

impl Extended for Material {
    ghost checks = { λ used r. material_checks used r };

    fn tell(
        &self,
        used: &NameSet,
        location: &Location<'_>,
        findings: &mut Findings,
    ) -> Result<(), AllocError> {
        tell_extensions(lent(&self.extensions), used, location, findings)?;
        tell_textures(self, used, location, findings)?;
        let metallic = lent(&self.pbr_metallic_roughness);
        tell_optional(metallic, "pbrMetallicRoughness", used, location, findings)
    }
}

fn tell_textures(
    material: &Material,
    used: &NameSet,
    location: &Location<'_>,
    findings: &mut Findings,
) -> Result<(), AllocError>
    ensures { OnOk result (findings.new ≡ told_after findings.old (places_of location.now)
        (textures_checks (has_name used.now) material.now)) }
{
    let emissive = material.emissive_texture.as_ref();
    tell_optional(emissive, "emissiveTexture", used, location, findings)?;
    let normal = lent(&material.normal_texture);
    tell_optional(normal, "normalTexture", used, location, findings)?;
    let occlusion = lent(&material.occlusion_texture);
    tell_optional(occlusion, "occlusionTexture", used, location, findings)
}
