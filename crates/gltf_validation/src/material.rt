//! The rules of materials and their extensions (glTF 2.0, section 3.9).
ghost use Rattle.gltf_validation.specs.Materials.{normal_texture_rules, occlusion_texture_rules};
ghost use Rattle.gltf_validation.specs.Materials.{pbr_metallic_roughness_rules};
ghost use Rattle.gltf_validation.specs.Materials.{pbr_specular_glossiness_rules};
ghost use Rattle.gltf_validation.specs.Materials.{transmission_rules, volume_rules, specular_rules};
ghost use Rattle.gltf_validation.specs.Materials.{material_extensions_rules, material_rules};

use crate::counts::Counts;
use crate::location::Location;
use crate::members::{member, members};
use crate::report::Report;
use crate::validate::Validate;
use gltf_json_material::extensions::material as extended;
use gltf_json_material::material::{
    Material, NormalTexture, OcclusionTexture, PbrMetallicRoughness,
};
use std::alloc::AllocError;

impl Validate for NormalTexture {
    ghost rules = { λ c r. normal_texture_rules c r };

    fn validate(
        &self,
        counts: &Counts,
        location: &Location<'_>,
        report: &mut Report,
    ) -> Result<(), AllocError> {
        member(&self.index, "index", counts, location, report)
    }
}

impl Validate for OcclusionTexture {
    ghost rules = { λ c r. occlusion_texture_rules c r };

    fn validate(
        &self,
        counts: &Counts,
        location: &Location<'_>,
        report: &mut Report,
    ) -> Result<(), AllocError> {
        member(&self.index, "index", counts, location, report)
    }
}

impl Validate for PbrMetallicRoughness {
    ghost rules = { λ c r. pbr_metallic_roughness_rules c r };

    fn validate(
        &self,
        counts: &Counts,
        location: &Location<'_>,
        report: &mut Report,
    ) -> Result<(), AllocError> {
        members!(self, counts, location, report; {
            base_color_texture: "baseColorTexture",
            metallic_roughness_texture: "metallicRoughnessTexture",
        })
    }
}

impl Validate for extended::PbrSpecularGlossiness {
    ghost rules = { λ c r. pbr_specular_glossiness_rules c r };

    fn validate(
        &self,
        counts: &Counts,
        location: &Location<'_>,
        report: &mut Report,
    ) -> Result<(), AllocError> {
        members!(self, counts, location, report; {
            diffuse_texture: "diffuseTexture",
            specular_glossiness_texture: "specularGlossinessTexture",
        })
    }
}

impl Validate for extended::Transmission {
    ghost rules = { λ c r. transmission_rules c r };

    fn validate(
        &self,
        counts: &Counts,
        location: &Location<'_>,
        report: &mut Report,
    ) -> Result<(), AllocError> {
        members!(self, counts, location, report; {
            transmission_texture: "transmissionTexture",
        })
    }
}

impl Validate for extended::Volume {
    ghost rules = { λ c r. volume_rules c r };

    fn validate(
        &self,
        counts: &Counts,
        location: &Location<'_>,
        report: &mut Report,
    ) -> Result<(), AllocError> {
        members!(self, counts, location, report; {
            thickness_texture: "thicknessTexture",
        })
    }
}

impl Validate for extended::Specular {
    ghost rules = { λ c r. specular_rules c r };

    fn validate(
        &self,
        counts: &Counts,
        location: &Location<'_>,
        report: &mut Report,
    ) -> Result<(), AllocError> {
        members!(self, counts, location, report; {
            specular_texture: "specularTexture",
            specular_color_texture: "specularColorTexture",
        })
    }
}

impl Validate for extended::Material {
    ghost rules = { λ c r. material_extensions_rules c r };

    fn validate(
        &self,
        counts: &Counts,
        location: &Location<'_>,
        report: &mut Report,
    ) -> Result<(), AllocError> {
        members!(self, counts, location, report; {
            pbr_specular_glossiness: "KHR_materials_pbrSpecularGlossiness",
            transmission: "KHR_materials_transmission",
            volume: "KHR_materials_volume",
            specular: "KHR_materials_specular",
        })
    }
}

impl Validate for Material {
    ghost rules = { λ c r. material_rules c r };

    fn validate(
        &self,
        counts: &Counts,
        location: &Location<'_>,
        report: &mut Report,
    ) -> Result<(), AllocError> {
        members!(self, counts, location, report; {
            alpha_mode: "alphaMode",
            pbr_metallic_roughness: "pbrMetallicRoughness",
            normal_texture: "normalTexture",
            occlusion_texture: "occlusionTexture",
            emissive_texture: "emissiveTexture",
            extensions: "extensions",
        })
    }
}
