//! The extensions of a material.

use crate::defaults::{
    ANISOTROPY_ROTATION, ANISOTROPY_STRENGTH, CLEARCOAT_FACTOR, CLEARCOAT_ROUGHNESS_FACTOR,
    DIFFUSE_TRANSMISSION_COLOR_FACTOR, DIFFUSE_TRANSMISSION_FACTOR, DISPERSION, IRIDESCENCE_FACTOR,
    IRIDESCENCE_IOR, IRIDESCENCE_THICKNESS_MAXIMUM, IRIDESCENCE_THICKNESS_MINIMUM,
    SHEEN_COLOR_FACTOR, SHEEN_ROUGHNESS_FACTOR,
};
use crate::members;
use crate::number::{Number, Numbers};
use crate::texture::{NormalTextureInfo, TextureInfo};
use gltf_json_record::error::Error;
use gltf_json_record::read::FromValue;
use gltf_json_record::read_record;
use gltf_validation::counts::Counts;
use gltf_validation::location::Location;
use gltf_validation::report::Report;
use gltf_validation::validate::Validate;
use serde_json::Value;
use std::alloc::{AllocError, Global};

/// A clear layer above a surface, such as lacquer (the extension `KHR_materials_clearcoat`).
#[derive(Clone, Copy, Debug)]
pub struct Clearcoat {
    /// The intensity of the layer: `clearcoatFactor`, by default 0.
    pub clearcoat_factor: Number,
    /// The texture of the intensity (in red): `clearcoatTexture`.
    pub clearcoat_texture: Option<TextureInfo>,
    /// The roughness of the layer: `clearcoatRoughnessFactor`, by default 0.
    pub clearcoat_roughness_factor: Number,
    /// The texture of the roughness (in green): `clearcoatRoughnessTexture`.
    pub clearcoat_roughness_texture: Option<TextureInfo>,
    /// The texture of the normals of the layer: `clearcoatNormalTexture`.
    pub clearcoat_normal_texture: Option<NormalTextureInfo>,
}

impl FromValue for Clearcoat {
    ghost use Rattle.gltf_extension_records.specs.Materials.{clearcoat};

    ghost kind = { clearcoat };

    #[tactic(auto, unfolding(crate::specs::Materials::clearcoat))]
    fn from_value(alloc: Global, value: &Value) -> Result<Clearcoat, Error> {
        read_record!(alloc, value; Clearcoat {
            clearcoat_factor: or_default("clearcoatFactor", Number::new(CLEARCOAT_FACTOR)),
            clearcoat_texture: optional("clearcoatTexture"),
            clearcoat_roughness_factor: or_default(
                "clearcoatRoughnessFactor",
                Number::new(CLEARCOAT_ROUGHNESS_FACTOR)
            ),
            clearcoat_roughness_texture: optional("clearcoatRoughnessTexture"),
            clearcoat_normal_texture: optional("clearcoatNormalTexture"),
        })
    }
}

impl Validate for Clearcoat {
    ghost use Rattle.gltf_extension_records.specs.Rules.{clearcoat_rules};

    ghost rules = { λ c r. clearcoat_rules c r };

    fn validate(
        &self,
        counts: &Counts,
        location: &Location<'_>,
        report: &mut Report,
    ) -> Result<(), AllocError> {
        members!(self, counts, location, report; {
            clearcoat_texture: "clearcoatTexture",
            clearcoat_roughness_texture: "clearcoatRoughnessTexture",
            clearcoat_normal_texture: "clearcoatNormalTexture",
        })
    }
}

/// The soft reflection of cloth (the extension `KHR_materials_sheen`).
#[derive(Clone, Copy, Debug)]
pub struct Sheen {
    /// The linear factors of the colour, for red, green and blue: `sheenColorFactor`, by default 0
    /// each.
    pub sheen_color_factor: Numbers<3>,
    /// The texture of the colour (in red, green and blue): `sheenColorTexture`.
    pub sheen_color_texture: Option<TextureInfo>,
    /// The roughness: `sheenRoughnessFactor`, by default 0.
    pub sheen_roughness_factor: Number,
    /// The texture of the roughness (in alpha): `sheenRoughnessTexture`.
    pub sheen_roughness_texture: Option<TextureInfo>,
}

impl FromValue for Sheen {
    ghost use Rattle.gltf_extension_records.specs.Materials.{sheen};

    ghost kind = { sheen };

    #[tactic(auto, unfolding(crate::specs::Materials::sheen))]
    fn from_value(alloc: Global, value: &Value) -> Result<Sheen, Error> {
        read_record!(alloc, value; Sheen {
            sheen_color_factor: or_default(
                "sheenColorFactor",
                Numbers::new(SHEEN_COLOR_FACTOR)
            ),
            sheen_color_texture: optional("sheenColorTexture"),
            sheen_roughness_factor: or_default(
                "sheenRoughnessFactor",
                Number::new(SHEEN_ROUGHNESS_FACTOR)
            ),
            sheen_roughness_texture: optional("sheenRoughnessTexture"),
        })
    }
}

impl Validate for Sheen {
    ghost use Rattle.gltf_extension_records.specs.Rules.{sheen_rules};

    ghost rules = { λ c r. sheen_rules c r };

    fn validate(
        &self,
        counts: &Counts,
        location: &Location<'_>,
        report: &mut Report,
    ) -> Result<(), AllocError> {
        members!(self, counts, location, report; {
            sheen_color_texture: "sheenColorTexture",
            sheen_roughness_texture: "sheenRoughnessTexture",
        })
    }
}

/// A thin film, whose colour depends on the angle of view (the extension
/// `KHR_materials_iridescence`).
#[derive(Clone, Copy, Debug)]
pub struct Iridescence {
    /// The intensity of the film: `iridescenceFactor`, by default 0.
    pub iridescence_factor: Number,
    /// The texture of the intensity (in red): `iridescenceTexture`.
    pub iridescence_texture: Option<TextureInfo>,
    /// The index of refraction of the film: `iridescenceIor`, by default 1.3.
    pub iridescence_ior: Number,
    /// The least thickness of the film, in nanometres: `iridescenceThicknessMinimum`, by default
    /// 100.
    pub iridescence_thickness_minimum: Number,
    /// The greatest thickness of the film, in nanometres: `iridescenceThicknessMaximum`, by default
    /// 400.
    pub iridescence_thickness_maximum: Number,
    /// The texture of the thickness, from the least to the greatest (in green):
    /// `iridescenceThicknessTexture`.
    pub iridescence_thickness_texture: Option<TextureInfo>,
}

impl FromValue for Iridescence {
    ghost use Rattle.gltf_extension_records.specs.Materials.{iridescence};

    ghost kind = { iridescence };

    #[tactic(auto, unfolding(crate::specs::Materials::iridescence))]
    fn from_value(alloc: Global, value: &Value) -> Result<Iridescence, Error> {
        read_record!(alloc, value; Iridescence {
            iridescence_factor: or_default(
                "iridescenceFactor",
                Number { value: IRIDESCENCE_FACTOR }
            ),
            iridescence_texture: optional("iridescenceTexture"),
            iridescence_ior: or_default("iridescenceIor", Number { value: IRIDESCENCE_IOR }),
            iridescence_thickness_minimum: or_default(
                "iridescenceThicknessMinimum",
                Number { value: IRIDESCENCE_THICKNESS_MINIMUM }
            ),
            iridescence_thickness_maximum: or_default(
                "iridescenceThicknessMaximum",
                Number { value: IRIDESCENCE_THICKNESS_MAXIMUM }
            ),
            iridescence_thickness_texture: optional("iridescenceThicknessTexture"),
        })
    }
}

impl Validate for Iridescence {
    ghost use Rattle.gltf_extension_records.specs.Rules.{iridescence_rules};

    ghost rules = { λ c r. iridescence_rules c r };

    fn validate(
        &self,
        counts: &Counts,
        location: &Location<'_>,
        report: &mut Report,
    ) -> Result<(), AllocError> {
        members!(self, counts, location, report; {
            iridescence_texture: "iridescenceTexture",
            iridescence_thickness_texture: "iridescenceThicknessTexture",
        })
    }
}

/// Reflections that are stretched, as those of brushed metal (the extension
/// `KHR_materials_anisotropy`).
#[derive(Clone, Copy, Debug)]
pub struct Anisotropy {
    /// How much they are stretched: `anisotropyStrength`, by default 0.
    pub anisotropy_strength: Number,
    /// Their direction, in radians from the tangent, counter-clockwise: `anisotropyRotation`, by
    /// default 0.
    pub anisotropy_rotation: Number,
    /// The texture of direction (in red and green) and strength (in blue): `anisotropyTexture`.
    pub anisotropy_texture: Option<TextureInfo>,
}

impl FromValue for Anisotropy {
    ghost use Rattle.gltf_extension_records.specs.Materials.{anisotropy};

    ghost kind = { anisotropy };

    #[tactic(auto, unfolding(crate::specs::Materials::anisotropy))]
    fn from_value(alloc: Global, value: &Value) -> Result<Anisotropy, Error> {
        read_record!(alloc, value; Anisotropy {
            anisotropy_strength: or_default(
                "anisotropyStrength",
                Number::new(ANISOTROPY_STRENGTH)
            ),
            anisotropy_rotation: or_default(
                "anisotropyRotation",
                Number::new(ANISOTROPY_ROTATION)
            ),
            anisotropy_texture: optional("anisotropyTexture"),
        })
    }
}

impl Validate for Anisotropy {
    ghost use Rattle.gltf_extension_records.specs.Rules.{anisotropy_rules};

    ghost rules = { λ c r. anisotropy_rules c r };

    fn validate(
        &self,
        counts: &Counts,
        location: &Location<'_>,
        report: &mut Report,
    ) -> Result<(), AllocError> {
        members!(self, counts, location, report; {
            anisotropy_texture: "anisotropyTexture",
        })
    }
}

/// How a volume parts the colours of light (the extension `KHR_materials_dispersion`).
#[derive(Clone, Copy, Debug)]
pub struct Dispersion {
    /// The strength, as 20 divided by the Abbe number: `dispersion`, by default 0.
    pub dispersion: Number,
}

impl FromValue for Dispersion {
    ghost use Rattle.gltf_extension_records.specs.Materials.{dispersion};

    ghost kind = { dispersion };

    #[tactic(auto, unfolding(crate::specs::Materials::dispersion))]
    fn from_value(alloc: Global, value: &Value) -> Result<Dispersion, Error> {
        read_record!(alloc, value; Dispersion {
            dispersion: or_default("dispersion", Number::new(DISPERSION)),
        })
    }
}

impl Validate for Dispersion {
    ghost use Rattle.gltf_extension_records.specs.Rules.{dispersion_rules};

    ghost rules = { λ c r. dispersion_rules c r };

    fn validate(
        &self,
        _counts: &Counts,
        _location: &Location<'_>,
        _report: &mut Report,
    ) -> Result<(), AllocError> {
        Ok(())
    }
}

/// Light that is scattered as it goes through a surface, as through a leaf (the extension
/// `KHR_materials_diffuse_transmission`).
#[derive(Clone, Copy, Debug)]
pub struct DiffuseTransmission {
    /// The part of the light that goes through: `diffuseTransmissionFactor`, by default 0.
    pub diffuse_transmission_factor: Number,
    /// The texture of that part (in alpha): `diffuseTransmissionTexture`.
    pub diffuse_transmission_texture: Option<TextureInfo>,
    /// The linear factors of the colour of that light, for red, green and blue:
    /// `diffuseTransmissionColorFactor`, by default 1 each.
    pub diffuse_transmission_color_factor: Numbers<3>,
    /// The texture of the colour (in red, green and blue): `diffuseTransmissionColorTexture`.
    pub diffuse_transmission_color_texture: Option<TextureInfo>,
}

impl FromValue for DiffuseTransmission {
    ghost use Rattle.gltf_extension_records.specs.Materials.{diffuse_transmission};

    ghost kind = { diffuse_transmission };

    #[tactic(auto, unfolding(crate::specs::Materials::diffuse_transmission))]
    fn from_value(alloc: Global, value: &Value) -> Result<DiffuseTransmission, Error> {
        read_record!(alloc, value; DiffuseTransmission {
            diffuse_transmission_factor: or_default(
                "diffuseTransmissionFactor",
                Number::new(DIFFUSE_TRANSMISSION_FACTOR)
            ),
            diffuse_transmission_texture: optional("diffuseTransmissionTexture"),
            diffuse_transmission_color_factor: or_default(
                "diffuseTransmissionColorFactor",
                Numbers::new(DIFFUSE_TRANSMISSION_COLOR_FACTOR)
            ),
            diffuse_transmission_color_texture: optional("diffuseTransmissionColorTexture"),
        })
    }
}

impl Validate for DiffuseTransmission {
    ghost use Rattle.gltf_extension_records.specs.Rules.{diffuse_transmission_rules};

    ghost rules = { λ c r. diffuse_transmission_rules c r };

    fn validate(
        &self,
        counts: &Counts,
        location: &Location<'_>,
        report: &mut Report,
    ) -> Result<(), AllocError> {
        members!(self, counts, location, report; {
            diffuse_transmission_texture: "diffuseTransmissionTexture",
            diffuse_transmission_color_texture: "diffuseTransmissionColorTexture",
        })
    }
}
