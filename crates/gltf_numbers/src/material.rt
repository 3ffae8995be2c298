//! The numbers of materials (glTF 2.0, section 3.9, "Materials") and of their extensions.

ghost use Rattle.std.specs.Prelude.{◌≡◌};
ghost use Rattle.gltf_material.specs.Materials.{material_handle};
ghost use Rattle.gltf_material.specs.Parts.{pbr_handle, glossiness_handle, normal_handle};
ghost use Rattle.gltf_material.specs.Parts.{occlusion_handle, transmission_handle};
ghost use Rattle.gltf_material.specs.Parts.{volume_handle, specular_handle};
ghost use Rattle.gltf_numbers.specs.Materials.{material_numbers, pbr_numbers, glossiness_numbers};
ghost use Rattle.gltf_numbers.specs.Materials.{normal_numbers, occlusion_numbers};
ghost use Rattle.gltf_numbers.specs.Materials.{transmission_numbers, volume_numbers};
ghost use Rattle.gltf_numbers.specs.Materials.{specular_numbers, ior_number};
ghost use Rattle.gltf_numbers.specs.Materials.{emissive_strength_number};

use crate::defaults::{
    ALPHA_CUTOFF, ATTENUATION_COLOR, BASE_COLOR_FACTOR, DIFFUSE_FACTOR, EMISSIVE_FACTOR,
    EMISSIVE_STRENGTH, GLOSSINESS_FACTOR, GLOSSY_SPECULAR_FACTOR, IOR, METALLIC_FACTOR,
    NORMAL_SCALE, OCCLUSION_STRENGTH, ROUGHNESS_FACTOR, SPECULAR_COLOR_FACTOR, SPECULAR_FACTOR,
    THICKNESS_FACTOR, TRANSMISSION_FACTOR,
};
use crate::of_handles::Numbers;
use crate::value::{number_if, number_or, numbers_or};
use gltf_material::material as handles;
use gltf_rules::Records;

/// The numbers of a material (glTF 2.0, section 5.19, "Material").
#[derive(Clone, Copy, Debug)]
pub struct Material {
    /// The least alpha that is shown in the mode `MASK`: `alphaCutoff`, by default 0.5.
    pub alpha_cutoff: f64,
    /// The linear factors of the light that the surface gives off, for red, green and blue:
    /// `emissiveFactor`, by default 0 each.
    pub emissive_factor: [f64; 3],
}

impl<D: Records> Numbers for handles::Material<'_, D> {
    type Numbers = Material;

    ghost of = { λ m. material_numbers (material_handle m).json };

    fn numbers(&self) -> Option<Material> {
        Some(Material {
            alpha_cutoff: number_or(self.alpha_cutoff(), ALPHA_CUTOFF)?,
            emissive_factor: numbers_or(self.emissive_factor(), EMISSIVE_FACTOR)?,
        })
    }
}

/// The index of refraction of a material: `ior` of the extension `KHR_materials_ior`, by default
/// 1.5, also where the extension is absent. None where it is there and is no number.
pub fn ior<D: Records>(material: &handles::Material<'_, D>) -> Option<f64>
    ensures { result ≡ ior_number (material_handle material.now).json }
{
    number_or(material.ior(), IOR)
}

/// The strength of the light that the surface gives off: `emissiveStrength` of the extension
/// `KHR_materials_emissive_strength`, by default 1, also where the extension is absent. None where
/// it is there and is no number.
pub fn emissive_strength<D: Records>(material: &handles::Material<'_, D>) -> Option<f64>
    ensures { result ≡ emissive_strength_number (material_handle material.now).json }
{
    number_or(material.emissive_strength(), EMISSIVE_STRENGTH)
}

/// The numbers of a base colour, metalness and roughness (glTF 2.0, section 5.22, "Material PBR
/// Metallic Roughness").
#[derive(Clone, Copy, Debug)]
pub struct PbrMetallicRoughness {
    /// The linear factors of the base colour, for red, green, blue and alpha: `baseColorFactor`, by
    /// default 1 each.
    pub base_color_factor: [f64; 4],
    /// The factor of the metalness: `metallicFactor`, by default 1.
    pub metallic_factor: f64,
    /// The factor of the roughness: `roughnessFactor`, by default 1.
    pub roughness_factor: f64,
}

impl<D: Records> Numbers for handles::PbrMetallicRoughness<'_, D> {
    type Numbers = PbrMetallicRoughness;

    ghost of = { λ p. pbr_numbers (pbr_handle p).json };

    fn numbers(&self) -> Option<PbrMetallicRoughness> {
        Some(PbrMetallicRoughness {
            base_color_factor: numbers_or(self.base_color_factor(), BASE_COLOR_FACTOR)?,
            metallic_factor: number_or(self.metallic_factor(), METALLIC_FACTOR)?,
            roughness_factor: number_or(self.roughness_factor(), ROUGHNESS_FACTOR)?,
        })
    }
}

/// The numbers of a diffuse and a specular colour and a glossiness (the extension
/// `KHR_materials_pbrSpecularGlossiness`).
#[derive(Clone, Copy, Debug)]
pub struct PbrSpecularGlossiness {
    /// The linear factors of the diffuse colour, for red, green, blue and alpha: `diffuseFactor`,
    /// by default 1 each.
    pub diffuse_factor: [f64; 4],
    /// The linear factors of the specular colour, for red, green and blue: `specularFactor`, by
    /// default 1 each.
    pub specular_factor: [f64; 3],
    /// The factor of the glossiness: `glossinessFactor`, by default 1.
    pub glossiness_factor: f64,
}

impl<D: Records> Numbers for handles::PbrSpecularGlossiness<'_, D> {
    type Numbers = PbrSpecularGlossiness;

    ghost of = { λ p. glossiness_numbers (glossiness_handle p).json };

    fn numbers(&self) -> Option<PbrSpecularGlossiness> {
        Some(PbrSpecularGlossiness {
            diffuse_factor: numbers_or(self.diffuse_factor(), DIFFUSE_FACTOR)?,
            specular_factor: numbers_or(self.specular_factor(), GLOSSY_SPECULAR_FACTOR)?,
            glossiness_factor: number_or(self.glossiness_factor(), GLOSSINESS_FACTOR)?,
        })
    }
}

/// The number of a normal texture (glTF 2.0, section 5.20, "Material Normal Texture Info").
#[derive(Clone, Copy, Debug)]
pub struct NormalTexture {
    /// The factor of each normal's x and y: `scale`, by default 1.
    pub scale: f64,
}

impl<D: Records> Numbers for handles::NormalTexture<'_, D> {
    type Numbers = NormalTexture;

    ghost of = { λ n. normal_numbers (normal_handle n).json };

    fn numbers(&self) -> Option<NormalTexture> {
        Some(NormalTexture {
            scale: number_or(self.scale(), NORMAL_SCALE)?,
        })
    }
}

/// The number of an occlusion texture (glTF 2.0, section 5.21, "Material Occlusion Texture Info").
#[derive(Clone, Copy, Debug)]
pub struct OcclusionTexture {
    /// How much of the occlusion is applied: `strength`, by default 1.
    pub strength: f64,
}

impl<D: Records> Numbers for handles::OcclusionTexture<'_, D> {
    type Numbers = OcclusionTexture;

    ghost of = { λ o. occlusion_numbers (occlusion_handle o).json };

    fn numbers(&self) -> Option<OcclusionTexture> {
        Some(OcclusionTexture {
            strength: number_or(self.strength(), OCCLUSION_STRENGTH)?,
        })
    }
}

/// The number of a transmission (the extension `KHR_materials_transmission`).
#[derive(Clone, Copy, Debug)]
pub struct Transmission {
    /// The part of the light that goes through: `transmissionFactor`, by default 0.
    pub transmission_factor: f64,
}

impl<D: Records> Numbers for handles::Transmission<'_, D> {
    type Numbers = Transmission;

    ghost of = { λ t. transmission_numbers (transmission_handle t).json };

    fn numbers(&self) -> Option<Transmission> {
        Some(Transmission {
            transmission_factor: number_or(self.transmission_factor(), TRANSMISSION_FACTOR)?,
        })
    }
}

/// The numbers of a volume (the extension `KHR_materials_volume`).
#[derive(Clone, Copy, Debug)]
pub struct Volume {
    /// The thickness of the volume, in the units of the mesh: `thicknessFactor`, by default 0.
    pub thickness_factor: f64,
    /// How far light goes in the volume on average before it meets a particle, in the units of the
    /// world: `attenuationDistance`; None where it is absent, which means infinitely far.
    pub attenuation_distance: Option<f64>,
    /// The linear colour that white light has at that distance, as red, green and blue:
    /// `attenuationColor`, by default 1 each.
    pub attenuation_color: [f64; 3],
}

impl<D: Records> Numbers for handles::Volume<'_, D> {
    type Numbers = Volume;

    ghost of = { λ v. volume_numbers (volume_handle v).json };

    fn numbers(&self) -> Option<Volume> {
        Some(Volume {
            thickness_factor: number_or(self.thickness_factor(), THICKNESS_FACTOR)?,
            attenuation_distance: number_if(self.attenuation_distance())?,
            attenuation_color: numbers_or(self.attenuation_color(), ATTENUATION_COLOR)?,
        })
    }
}

/// The numbers of a surface's reflections (the extension `KHR_materials_specular`).
#[derive(Clone, Copy, Debug)]
pub struct Specular {
    /// The strength of the reflections: `specularFactor`, by default 1.
    pub specular_factor: f64,
    /// The linear factors of the colour of the reflections, for red, green and blue:
    /// `specularColorFactor`, by default 1 each.
    pub specular_color_factor: [f64; 3],
}

impl<D: Records> Numbers for handles::Specular<'_, D> {
    type Numbers = Specular;

    ghost of = { λ s. specular_numbers (specular_handle s).json };

    fn numbers(&self) -> Option<Specular> {
        Some(Specular {
            specular_factor: number_or(self.specular_factor(), SPECULAR_FACTOR)?,
            specular_color_factor: numbers_or(self.specular_color_factor(), SPECULAR_COLOR_FACTOR)?,
        })
    }
}
