//! Materials (glTF 2.0, section 3.9), with the extensions that the loader reads.
ghost use Rattle.std.specs.Prelude.{◌≡◌};
ghost use Rattle.std.specs.Option.{option_copied, option_and_then};
ghost use Rattle.gltf_handles.specs.Sizes.{code_of};
ghost use Rattle.gltf_c_look.specs.Materials.{alpha_mode_number, shown_material, material_of};
ghost use Rattle.gltf_c_look.specs.Materials.{surface_of, surface_textures_of, glossiness_of};
ghost use Rattle.gltf_c_look.specs.Materials.{volume_of, specular_of, transmission_factor_of};
ghost use Rattle.gltf_c_look.specs.Materials.{transmission_use_of, ior_of, emissive_strength_of};
ghost use Rattle.gltf_c_look.specs.Materials.{stated_bits, extension_bits, default_material};
ghost use Rattle.gltf_c_look.specs.Materials.{core_of};
ghost use Rattle.gltf_c_look.specs.Written.{IsWritten};

use crate::number::number_else;
use crate::uses::{GltfTextureUse, info_use, normal_use, occlusion_use};
use gltf_c_scene::numbers::{NONE, numbers_else, one_or_zero};
use gltf_json::Root;
use gltf_json::boxed::lent;
use gltf_json::material::{AlphaMode, Material, PbrMetallicRoughness};
use gltf_json_material::extensions::material as extended;
use gltf_json_record::validation::Checked;
use gltf_numbers::defaults::{
    ALPHA_CUTOFF, ATTENUATION_COLOR, BASE_COLOR_FACTOR, DIFFUSE_FACTOR, EMISSIVE_FACTOR,
    GLOSSINESS_FACTOR, GLOSSY_SPECULAR_FACTOR, METALLIC_FACTOR, ROUGHNESS_FACTOR,
    SPECULAR_COLOR_FACTOR, SPECULAR_FACTOR, THICKNESS_FACTOR, TRANSMISSION_FACTOR,
};

/// `ior` of a material that states none (`KHR_materials_ior`).
pub const IOR: f64 = 1.5;

/// `emissiveStrength` of a material that states none (`KHR_materials_emissive_strength`).
pub const EMISSIVE_STRENGTH: f64 = 1.0;

/// What stands for no attenuation distance: the greatest double (`KHR_materials_volume`).
pub const NO_DISTANCE: f64 = 1.7976931348623157e308;

/// What is the same for all materials (glTF 2.0, section 5.19).
#[repr(C)]
#[derive(Clone, Copy, Drop)]
pub struct Core {
    /// 0 opaque, 1 mask, 2 blend (glTF 2.0, section 5.19.9).
    pub alpha_mode: u32,
    /// 1 where it has two sides, else 0.
    pub double_sided: u32,
    /// What the document states, added up: 1 `KHR_materials_unlit`, 2 `pbrSpecularGlossiness`,
    /// 4 `transmission`, 8 `ior`, 16 `emissive_strength`, 32 `volume`, 64 `specular`, and 128
    /// `pbrMetallicRoughness`.
    pub has: u32,
    /// 0.
    pub reserved_word: u32,
    /// The cutoff of the mode mask.
    pub alpha_cutoff: f64,
}

/// The numbers of `pbrMetallicRoughness` (glTF 2.0, section 5.22).
#[repr(C)]
#[derive(Clone, Copy, Drop)]
pub struct Surface {
    /// The base colour: red, green, blue, alpha.
    pub base_color_factor: [f64; 4],
    /// How much it is a metal.
    pub metallic_factor: f64,
    /// How rough it is.
    pub roughness_factor: f64,
}

/// The textures of `pbrMetallicRoughness`.
#[repr(C)]
#[derive(Clone, Copy, Drop)]
pub struct SurfaceTextures {
    /// `baseColorTexture`.
    pub base_color: GltfTextureUse,
    /// `metallicRoughnessTexture`.
    pub metallic_roughness: GltfTextureUse,
}

/// What is stated of glossiness, or its defaults (`KHR_materials_pbrSpecularGlossiness`).
#[repr(C)]
#[derive(Clone, Copy, Drop)]
pub struct Glossiness {
    /// `diffuseFactor`.
    pub diffuse_factor: [f64; 4],
    /// `specularFactor`.
    pub specular_glossiness_factor: [f64; 3],
    /// `glossinessFactor`.
    pub glossiness_factor: f64,
    /// `diffuseTexture`.
    pub diffuse: GltfTextureUse,
    /// `specularGlossinessTexture`.
    pub specular_glossiness: GltfTextureUse,
}

/// What is stated of a volume, or its defaults (`KHR_materials_volume`).
#[repr(C)]
#[derive(Clone, Copy, Drop)]
pub struct Volume {
    /// `thicknessFactor`.
    pub thickness_factor: f64,
    /// `attenuationDistance`, the greatest double where there is none.
    pub attenuation_distance: f64,
    /// `attenuationColor`.
    pub attenuation_color: [f64; 3],
    /// `thicknessTexture`.
    pub thickness: GltfTextureUse,
}

/// What is stated of reflections, or their defaults (`KHR_materials_specular`).
#[repr(C)]
#[derive(Clone, Copy, Drop)]
pub struct Specular {
    /// `specularFactor`.
    pub specular_factor: f64,
    /// `specularColorFactor`.
    pub specular_color_factor: [f64; 3],
    /// `specularTexture`.
    pub specular: GltfTextureUse,
    /// `specularColorTexture`.
    pub specular_color: GltfTextureUse,
}

/// What a material is. C declares a struct with the members of its parts, one after the other.
#[repr(C)]
#[derive(Clone, Copy, Drop)]
pub struct GltfMaterial {
    /// What is the same for all materials.
    pub core: Core,
    /// The numbers of its surface.
    pub surface: Surface,
    /// What it emits: red, green, blue.
    pub emissive_factor: [f64; 3],
    /// The textures of its surface.
    pub surface_textures: SurfaceTextures,
    /// `normalTexture`.
    pub normal: GltfTextureUse,
    /// `occlusionTexture`.
    pub occlusion: GltfTextureUse,
    /// `emissiveTexture`.
    pub emissive: GltfTextureUse,
    /// Its glossiness.
    pub glossiness: Glossiness,
    /// `transmissionFactor` of `KHR_materials_transmission`.
    pub transmission_factor: f64,
    /// `ior` of `KHR_materials_ior`.
    pub ior: f64,
    /// `emissiveStrength` of `KHR_materials_emissive_strength`.
    pub emissive_strength: f64,
    /// `transmissionTexture`.
    pub transmission: GltfTextureUse,
    /// Its volume.
    pub volume: Volume,
    /// Its reflections.
    pub specular: Specular,
    /// 0.
    pub reserved: [usize; 8],
}

/// Writes what the material at an index is, and returns whether there is one. [`NONE`] stands for
/// the material of a primitive that names none (glTF 2.0, section 3.9.6). The struct is large, so it
/// is written where it is wanted.
pub fn write_material(root: &Root, index: usize, out: &mut GltfMaterial) -> bool
    ensures { IsWritten (material_of index root.now) result out.old out.new }
{
    if index == NONE {
        write_default(out);
        return true;
    }
    match root.materials.get(index) {
        Some(material) => {
            write_shown(material, out);
            true
        }
        None => false,
    }
}

fn surface_of(stated: Option<&PbrMetallicRoughness>) -> Surface
    ensures { result ≡ surface_of (option_copied stated.entry) }
{
    match stated {
        Some(it) => Surface {
            base_color_factor: numbers_else(&it.base_color_factor, BASE_COLOR_FACTOR),
            metallic_factor: number_else(it.metallic_factor.as_ref(), METALLIC_FACTOR),
            roughness_factor: number_else(it.roughness_factor.as_ref(), ROUGHNESS_FACTOR),
        },
        None => Surface {
            base_color_factor: BASE_COLOR_FACTOR,
            metallic_factor: METALLIC_FACTOR,
            roughness_factor: ROUGHNESS_FACTOR,
        },
    }
}

fn surface_textures_of(stated: Option<&PbrMetallicRoughness>) -> SurfaceTextures
    ensures { result ≡ surface_textures_of (option_copied stated.entry) }
{
    match stated {
        Some(it) => SurfaceTextures {
            base_color: info_use(it.base_color_texture.as_ref()),
            metallic_roughness: info_use(it.metallic_roughness_texture.as_ref()),
        },
        None => SurfaceTextures {
            base_color: info_use(None),
            metallic_roughness: info_use(None),
        },
    }
}

fn glossiness_of(stated: Option<&extended::PbrSpecularGlossiness>) -> Glossiness
    ensures { result ≡ glossiness_of (option_copied stated.entry) }
{
    match stated {
        Some(it) => Glossiness {
            diffuse_factor: numbers_else(&it.diffuse_factor, DIFFUSE_FACTOR),
            specular_glossiness_factor: numbers_else(&it.specular_factor, GLOSSY_SPECULAR_FACTOR),
            glossiness_factor: number_else(it.glossiness_factor.as_ref(), GLOSSINESS_FACTOR),
            diffuse: info_use(it.diffuse_texture.as_ref()),
            specular_glossiness: info_use(it.specular_glossiness_texture.as_ref()),
        },
        None => Glossiness {
            diffuse_factor: DIFFUSE_FACTOR,
            specular_glossiness_factor: GLOSSY_SPECULAR_FACTOR,
            glossiness_factor: GLOSSINESS_FACTOR,
            diffuse: info_use(None),
            specular_glossiness: info_use(None),
        },
    }
}

fn volume_of(stated: Option<&extended::Volume>) -> Volume
    ensures { result ≡ volume_of (option_copied stated.entry) }
{
    match stated {
        Some(it) => Volume {
            thickness_factor: number_else(it.thickness_factor.as_ref(), THICKNESS_FACTOR),
            attenuation_distance: number_else(it.attenuation_distance.as_ref(), NO_DISTANCE),
            attenuation_color: numbers_else(&it.attenuation_color, ATTENUATION_COLOR),
            thickness: info_use(it.thickness_texture.as_ref()),
        },
        None => Volume {
            thickness_factor: THICKNESS_FACTOR,
            attenuation_distance: NO_DISTANCE,
            attenuation_color: ATTENUATION_COLOR,
            thickness: info_use(None),
        },
    }
}

fn specular_of(stated: Option<&extended::Specular>) -> Specular
    ensures { result ≡ specular_of (option_copied stated.entry) }
{
    match stated {
        Some(it) => Specular {
            specular_factor: number_else(it.specular_factor.as_ref(), SPECULAR_FACTOR),
            specular_color_factor: numbers_else(&it.specular_color_factor, SPECULAR_COLOR_FACTOR),
            specular: info_use(it.specular_texture.as_ref()),
            specular_color: info_use(it.specular_color_texture.as_ref()),
        },
        None => Specular {
            specular_factor: SPECULAR_FACTOR,
            specular_color_factor: SPECULAR_COLOR_FACTOR,
            specular: info_use(None),
            specular_color: info_use(None),
        },
    }
}

fn transmission_factor_of(stated: Option<&extended::Transmission>) -> f64
    ensures { result ≡ transmission_factor_of (option_copied stated.entry) }
{
    match stated {
        Some(it) => number_else(it.transmission_factor.as_ref(), TRANSMISSION_FACTOR),
        None => TRANSMISSION_FACTOR,
    }
}

fn transmission_use_of(stated: Option<&extended::Transmission>) -> GltfTextureUse
    ensures { result ≡ transmission_use_of (option_copied stated.entry) }
{
    match stated {
        Some(it) => info_use(it.transmission_texture.as_ref()),
        None => info_use(None),
    }
}

fn ior_of(stated: Option<&extended::Ior>) -> f64
    ensures { result ≡ ior_of (option_copied stated.entry) }
{
    match stated {
        Some(it) => number_else(it.ior.as_ref(), IOR),
        None => IOR,
    }
}

fn emissive_strength_of(stated: Option<&extended::EmissiveStrength>) -> f64
    ensures { result ≡ emissive_strength_of (option_copied stated.entry) }
{
    match stated {
        Some(it) => number_else(it.emissive_strength.as_ref(), EMISSIVE_STRENGTH),
        None => EMISSIVE_STRENGTH,
    }
}

fn glossiness_in(material: &Material) -> Glossiness
    ensures { result ≡ glossiness_of
        (option_and_then (λ e. e.pbr_specular_glossiness) material.now.extensions) }
{
    match lent(&material.extensions) {
        Some(extensions) => glossiness_of(extensions.pbr_specular_glossiness.as_ref()),
        None => glossiness_of(None),
    }
}

fn transmission_factor_in(material: &Material) -> f64
    ensures { result ≡ transmission_factor_of
        (option_and_then (λ e. e.transmission) material.now.extensions) }
{
    match lent(&material.extensions) {
        Some(extensions) => transmission_factor_of(extensions.transmission.as_ref()),
        None => transmission_factor_of(None),
    }
}

fn transmission_use_in(material: &Material) -> GltfTextureUse
    ensures { result ≡ transmission_use_of
        (option_and_then (λ e. e.transmission) material.now.extensions) }
{
    match lent(&material.extensions) {
        Some(extensions) => transmission_use_of(extensions.transmission.as_ref()),
        None => transmission_use_of(None),
    }
}

fn ior_in(material: &Material) -> f64
    ensures { result ≡ ior_of (option_and_then (λ e. e.ior) material.now.extensions) }
{
    match lent(&material.extensions) {
        Some(extensions) => ior_of(extensions.ior.as_ref()),
        None => ior_of(None),
    }
}

fn emissive_strength_in(material: &Material) -> f64
    ensures { result ≡ emissive_strength_of
        (option_and_then (λ e. e.emissive_strength) material.now.extensions) }
{
    match lent(&material.extensions) {
        Some(extensions) => emissive_strength_of(extensions.emissive_strength.as_ref()),
        None => emissive_strength_of(None),
    }
}

fn volume_in(material: &Material) -> Volume
    ensures { result ≡ volume_of (option_and_then (λ e. e.volume) material.now.extensions) }
{
    match lent(&material.extensions) {
        Some(extensions) => volume_of(extensions.volume.as_ref()),
        None => volume_of(None),
    }
}

fn specular_in(material: &Material) -> Specular
    ensures { result ≡ specular_of (option_and_then (λ e. e.specular) material.now.extensions) }
{
    match lent(&material.extensions) {
        Some(extensions) => specular_of(extensions.specular.as_ref()),
        None => specular_of(None),
    }
}

/// What the document states of a material, as bits.
fn stated_bits(material: &Material) -> u32
    ensures { result ≡ stated_bits material.now }
{
    let extensions = match lent(&material.extensions) {
        Some(extensions) => extension_bits(extensions),
        None => 0,
    };
    extensions + 128 * one_or_zero(material.pbr_metallic_roughness.is_some())
}

fn extension_bits(extensions: &extended::Material) -> u32
    ensures { result ≡ extension_bits extensions.now }
{
    one_or_zero(extensions.unlit.is_some())
        + 2 * one_or_zero(extensions.pbr_specular_glossiness.is_some())
        + 4 * one_or_zero(extensions.transmission.is_some())
        + 8 * one_or_zero(extensions.ior.is_some())
        + 16 * one_or_zero(extensions.emissive_strength.is_some())
        + 32 * one_or_zero(extensions.volume.is_some())
        + 64 * one_or_zero(extensions.specular.is_some())
}

/// The number of an alpha mode (glTF 2.0, section 5.19.9).
fn alpha_mode_number(mode: Checked<AlphaMode>) -> u32
    ensures { result ≡ code_of alpha_mode_number mode }
{
    match mode {
        Checked::Valid(AlphaMode::Opaque) | Checked::Invalid => 0,
        Checked::Valid(AlphaMode::Mask) => 1,
        Checked::Valid(AlphaMode::Blend) => 2,
    }
}

fn core_of(material: &Material) -> Core
    ensures { result ≡ core_of material.now }
{
    Core {
        alpha_mode: alpha_mode_number(material.alpha_mode),
        double_sided: one_or_zero(material.double_sided),
        has: stated_bits(material),
        reserved_word: 0,
        alpha_cutoff: number_else(material.alpha_cutoff.as_ref(), ALPHA_CUTOFF),
    }
}

fn write_shown(material: &Material, out: &mut GltfMaterial)
    ensures { out.new ≡ shown_material material.now }
{
    out.core = core_of(material);
    out.surface = surface_of(lent(&material.pbr_metallic_roughness));
    out.emissive_factor = numbers_else(&material.emissive_factor, EMISSIVE_FACTOR);
    out.surface_textures = surface_textures_of(lent(&material.pbr_metallic_roughness));
    out.normal = normal_use(lent(&material.normal_texture));
    out.occlusion = occlusion_use(lent(&material.occlusion_texture));
    out.emissive = info_use(material.emissive_texture.as_ref());
    out.glossiness = glossiness_in(material);
    out.transmission_factor = transmission_factor_in(material);
    out.ior = ior_in(material);
    out.emissive_strength = emissive_strength_in(material);
    out.transmission = transmission_use_in(material);
    out.volume = volume_in(material);
    out.specular = specular_in(material);
    out.reserved = [0; 8];
}

fn write_default(out: &mut GltfMaterial)
    ensures { out.new ≡ default_material }
{
    out.core = Core {
        alpha_mode: 0,
        double_sided: 0,
        has: 0,
        reserved_word: 0,
        alpha_cutoff: ALPHA_CUTOFF,
    };
    out.surface = surface_of(None);
    out.emissive_factor = EMISSIVE_FACTOR;
    out.surface_textures = surface_textures_of(None);
    out.normal = info_use(None);
    out.occlusion = info_use(None);
    out.emissive = info_use(None);
    out.glossiness = glossiness_of(None);
    out.transmission_factor = TRANSMISSION_FACTOR;
    out.ior = IOR;
    out.emissive_strength = EMISSIVE_STRENGTH;
    out.transmission = info_use(None);
    out.volume = volume_of(None);
    out.specular = specular_of(None);
    out.reserved = [0; 8];
}
