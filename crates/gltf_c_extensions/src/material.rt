//! The extensions of materials that the loader keeps as JSON.
ghost use Rattle.std.specs.Prelude.{◌≡◌};
ghost use Rattle.gltf_c_extensions.specs.Materials.{IsClearcoat, IsSheen, IsIridescence};
ghost use Rattle.gltf_c_extensions.specs.Materials.{IsAnisotropy, IsDispersion};
ghost use Rattle.gltf_c_extensions.specs.Materials.{IsDiffuseTransmission};
ghost use Rattle.gltf_c_extensions.specs.Materials.{shown_clearcoat, shown_sheen};
ghost use Rattle.gltf_c_extensions.specs.Materials.{shown_iridescence, shown_anisotropy};
ghost use Rattle.gltf_c_extensions.specs.Materials.{shown_dispersion, shown_diffuse_transmission};

use crate::reading::{Missing, ShownOf, shown_at};
use crate::uses::{info_use, normal_use};
use gltf_c_look::uses::GltfTextureUse;
use gltf_c_scene::kind::Kind;
use gltf_extension_records::material::{
    Anisotropy, Clearcoat, DiffuseTransmission, Dispersion, Iridescence, Sheen,
};
use gltf_json::Root;
use std::alloc::Global;

/// The extension `KHR_materials_clearcoat`. C declares the same struct.
#[repr(C)]
#[derive(Clone, Copy, Drop)]
pub struct GltfClearcoat {
    /// The intensity of the layer.
    pub clearcoat_factor: f64,
    /// The roughness of the layer.
    pub clearcoat_roughness_factor: f64,
    /// `clearcoatTexture`: the intensity, in red.
    pub clearcoat: GltfTextureUse,
    /// `clearcoatRoughnessTexture`: the roughness, in green.
    pub clearcoat_roughness: GltfTextureUse,
    /// `clearcoatNormalTexture`: the normals of the layer.
    pub clearcoat_normal: GltfTextureUse,
    /// 0.
    pub reserved: [usize; 4],
}

/// The clear layer above the material at an index (`KHR_materials_clearcoat`).
pub fn clearcoat(alloc: Global, root: &Root, index: usize) -> Result<GltfClearcoat, Missing>
    ensures { IsClearcoat index root.now result }
{
    shown_at::<Clearcoat, GltfClearcoat>(
        alloc,
        root,
        Kind::Materials,
        index,
        "KHR_materials_clearcoat",
    )
}

impl ShownOf<Clearcoat> for GltfClearcoat {
    ghost shown = { shown_clearcoat };

    fn shown_of(it: &Clearcoat) -> GltfClearcoat {
        GltfClearcoat {
            clearcoat_factor: it.clearcoat_factor.value(),
            clearcoat_roughness_factor: it.clearcoat_roughness_factor.value(),
            clearcoat: info_use(it.clearcoat_texture),
            clearcoat_roughness: info_use(it.clearcoat_roughness_texture),
            clearcoat_normal: normal_use(it.clearcoat_normal_texture),
            reserved: [0; 4],
        }
    }
}

/// The extension `KHR_materials_sheen`. C declares the same struct.
#[repr(C)]
#[derive(Clone, Copy, Drop)]
pub struct GltfSheen {
    /// The colour: red, green, blue.
    pub sheen_color_factor: [f64; 3],
    /// The roughness.
    pub sheen_roughness_factor: f64,
    /// `sheenColorTexture`: the colour.
    pub sheen_color: GltfTextureUse,
    /// `sheenRoughnessTexture`: the roughness, in alpha.
    pub sheen_roughness: GltfTextureUse,
    /// 0.
    pub reserved: [usize; 4],
}

/// The soft reflection of the material at an index, as of cloth (`KHR_materials_sheen`).
pub fn sheen(alloc: Global, root: &Root, index: usize) -> Result<GltfSheen, Missing>
    ensures { IsSheen index root.now result }
{
    shown_at::<Sheen, GltfSheen>(alloc, root, Kind::Materials, index, "KHR_materials_sheen")
}

impl ShownOf<Sheen> for GltfSheen {
    ghost shown = { shown_sheen };

    fn shown_of(it: &Sheen) -> GltfSheen {
        GltfSheen {
            sheen_color_factor: it.sheen_color_factor.values(),
            sheen_roughness_factor: it.sheen_roughness_factor.value(),
            sheen_color: info_use(it.sheen_color_texture),
            sheen_roughness: info_use(it.sheen_roughness_texture),
            reserved: [0; 4],
        }
    }
}

/// The extension `KHR_materials_iridescence`. C declares the same struct.
#[repr(C)]
#[derive(Clone, Copy, Drop)]
pub struct GltfIridescence {
    /// The intensity of the film.
    pub iridescence_factor: f64,
    /// The index of refraction of the film.
    pub iridescence_ior: f64,
    /// The least thickness, in nanometres.
    pub iridescence_thickness_minimum: f64,
    /// The greatest thickness, in nanometres.
    pub iridescence_thickness_maximum: f64,
    /// `iridescenceTexture`: the intensity, in red.
    pub iridescence: GltfTextureUse,
    /// `iridescenceThicknessTexture`: the thickness, in green.
    pub iridescence_thickness: GltfTextureUse,
    /// 0.
    pub reserved: [usize; 4],
}

/// The thin film on the material at an index (`KHR_materials_iridescence`).
pub fn iridescence(alloc: Global, root: &Root, index: usize) -> Result<GltfIridescence, Missing>
    ensures { IsIridescence index root.now result }
{
    shown_at::<Iridescence, GltfIridescence>(
        alloc,
        root,
        Kind::Materials,
        index,
        "KHR_materials_iridescence",
    )
}

impl ShownOf<Iridescence> for GltfIridescence {
    ghost shown = { shown_iridescence };

    fn shown_of(it: &Iridescence) -> GltfIridescence {
        GltfIridescence {
            iridescence_factor: it.iridescence_factor.value(),
            iridescence_ior: it.iridescence_ior.value(),
            iridescence_thickness_minimum: it.iridescence_thickness_minimum.value(),
            iridescence_thickness_maximum: it.iridescence_thickness_maximum.value(),
            iridescence: info_use(it.iridescence_texture),
            iridescence_thickness: info_use(it.iridescence_thickness_texture),
            reserved: [0; 4],
        }
    }
}

/// The extension `KHR_materials_anisotropy`. C declares the same struct.
#[repr(C)]
#[derive(Clone, Copy, Drop)]
pub struct GltfAnisotropy {
    /// How much they are stretched.
    pub anisotropy_strength: f64,
    /// Their direction, in radians from the tangent.
    pub anisotropy_rotation: f64,
    /// `anisotropyTexture`: direction, in red and green, and strength, in blue.
    pub anisotropy: GltfTextureUse,
    /// 0.
    pub reserved: [usize; 4],
}

/// How the reflections of the material at an index are stretched (`KHR_materials_anisotropy`).
pub fn anisotropy(alloc: Global, root: &Root, index: usize) -> Result<GltfAnisotropy, Missing>
    ensures { IsAnisotropy index root.now result }
{
    shown_at::<Anisotropy, GltfAnisotropy>(
        alloc,
        root,
        Kind::Materials,
        index,
        "KHR_materials_anisotropy",
    )
}

impl ShownOf<Anisotropy> for GltfAnisotropy {
    ghost shown = { shown_anisotropy };

    fn shown_of(it: &Anisotropy) -> GltfAnisotropy {
        GltfAnisotropy {
            anisotropy_strength: it.anisotropy_strength.value(),
            anisotropy_rotation: it.anisotropy_rotation.value(),
            anisotropy: info_use(it.anisotropy_texture),
            reserved: [0; 4],
        }
    }
}

/// The extension `KHR_materials_dispersion`. C declares the same struct.
#[repr(C)]
#[derive(Clone, Copy, Drop)]
pub struct GltfDispersion {
    /// The strength: 20 divided by the Abbe number.
    pub dispersion: f64,
    /// 0.
    pub reserved: [usize; 4],
}

/// How the volume of the material at an index parts the colours of light
/// (`KHR_materials_dispersion`).
pub fn dispersion(alloc: Global, root: &Root, index: usize) -> Result<GltfDispersion, Missing>
    ensures { IsDispersion index root.now result }
{
    shown_at::<Dispersion, GltfDispersion>(
        alloc,
        root,
        Kind::Materials,
        index,
        "KHR_materials_dispersion",
    )
}

impl ShownOf<Dispersion> for GltfDispersion {
    ghost shown = { shown_dispersion };

    fn shown_of(it: &Dispersion) -> GltfDispersion {
        GltfDispersion {
            dispersion: it.dispersion.value(),
            reserved: [0; 4],
        }
    }
}

/// The extension `KHR_materials_diffuse_transmission`. C declares the same struct.
#[repr(C)]
#[derive(Clone, Copy, Drop)]
pub struct GltfDiffuseTransmission {
    /// The part of the light that goes through.
    pub diffuse_transmission_factor: f64,
    /// The colour of that light: red, green, blue.
    pub diffuse_transmission_color_factor: [f64; 3],
    /// `diffuseTransmissionTexture`: the part, in alpha.
    pub diffuse_transmission: GltfTextureUse,
    /// `diffuseTransmissionColorTexture`: the colour.
    pub diffuse_transmission_color: GltfTextureUse,
    /// 0.
    pub reserved: [usize; 4],
}

/// The light that the material at an index lets through and scatters
/// (`KHR_materials_diffuse_transmission`).
pub fn diffuse_transmission(
    alloc: Global,
    root: &Root,
    index: usize,
) -> Result<GltfDiffuseTransmission, Missing>
    ensures { IsDiffuseTransmission index root.now result }
{
    shown_at::<DiffuseTransmission, GltfDiffuseTransmission>(
        alloc,
        root,
        Kind::Materials,
        index,
        "KHR_materials_diffuse_transmission",
    )
}

impl ShownOf<DiffuseTransmission> for GltfDiffuseTransmission {
    ghost shown = { shown_diffuse_transmission };

    fn shown_of(it: &DiffuseTransmission) -> GltfDiffuseTransmission {
        GltfDiffuseTransmission {
            diffuse_transmission_factor: it.diffuse_transmission_factor.value(),
            diffuse_transmission_color_factor: it.diffuse_transmission_color_factor.values(),
            diffuse_transmission: info_use(it.diffuse_transmission_texture),
            diffuse_transmission_color: info_use(it.diffuse_transmission_color_texture),
            reserved: [0; 4],
        }
    }
}
