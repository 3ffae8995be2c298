//! The extensions of materials.
ghost use Rattle.std.specs.Prelude.{◌≡◌, codes};
ghost use Rattle.std.specs.Option.{option_map};
ghost use Rattle.gltf_handles.specs.Members.{extension_named, Follows};
ghost use Rattle.gltf_material.specs.Materials.{material_handle};
ghost use Rattle.gltf_extension_records.specs.Materials as kinds;
ghost use Rattle.gltf_extension_records.specs.Rules as rules;
ghost use Rattle.gltf_extensions.specs.Handles.{handle_of, IsHandle, IsRead};

use crate::fault::ExtensionFault;
use crate::handle::Handle;
use crate::part::part_of;
use crate::reading::read_handle;
use gltf_extension_records::material::{
    Anisotropy, Clearcoat, DiffuseTransmission, Dispersion, Iridescence, Sheen,
};
use gltf_extension_records::texture::{NormalTextureInfo, TextureInfo};
use gltf_material::material::Material;
use gltf_rules::Records;
use std::alloc::Global;

/// A clear layer above a surface, such as lacquer (the extension `KHR_materials_clearcoat`): of a
/// material.
pub fn clearcoat<'a, D: Records>(
    alloc: Global,
    material: &Material<'a, D>,
) -> Option<Result<Handle<'a, Clearcoat, D>, ExtensionFault>>
    ensures { IsRead kinds.clearcoat rules.clearcoat_rules (material_handle material.now).document
        (extension_named (codes "KHR_materials_clearcoat")
        (option_map (λ e. e.others) (material_handle material.now).json.extensions)) result }
{
    read_handle(
        alloc,
        material.document(),
        material.extension_value("KHR_materials_clearcoat"),
    )
}

impl<'a, D: Records> Handle<'a, Clearcoat, D> {
    /// The intensity of the layer: `clearcoatFactor`, by default 0.
    pub fn clearcoat_factor(&self) -> f64
        ensures { result ≡ (handle_of self.now).json.clearcoat_factor }
    {
        self.json.clearcoat_factor.value()
    }

    /// The texture of the intensity (in red): `clearcoatTexture`.
    pub fn clearcoat_texture(&self) -> Option<Handle<'a, TextureInfo, D>>
        ensures { Follows (IsHandle (handle_of self.now).document)
            (handle_of self.now).json.clearcoat_texture result }
    {
        part_of(self.document, &self.json.clearcoat_texture)
    }

    /// The roughness of the layer: `clearcoatRoughnessFactor`, by default 0.
    pub fn clearcoat_roughness_factor(&self) -> f64
        ensures { result ≡ (handle_of self.now).json.clearcoat_roughness_factor }
    {
        self.json.clearcoat_roughness_factor.value()
    }

    /// The texture of the roughness (in green): `clearcoatRoughnessTexture`.
    pub fn clearcoat_roughness_texture(&self) -> Option<Handle<'a, TextureInfo, D>>
        ensures { Follows (IsHandle (handle_of self.now).document)
            (handle_of self.now).json.clearcoat_roughness_texture result }
    {
        part_of(self.document, &self.json.clearcoat_roughness_texture)
    }

    /// The texture of the normals of the layer: `clearcoatNormalTexture`.
    pub fn clearcoat_normal_texture(&self) -> Option<Handle<'a, NormalTextureInfo, D>>
        ensures { Follows (IsHandle (handle_of self.now).document)
            (handle_of self.now).json.clearcoat_normal_texture result }
    {
        part_of(self.document, &self.json.clearcoat_normal_texture)
    }
}

/// The soft reflection of cloth (the extension `KHR_materials_sheen`): of a material.
pub fn sheen<'a, D: Records>(
    alloc: Global,
    material: &Material<'a, D>,
) -> Option<Result<Handle<'a, Sheen, D>, ExtensionFault>>
    ensures { IsRead kinds.sheen rules.sheen_rules (material_handle material.now).document
        (extension_named (codes "KHR_materials_sheen")
        (option_map (λ e. e.others) (material_handle material.now).json.extensions)) result }
{
    read_handle(
        alloc,
        material.document(),
        material.extension_value("KHR_materials_sheen"),
    )
}

impl<'a, D: Records> Handle<'a, Sheen, D> {
    /// The linear factors of the colour, for red, green and blue: `sheenColorFactor`, by default 0
    /// each.
    pub fn sheen_color_factor(&self) -> [f64; 3]
        ensures { result ≡ (handle_of self.now).json.sheen_color_factor }
    {
        self.json.sheen_color_factor.values()
    }

    /// The texture of the colour (in red, green and blue): `sheenColorTexture`.
    pub fn sheen_color_texture(&self) -> Option<Handle<'a, TextureInfo, D>>
        ensures { Follows (IsHandle (handle_of self.now).document)
            (handle_of self.now).json.sheen_color_texture result }
    {
        part_of(self.document, &self.json.sheen_color_texture)
    }

    /// The roughness: `sheenRoughnessFactor`, by default 0.
    pub fn sheen_roughness_factor(&self) -> f64
        ensures { result ≡ (handle_of self.now).json.sheen_roughness_factor }
    {
        self.json.sheen_roughness_factor.value()
    }

    /// The texture of the roughness (in alpha): `sheenRoughnessTexture`.
    pub fn sheen_roughness_texture(&self) -> Option<Handle<'a, TextureInfo, D>>
        ensures { Follows (IsHandle (handle_of self.now).document)
            (handle_of self.now).json.sheen_roughness_texture result }
    {
        part_of(self.document, &self.json.sheen_roughness_texture)
    }
}

/// A thin film, whose colour depends on the angle of view (the extension
/// `KHR_materials_iridescence`) of a material.
pub fn iridescence<'a, D: Records>(
    alloc: Global,
    material: &Material<'a, D>,
) -> Option<Result<Handle<'a, Iridescence, D>, ExtensionFault>>
    ensures { IsRead kinds.iridescence rules.iridescence_rules (material_handle material.now).document
        (extension_named (codes "KHR_materials_iridescence")
        (option_map (λ e. e.others) (material_handle material.now).json.extensions)) result }
{
    read_handle(
        alloc,
        material.document(),
        material.extension_value("KHR_materials_iridescence"),
    )
}

impl<'a, D: Records> Handle<'a, Iridescence, D> {
    /// The intensity of the film: `iridescenceFactor`, by default 0.
    pub fn iridescence_factor(&self) -> f64
        ensures { result ≡ (handle_of self.now).json.iridescence_factor }
    {
        self.json.iridescence_factor.value()
    }

    /// The texture of the intensity (in red): `iridescenceTexture`.
    pub fn iridescence_texture(&self) -> Option<Handle<'a, TextureInfo, D>>
        ensures { Follows (IsHandle (handle_of self.now).document)
            (handle_of self.now).json.iridescence_texture result }
    {
        part_of(self.document, &self.json.iridescence_texture)
    }

    /// The index of refraction of the film: `iridescenceIor`, by default 1.3.
    pub fn iridescence_ior(&self) -> f64
        ensures { result ≡ (handle_of self.now).json.iridescence_ior }
    {
        self.json.iridescence_ior.value()
    }

    /// The least thickness of the film, in nanometres: `iridescenceThicknessMinimum`, by default
    /// 100.
    pub fn iridescence_thickness_minimum(&self) -> f64
        ensures { result ≡ (handle_of self.now).json.iridescence_thickness_minimum }
    {
        self.json.iridescence_thickness_minimum.value()
    }

    /// The greatest thickness of the film, in nanometres: `iridescenceThicknessMaximum`, by default
    /// 400.
    pub fn iridescence_thickness_maximum(&self) -> f64
        ensures { result ≡ (handle_of self.now).json.iridescence_thickness_maximum }
    {
        self.json.iridescence_thickness_maximum.value()
    }

    /// The texture of the thickness, from the least to the greatest (in green):
    /// `iridescenceThicknessTexture`.
    pub fn iridescence_thickness_texture(&self) -> Option<Handle<'a, TextureInfo, D>>
        ensures { Follows (IsHandle (handle_of self.now).document)
            (handle_of self.now).json.iridescence_thickness_texture result }
    {
        part_of(self.document, &self.json.iridescence_thickness_texture)
    }
}

/// Reflections that are stretched, as those of brushed metal (the extension
/// `KHR_materials_anisotropy`) of a material.
pub fn anisotropy<'a, D: Records>(
    alloc: Global,
    material: &Material<'a, D>,
) -> Option<Result<Handle<'a, Anisotropy, D>, ExtensionFault>>
    ensures { IsRead kinds.anisotropy rules.anisotropy_rules (material_handle material.now).document
        (extension_named (codes "KHR_materials_anisotropy")
        (option_map (λ e. e.others) (material_handle material.now).json.extensions)) result }
{
    read_handle(
        alloc,
        material.document(),
        material.extension_value("KHR_materials_anisotropy"),
    )
}

impl<'a, D: Records> Handle<'a, Anisotropy, D> {
    /// How much they are stretched: `anisotropyStrength`, by default 0.
    pub fn anisotropy_strength(&self) -> f64
        ensures { result ≡ (handle_of self.now).json.anisotropy_strength }
    {
        self.json.anisotropy_strength.value()
    }

    /// Their direction, in radians from the tangent, counter-clockwise: `anisotropyRotation`, by
    /// default 0.
    pub fn anisotropy_rotation(&self) -> f64
        ensures { result ≡ (handle_of self.now).json.anisotropy_rotation }
    {
        self.json.anisotropy_rotation.value()
    }

    /// The texture of direction (in red and green) and strength (in blue): `anisotropyTexture`.
    pub fn anisotropy_texture(&self) -> Option<Handle<'a, TextureInfo, D>>
        ensures { Follows (IsHandle (handle_of self.now).document)
            (handle_of self.now).json.anisotropy_texture result }
    {
        part_of(self.document, &self.json.anisotropy_texture)
    }
}

/// How a volume parts the colours of light (the extension `KHR_materials_dispersion`): of a
/// material.
pub fn dispersion<'a, D: Records>(
    alloc: Global,
    material: &Material<'a, D>,
) -> Option<Result<Handle<'a, Dispersion, D>, ExtensionFault>>
    ensures { IsRead kinds.dispersion rules.dispersion_rules (material_handle material.now).document
        (extension_named (codes "KHR_materials_dispersion")
        (option_map (λ e. e.others) (material_handle material.now).json.extensions)) result }
{
    read_handle(
        alloc,
        material.document(),
        material.extension_value("KHR_materials_dispersion"),
    )
}

impl<'a, D: Records> Handle<'a, Dispersion, D> {
    /// The strength, as 20 divided by the Abbe number: `dispersion`, by default 0.
    pub fn dispersion(&self) -> f64
        ensures { result ≡ (handle_of self.now).json.dispersion }
    {
        self.json.dispersion.value()
    }
}

/// Light that is scattered as it goes through a surface, as through a leaf (the extension
/// `KHR_materials_diffuse_transmission`) of a material.
pub fn diffuse_transmission<'a, D: Records>(
    alloc: Global,
    material: &Material<'a, D>,
) -> Option<Result<Handle<'a, DiffuseTransmission, D>, ExtensionFault>>
    ensures { IsRead kinds.diffuse_transmission rules.diffuse_transmission_rules
        (material_handle material.now).document (extension_named (codes "KHR_materials_diffuse_transmission")
        (option_map (λ e. e.others) (material_handle material.now).json.extensions)) result }
{
    read_handle(
        alloc,
        material.document(),
        material.extension_value("KHR_materials_diffuse_transmission"),
    )
}

impl<'a, D: Records> Handle<'a, DiffuseTransmission, D> {
    /// The part of the light that goes through: `diffuseTransmissionFactor`, by default 0.
    pub fn diffuse_transmission_factor(&self) -> f64
        ensures { result ≡ (handle_of self.now).json.diffuse_transmission_factor }
    {
        self.json.diffuse_transmission_factor.value()
    }

    /// The texture of that part (in alpha): `diffuseTransmissionTexture`.
    pub fn diffuse_transmission_texture(&self) -> Option<Handle<'a, TextureInfo, D>>
        ensures { Follows (IsHandle (handle_of self.now).document)
            (handle_of self.now).json.diffuse_transmission_texture result }
    {
        part_of(self.document, &self.json.diffuse_transmission_texture)
    }

    /// The linear factors of the colour of that light, for red, green and blue:
    /// `diffuseTransmissionColorFactor`, by default 1 each.
    pub fn diffuse_transmission_color_factor(&self) -> [f64; 3]
        ensures { result ≡ (handle_of self.now).json.diffuse_transmission_color_factor }
    {
        self.json.diffuse_transmission_color_factor.values()
    }

    /// The texture of the colour (in red, green and blue): `diffuseTransmissionColorTexture`.
    pub fn diffuse_transmission_color_texture(&self) -> Option<Handle<'a, TextureInfo, D>>
        ensures { Follows (IsHandle (handle_of self.now).document)
            (handle_of self.now).json.diffuse_transmission_color_texture result }
    {
        part_of(self.document, &self.json.diffuse_transmission_color_texture)
    }
}
