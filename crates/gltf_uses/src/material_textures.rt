//! The uses of textures in a material.
ghost use Rattle.std.specs.Prelude.{◌≡◌, ◌++◌, IfOk, OnOk, Some};
ghost use Rattle.std.specs.Option.{option_copied};
ghost use Rattle.gltf_json_record.specs.Place.{path_text};
ghost use Rattle.gltf_json_record.specs.Pointer.{pointer_text};
ghost use Rattle.gltf_uses.specs.Textures.{in_extensions, in_metallic_roughness, in_specular};
ghost use Rattle.gltf_uses.specs.Textures.{in_specular_glossiness, slot_places, textures_of};
ghost use Rattle.gltf_uses.specs.Textures.{use_at, uses_in};

use gltf_json_material::extensions::material as extended;
use gltf_json_material::material::{
    Material, NormalTexture, OcclusionTexture, PbrMetallicRoughness,
};
use gltf_json_material::texture::Info;
use gltf_json_record::boxed::lent;
use std::alloc::{AllocError, Global};
use std::fmt;

/// The member of a material that names a texture. Its text joins the names of members by points, as
/// that of a `Path` from the material on: `pbrMetallicRoughness.baseColorTexture`.
#[derive(Clone, Copy, Debug, PartialEq, Eq)]
pub enum Slot {
    /// `baseColorTexture` of `pbrMetallicRoughness`.
    BaseColor,
    /// `metallicRoughnessTexture` of `pbrMetallicRoughness`.
    MetallicRoughness,
    /// `normalTexture`.
    Normal,
    /// `occlusionTexture`.
    Occlusion,
    /// `emissiveTexture`.
    Emissive,
    /// `diffuseTexture` of the extension `KHR_materials_pbrSpecularGlossiness`.
    Diffuse,
    /// `specularGlossinessTexture` of the extension `KHR_materials_pbrSpecularGlossiness`.
    SpecularGlossiness,
    /// `transmissionTexture` of the extension `KHR_materials_transmission`.
    Transmission,
    /// `thicknessTexture` of the extension `KHR_materials_volume`.
    Thickness,
    /// `specularTexture` of the extension `KHR_materials_specular`.
    Specular,
    /// `specularColorTexture` of the extension `KHR_materials_specular`.
    SpecularColor,
}

impl Slot {
    /// The JSON Pointer of the member, from the material on (RFC 6901):
    /// `/pbrMetallicRoughness/baseColorTexture`.
    pub fn pointer(self) -> &'static str
        ensures { result.now ≡ pointer_text (slot_places self) }
    {
        match self {
            Slot::BaseColor => "/pbrMetallicRoughness/baseColorTexture",
            Slot::MetallicRoughness => "/pbrMetallicRoughness/metallicRoughnessTexture",
            Slot::Normal => "/normalTexture",
            Slot::Occlusion => "/occlusionTexture",
            Slot::Emissive => "/emissiveTexture",
            Slot::Diffuse => "/extensions/KHR_materials_pbrSpecularGlossiness/diffuseTexture",
            Slot::SpecularGlossiness => {
                "/extensions/KHR_materials_pbrSpecularGlossiness/specularGlossinessTexture"
            }
            Slot::Transmission => "/extensions/KHR_materials_transmission/transmissionTexture",
            Slot::Thickness => "/extensions/KHR_materials_volume/thicknessTexture",
            Slot::Specular => "/extensions/KHR_materials_specular/specularTexture",
            Slot::SpecularColor => "/extensions/KHR_materials_specular/specularColorTexture",
        }
    }

    fn text(self) -> &'static str
        ensures { result.now ≡ path_text (slot_places self) }
    {
        match self {
            Slot::BaseColor => "pbrMetallicRoughness.baseColorTexture",
            Slot::MetallicRoughness => "pbrMetallicRoughness.metallicRoughnessTexture",
            Slot::Normal => "normalTexture",
            Slot::Occlusion => "occlusionTexture",
            Slot::Emissive => "emissiveTexture",
            Slot::Diffuse => "extensions.KHR_materials_pbrSpecularGlossiness.diffuseTexture",
            Slot::SpecularGlossiness => {
                "extensions.KHR_materials_pbrSpecularGlossiness.specularGlossinessTexture"
            }
            Slot::Transmission => "extensions.KHR_materials_transmission.transmissionTexture",
            Slot::Thickness => "extensions.KHR_materials_volume.thicknessTexture",
            Slot::Specular => "extensions.KHR_materials_specular.specularTexture",
            Slot::SpecularColor => "extensions.KHR_materials_specular.specularColorTexture",
        }
    }
}

impl fmt::Display for Slot {
    ghost output = { λ slot. Some (path_text (slot_places slot)) };

    fn fmt<W: fmt::Write>(&self, f: &mut fmt::Formatter<W>) -> fmt::Result {
        f.write_str(self.text())
    }
}

/// The use of a texture in a material.
#[derive(Clone, Copy, Debug, PartialEq, Eq)]
pub struct TextureUse {
    /// The member that names the texture.
    pub slot: Slot,
    /// The index of the texture in `textures` of the root: `index`.
    pub texture: usize,
    /// The number of the set of texture coordinates, `TEXCOORD_` of the primitive: `texCoord`, 0
    /// where that is absent. The extension `KHR_texture_transform` may name another.
    pub tex_coord: u32,
}

/// What names a texture and a set of texture coordinates.
trait Named {
    ghost use Rattle.std.specs.Prelude.{ℕ};

    ghost texture: { Self → ℕ };

    ghost tex_coord: { Self → ℕ };

    fn texture(&self) -> usize
        ensures { result ≡ texture self.now };

    fn tex_coord(&self) -> u32
        ensures { result ≡ tex_coord self.now };
}

impl Named for Info {
    ghost texture = { λ r. r.index };

    ghost tex_coord = { λ r. r.tex_coord };

    fn texture(&self) -> usize {
        self.index.value()
    }

    fn tex_coord(&self) -> u32 {
        self.tex_coord
    }
}

impl Named for NormalTexture {
    ghost texture = { λ r. r.index };

    ghost tex_coord = { λ r. r.tex_coord };

    fn texture(&self) -> usize {
        self.index.value()
    }

    fn tex_coord(&self) -> u32 {
        self.tex_coord
    }
}

impl Named for OcclusionTexture {
    ghost texture = { λ r. r.index };

    ghost tex_coord = { λ r. r.tex_coord };

    fn texture(&self) -> usize {
        self.index.value()
    }

    fn tex_coord(&self) -> u32 {
        self.tex_coord
    }
}

/// All uses of textures in a material, those in its extensions included, each with the member that
/// names the texture: in the order of the slots (glTF 2.0, sections 3.9 and 5.19). A texture that
/// several members name is given for each.
///
/// Fails where there is no memory.
pub fn textures(alloc: Global, material: &Material) -> Result<Vec<TextureUse>, AllocError>
    ensures { IfOk result (λ uses. uses.items ≡ textures_of material.now) }
{
    let mut uses = Vec::new(alloc);
    add_metallic_roughness(&mut uses, lent(&material.pbr_metallic_roughness))?;
    add(&mut uses, Slot::Normal, lent(&material.normal_texture))?;
    add(
        &mut uses,
        Slot::Occlusion,
        lent(&material.occlusion_texture),
    )?;
    add(
        &mut uses,
        Slot::Emissive,
        material.emissive_texture.as_ref(),
    )?;
    add_extensions(&mut uses, lent(&material.extensions))?;
    Ok(uses)
}

// Adds the use at one member, where that is there.
fn add<T: Named>(
    uses: &mut Vec<TextureUse>,
    slot: Slot,
    member: Option<&T>,
) -> Result<(), AllocError>
    ensures { OnOk result (uses.new.items
        ≡ uses.old.items ++ use_at T.texture T.tex_coord slot (option_copied member.entry)) }
{
    if let Some(named) = member {
        uses.push(TextureUse {
            slot,
            texture: named.texture(),
            tex_coord: named.tex_coord(),
        })?;
    }
    Ok(())
}

fn add_metallic_roughness(
    uses: &mut Vec<TextureUse>,
    member: Option<&PbrMetallicRoughness>,
) -> Result<(), AllocError>
    ensures { OnOk result (uses.new.items
        ≡ uses.old.items ++ uses_in in_metallic_roughness (option_copied member.entry)) }
{
    let Some(record) = member else {
        return Ok(());
    };
    add(uses, Slot::BaseColor, record.base_color_texture.as_ref())?;
    add(
        uses,
        Slot::MetallicRoughness,
        record.metallic_roughness_texture.as_ref(),
    )
}

fn add_specular_glossiness(
    uses: &mut Vec<TextureUse>,
    member: Option<&extended::PbrSpecularGlossiness>,
) -> Result<(), AllocError>
    ensures { OnOk result (uses.new.items
        ≡ uses.old.items ++ uses_in in_specular_glossiness (option_copied member.entry)) }
{
    let Some(record) = member else {
        return Ok(());
    };
    add(uses, Slot::Diffuse, record.diffuse_texture.as_ref())?;
    add(
        uses,
        Slot::SpecularGlossiness,
        record.specular_glossiness_texture.as_ref(),
    )
}

fn add_specular(
    uses: &mut Vec<TextureUse>,
    member: Option<&extended::Specular>,
) -> Result<(), AllocError>
    ensures { OnOk result (uses.new.items
        ≡ uses.old.items ++ uses_in in_specular (option_copied member.entry)) }
{
    let Some(record) = member else {
        return Ok(());
    };
    add(uses, Slot::Specular, record.specular_texture.as_ref())?;
    add(
        uses,
        Slot::SpecularColor,
        record.specular_color_texture.as_ref(),
    )
}

fn add_extensions(
    uses: &mut Vec<TextureUse>,
    member: Option<&extended::Material>,
) -> Result<(), AllocError>
    ensures { OnOk result (uses.new.items
        ≡ uses.old.items ++ uses_in in_extensions (option_copied member.entry)) }
{
    let Some(record) = member else {
        return Ok(());
    };
    add_specular_glossiness(uses, record.pbr_specular_glossiness.as_ref())?;
    if let Some(transmission) = &record.transmission {
        add(
            uses,
            Slot::Transmission,
            transmission.transmission_texture.as_ref(),
        )?;
    }
    if let Some(volume) = &record.volume {
        add(uses, Slot::Thickness, volume.thickness_texture.as_ref())?;
    }
    add_specular(uses, record.specular.as_ref())
}
