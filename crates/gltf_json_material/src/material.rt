//! Materials (glTF 2.0, section 5.19, "Material").
ghost use Rattle.std.specs.Prelude.{IfOk};
ghost use Rattle.gltf_json_record.specs.Copy.{IsCopy};

use crate::extensions;
use crate::texture::Info;
use gltf_json_record::boxed::Boxed;
use gltf_json_record::copy::Copies;
use gltf_json_record::error::Error;
use gltf_json_record::extensions::Others;
use gltf_json_record::extras::Extras;
use gltf_json_record::index::Index;
use gltf_json_record::lent::Maybe;
use gltf_json_record::read::FromValue;
use gltf_json_record::validation::{Checked, Code};
use gltf_json_record::{copy_record, kinds, read_record};
use serde_json::Value;
use std::alloc::{AllocError, Global};

/// What the alpha of a base colour means (glTF 2.0, section 5.19, `material.alphaMode`).
#[derive(Clone, Copy, Debug, PartialEq, Eq)]
pub enum AlphaMode {
    /// It is ignored: the word `OPAQUE`.
    Opaque,
    /// A point is shown where its alpha is at least the cutoff, and then wholly: the word `MASK`.
    Mask,
    /// It is laid over what is behind: the word `BLEND`.
    Blend,
}

impl AlphaMode {
    ghost use Rattle.std.specs.Prelude.{◌≡◌, Some};
    ghost use Rattle.serde_json.specs.Data.{string};
    ghost use Rattle.gltf_json_record.specs.declared.validation.Checked.TheVariants.{Valid};
    ghost use Rattle.gltf_json_material.specs.Codes.{alpha_mode};

    /// The string that stands for it in JSON (glTF 2.0, section 5.19, `material.alphaMode`), as
    /// `MASK`.
    pub fn as_str(&self) -> &'static str
        ensures { alpha_mode (string result.now) ≡ Some (Valid self.now) }
    {
        match self {
            AlphaMode::Opaque => "OPAQUE",
            AlphaMode::Mask => "MASK",
            AlphaMode::Blend => "BLEND",
        }
    }
}

impl Code for AlphaMode {
    ghost use Rattle.gltf_json_material.specs.Codes.{alpha_mode};

    ghost reads = { alpha_mode };

    fn read(value: &Value) -> Option<Checked<AlphaMode>> {
        Some(match value.as_str()? {
            "OPAQUE" => Checked::Valid(AlphaMode::Opaque),
            "MASK" => Checked::Valid(AlphaMode::Mask),
            "BLEND" => Checked::Valid(AlphaMode::Blend),
            _ => Checked::Invalid,
        })
    }
}

/// The colour, metalness and roughness of a material (glTF 2.0, section 5.22, "Material PBR
/// Metallic Roughness").
#[derive(Debug, Drop)]
pub struct PbrMetallicRoughness {
    /// The factors of the base colour, as they stand: `baseColorFactor`.
    pub base_color_factor: Option<Value>,
    /// The texture of the base colour: `baseColorTexture`.
    pub base_color_texture: Option<Info>,
    /// The factor of the metalness, as it stands: `metallicFactor`.
    pub metallic_factor: Option<Value>,
    /// The factor of the roughness, as it stands: `roughnessFactor`.
    pub roughness_factor: Option<Value>,
    /// The texture of metalness and roughness: `metallicRoughnessTexture`.
    pub metallic_roughness_texture: Option<Info>,
    /// The extensions: `extensions`. None is known here.
    pub extensions: Option<Boxed<Others>>,
    /// What the application stores here: `extras`.
    pub extras: Extras,
}

impl PbrMetallicRoughness {
    ghost use Rattle.gltf_json_material.specs.Materials.{pbr_metallic_roughness};

    /// A copy of the record, which shows what this one shows.
    #[tactic(auto, unfolding(crate::specs::Materials::pbr_metallic_roughness))]
    pub fn clone(&self, alloc: Global) -> Result<PbrMetallicRoughness, AllocError>
        ensures { IfOk result (IsCopy pbr_metallic_roughness self.now) }
    {
        copy_record!(self, alloc; PbrMetallicRoughness {} with {
            base_color_factor: Maybe,
            base_color_texture: Maybe,
            metallic_factor: Maybe,
            roughness_factor: Maybe,
            metallic_roughness_texture: Maybe,
            extensions: Maybe,
            extras: Maybe,
        })
    }
}

impl Copies for PbrMetallicRoughness {
    fn copy(&self, alloc: Global) -> Result<PbrMetallicRoughness, AllocError> {
        self.clone(alloc)
    }
}

/// The rows of `pbrMetallicRoughness`, for a macro that reads a record by them:
/// `pbr_metallic_roughness_rows!(read_record!(alloc, value))`.
#[macro_export]
macro_rules! pbr_metallic_roughness_rows {
    ($read:ident!($($from:ident),*)) => {
        $read!($($from),*; PbrMetallicRoughness {
            base_color_factor: optional("baseColorFactor"),
            base_color_texture: optional("baseColorTexture"),
            metallic_factor: optional("metallicFactor"),
            roughness_factor: optional("roughnessFactor"),
            metallic_roughness_texture: optional("metallicRoughnessTexture"),
            extensions: optional("extensions"),
            extras: optional("extras"),
        })
    };
}

impl FromValue for PbrMetallicRoughness {
    ghost use Rattle.gltf_json_material.specs.Materials.{pbr_metallic_roughness};

    ghost kind = { pbr_metallic_roughness };

    #[tactic(auto, unfolding(crate::specs::Materials::pbr_metallic_roughness))]
    fn from_value(alloc: Global, value: &Value) -> Result<PbrMetallicRoughness, Error> {
        pbr_metallic_roughness_rows!(read_record!(alloc, value))
    }
}

/// The use of a normal texture (glTF 2.0, section 5.20, "Material Normal Texture Info").
#[derive(Debug, Drop)]
pub struct NormalTexture {
    /// The texture: `index`.
    pub index: Index<kinds::Texture>,
    /// The factor of each normal's x and y, as it stands: `scale`.
    pub scale: Option<Value>,
    /// The set of texture coordinates, as in the attribute `TEXCOORD_n`: `texCoord`. It is 0 where
    /// absent.
    pub tex_coord: u32,
    /// The extensions: `extensions`. None is known here.
    pub extensions: Option<Boxed<Others>>,
    /// What the application stores here: `extras`.
    pub extras: Extras,
}

impl NormalTexture {
    ghost use Rattle.gltf_json_material.specs.Materials.{normal_texture};

    /// A copy of the record, which shows what this one shows.
    #[tactic(auto, unfolding(crate::specs::Materials::normal_texture))]
    pub fn clone(&self, alloc: Global) -> Result<NormalTexture, AllocError>
        ensures { IfOk result (IsCopy normal_texture self.now) }
    {
        copy_record!(self, alloc; NormalTexture { index, tex_coord, } with {
            scale: Maybe,
            extensions: Maybe,
            extras: Maybe,
        })
    }
}

impl Copies for NormalTexture {
    fn copy(&self, alloc: Global) -> Result<NormalTexture, AllocError> {
        self.clone(alloc)
    }
}

/// The rows of `normalTexture`, for a macro that reads a record by them:
/// `normal_texture_rows!(read_record!(alloc, value))`.
#[macro_export]
macro_rules! normal_texture_rows {
    ($read:ident!($($from:ident),*)) => {
        $read!($($from),*; NormalTexture {
            index: required("index"),
            scale: optional("scale"),
            tex_coord: or_default("texCoord", 0),
            extensions: optional("extensions"),
            extras: optional("extras"),
        })
    };
}

impl FromValue for NormalTexture {
    ghost use Rattle.gltf_json_material.specs.Materials.{normal_texture};

    ghost kind = { normal_texture };

    #[tactic(auto, unfolding(crate::specs::Materials::normal_texture))]
    fn from_value(alloc: Global, value: &Value) -> Result<NormalTexture, Error> {
        normal_texture_rows!(read_record!(alloc, value))
    }
}

/// The use of an occlusion texture (glTF 2.0, section 5.21, "Material Occlusion Texture Info").
#[derive(Debug, Drop)]
pub struct OcclusionTexture {
    /// The texture: `index`.
    pub index: Index<kinds::Texture>,
    /// How much of the occlusion is applied, as it stands: `strength`.
    pub strength: Option<Value>,
    /// The set of texture coordinates, as in the attribute `TEXCOORD_n`: `texCoord`. It is 0 where
    /// absent.
    pub tex_coord: u32,
    /// The extensions: `extensions`. None is known here.
    pub extensions: Option<Boxed<Others>>,
    /// What the application stores here: `extras`.
    pub extras: Extras,
}

impl OcclusionTexture {
    ghost use Rattle.gltf_json_material.specs.Materials.{occlusion_texture};

    /// A copy of the record, which shows what this one shows.
    #[tactic(auto, unfolding(crate::specs::Materials::occlusion_texture))]
    pub fn clone(&self, alloc: Global) -> Result<OcclusionTexture, AllocError>
        ensures { IfOk result (IsCopy occlusion_texture self.now) }
    {
        copy_record!(self, alloc; OcclusionTexture { index, tex_coord, } with {
            strength: Maybe,
            extensions: Maybe,
            extras: Maybe,
        })
    }
}

impl Copies for OcclusionTexture {
    fn copy(&self, alloc: Global) -> Result<OcclusionTexture, AllocError> {
        self.clone(alloc)
    }
}

/// The rows of `occlusionTexture`, for a macro that reads a record by them:
/// `occlusion_texture_rows!(read_record!(alloc, value))`.
#[macro_export]
macro_rules! occlusion_texture_rows {
    ($read:ident!($($from:ident),*)) => {
        $read!($($from),*; OcclusionTexture {
            index: required("index"),
            strength: optional("strength"),
            tex_coord: or_default("texCoord", 0),
            extensions: optional("extensions"),
            extras: optional("extras"),
        })
    };
}

impl FromValue for OcclusionTexture {
    ghost use Rattle.gltf_json_material.specs.Materials.{occlusion_texture};

    ghost kind = { occlusion_texture };

    #[tactic(auto, unfolding(crate::specs::Materials::occlusion_texture))]
    fn from_value(alloc: Global, value: &Value) -> Result<OcclusionTexture, Error> {
        occlusion_texture_rows!(read_record!(alloc, value))
    }
}

/// How a surface looks (glTF 2.0, section 5.19, "Material").
#[derive(Debug, Drop)]
pub struct Material {
    /// The least alpha that is shown in the mode `MASK`, as it stands: `alphaCutoff`.
    pub alpha_cutoff: Option<Value>,
    /// What alpha means: `alphaMode`. It is `OPAQUE` where absent.
    pub alpha_mode: Checked<AlphaMode>,
    /// Whether both sides of a surface are shown: `doubleSided`. It is false where absent.
    pub double_sided: bool,
    /// The colour, metalness and roughness: `pbrMetallicRoughness`.
    pub pbr_metallic_roughness: Option<Boxed<PbrMetallicRoughness>>,
    /// The texture of the normals: `normalTexture`.
    pub normal_texture: Option<Boxed<NormalTexture>>,
    /// The texture of the occlusion: `occlusionTexture`.
    pub occlusion_texture: Option<Boxed<OcclusionTexture>>,
    /// The texture of the light that the surface gives off: `emissiveTexture`.
    pub emissive_texture: Option<Info>,
    /// The factors of that light, as they stand: `emissiveFactor`.
    pub emissive_factor: Option<Value>,
    /// A name given by the user: `name`.
    pub name: Option<String>,
    /// The extensions: `extensions`.
    pub extensions: Option<Boxed<extensions::material::Material>>,
    /// What the application stores here: `extras`.
    pub extras: Extras,
}

impl Material {
    ghost use Rattle.gltf_json_material.specs.Materials.{material};

    /// A copy of the record, which shows what this one shows.
    #[tactic(auto, unfolding(crate::specs::Materials::material))]
    pub fn clone(&self, alloc: Global) -> Result<Material, AllocError>
        ensures { IfOk result (IsCopy material self.now) }
    {
        copy_record!(self, alloc; Material { alpha_mode, double_sided, } with {
            alpha_cutoff: Maybe,
            pbr_metallic_roughness: Maybe,
            normal_texture: Maybe,
            occlusion_texture: Maybe,
            emissive_texture: Maybe,
            emissive_factor: Maybe,
            name: Maybe,
            extensions: Maybe,
            extras: Maybe,
        })
    }
}

impl Copies for Material {
    fn copy(&self, alloc: Global) -> Result<Material, AllocError> {
        self.clone(alloc)
    }
}

/// The rows of a material, for a macro that reads a record by them:
/// `material_rows!(read_record!(alloc, value))`.
#[macro_export]
macro_rules! material_rows {
    ($read:ident!($($from:ident),*)) => {
        $read!($($from),*; Material {
            alpha_cutoff: optional("alphaCutoff"),
            alpha_mode: or_default(
                "alphaMode",
                Checked::Valid($crate::material::AlphaMode::Opaque)
            ),
            double_sided: or_default("doubleSided", false),
            pbr_metallic_roughness: optional("pbrMetallicRoughness"),
            normal_texture: optional("normalTexture"),
            occlusion_texture: optional("occlusionTexture"),
            emissive_texture: optional("emissiveTexture"),
            emissive_factor: optional("emissiveFactor"),
            name: optional("name"),
            extensions: optional("extensions"),
            extras: optional("extras"),
        })
    };
}

impl FromValue for Material {
    ghost use Rattle.gltf_json_material.specs.Materials.{material};

    ghost kind = { material };

    #[tactic(auto, unfolding(crate::specs::Materials::material))]
    fn from_value(alloc: Global, value: &Value) -> Result<Material, Error> {
        material_rows!(read_record!(alloc, value))
    }
}
