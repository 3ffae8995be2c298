//! The extensions that are known at a material.
ghost use Rattle.std.specs.Prelude.{IfOk};
ghost use Rattle.gltf_json_record.specs.Copy.{IsCopy};

use crate::texture::Info;
use gltf_json_record::copy::Copies;
use gltf_json_record::error::Error;
use gltf_json_record::extras::Extras;
use gltf_json_record::lent::{Maybe, Unnamed};
use gltf_json_record::read::{FromValue, object};
use gltf_json_record::{copy_record, read_record};
use serde_json::{Map, Value};
use std::alloc::{AllocError, Global};

/// A colour, the strength of its reflections and their glossiness (the extension
/// `KHR_materials_pbrSpecularGlossiness`).
#[derive(Debug, Drop)]
pub struct PbrSpecularGlossiness {
    /// The factors of the diffuse colour, as they stand: `diffuseFactor`.
    pub diffuse_factor: Option<Value>,
    /// The texture of the diffuse colour: `diffuseTexture`.
    pub diffuse_texture: Option<Info>,
    /// The factors of the specular colour, as they stand: `specularFactor`.
    pub specular_factor: Option<Value>,
    /// The factor of the glossiness, as it stands: `glossinessFactor`.
    pub glossiness_factor: Option<Value>,
    /// The texture of specular colour and glossiness: `specularGlossinessTexture`.
    pub specular_glossiness_texture: Option<Info>,
    /// What the application stores here: `extras`.
    pub extras: Extras,
}

impl PbrSpecularGlossiness {
    ghost use Rattle.gltf_json_material.specs.MaterialExtensions.{pbr_specular_glossiness};

    /// A copy of the record, which shows what this one shows.
    #[tactic(auto, unfolding(crate::specs::MaterialExtensions::pbr_specular_glossiness))]
    pub fn clone(&self, alloc: Global) -> Result<PbrSpecularGlossiness, AllocError>
        ensures { IfOk result (IsCopy pbr_specular_glossiness self.now) }
    {
        copy_record!(self, alloc; PbrSpecularGlossiness {} with {
            diffuse_factor: Maybe,
            diffuse_texture: Maybe,
            specular_factor: Maybe,
            glossiness_factor: Maybe,
            specular_glossiness_texture: Maybe,
            extras: Maybe,
        })
    }
}

impl Copies for PbrSpecularGlossiness {
    fn copy(&self, alloc: Global) -> Result<PbrSpecularGlossiness, AllocError> {
        self.clone(alloc)
    }
}

impl FromValue for PbrSpecularGlossiness {
    ghost use Rattle.gltf_json_material.specs.MaterialExtensions.{pbr_specular_glossiness};

    ghost kind = { pbr_specular_glossiness };

    #[tactic(auto, unfolding(crate::specs::MaterialExtensions::pbr_specular_glossiness))]
    fn from_value(alloc: Global, value: &Value) -> Result<PbrSpecularGlossiness, Error> {
        read_record!(alloc, value; PbrSpecularGlossiness {
            diffuse_factor: optional("diffuseFactor"),
            diffuse_texture: optional("diffuseTexture"),
            specular_factor: optional("specularFactor"),
            glossiness_factor: optional("glossinessFactor"),
            specular_glossiness_texture: optional("specularGlossinessTexture"),
            extras: optional("extras"),
        })
    }
}

/// That a material shows its colour with no light on it (the extension `KHR_materials_unlit`). It
/// has no members.
#[derive(Debug, Drop)]
pub struct Unlit {}

impl Unlit {
    ghost use Rattle.gltf_json_material.specs.MaterialExtensions.{unlit};

    /// A copy of the record, which shows what this one shows.
    #[tactic(auto, unfolding(crate::specs::MaterialExtensions::unlit))]
    pub fn clone(&self, _alloc: Global) -> Result<Unlit, AllocError>
        ensures { IfOk result (IsCopy unlit self.now) }
    {
        Ok(Unlit {})
    }
}

impl Copies for Unlit {
    fn copy(&self, alloc: Global) -> Result<Unlit, AllocError> {
        self.clone(alloc)
    }
}

impl FromValue for Unlit {
    ghost use Rattle.gltf_json_material.specs.MaterialExtensions.{unlit};

    ghost kind = { unlit };

    #[tactic(auto, unfolding(crate::specs::MaterialExtensions::unlit))]
    fn from_value(alloc: Global, value: &Value) -> Result<Unlit, Error> {
        object(alloc, value)?;
        Ok(Unlit {})
    }
}

/// How much light goes through a surface (the extension `KHR_materials_transmission`).
#[derive(Debug, Drop)]
pub struct Transmission {
    /// The part of the light that goes through, as it stands: `transmissionFactor`.
    pub transmission_factor: Option<Value>,
    /// The texture of that part: `transmissionTexture`.
    pub transmission_texture: Option<Info>,
    /// What the application stores here: `extras`.
    pub extras: Extras,
}

impl Transmission {
    ghost use Rattle.gltf_json_material.specs.MaterialExtensions.{transmission};

    /// A copy of the record, which shows what this one shows.
    #[tactic(auto, unfolding(crate::specs::MaterialExtensions::transmission))]
    pub fn clone(&self, alloc: Global) -> Result<Transmission, AllocError>
        ensures { IfOk result (IsCopy transmission self.now) }
    {
        copy_record!(self, alloc; Transmission {} with {
            transmission_factor: Maybe,
            transmission_texture: Maybe,
            extras: Maybe,
        })
    }
}

impl Copies for Transmission {
    fn copy(&self, alloc: Global) -> Result<Transmission, AllocError> {
        self.clone(alloc)
    }
}

impl FromValue for Transmission {
    ghost use Rattle.gltf_json_material.specs.MaterialExtensions.{transmission};

    ghost kind = { transmission };

    #[tactic(auto, unfolding(crate::specs::MaterialExtensions::transmission))]
    fn from_value(alloc: Global, value: &Value) -> Result<Transmission, Error> {
        read_record!(alloc, value; Transmission {
            transmission_factor: optional("transmissionFactor"),
            transmission_texture: optional("transmissionTexture"),
            extras: optional("extras"),
        })
    }
}

/// The index of refraction of a material (the extension `KHR_materials_ior`).
#[derive(Debug, Drop)]
pub struct Ior {
    /// The index of refraction, as it stands: `ior`.
    pub ior: Option<Value>,
    /// What the application stores here: `extras`.
    pub extras: Extras,
}

impl Ior {
    ghost use Rattle.gltf_json_material.specs.MaterialExtensions.{ior};

    /// A copy of the record, which shows what this one shows.
    #[tactic(auto, unfolding(crate::specs::MaterialExtensions::ior))]
    pub fn clone(&self, alloc: Global) -> Result<Ior, AllocError>
        ensures { IfOk result (IsCopy ior self.now) }
    {
        copy_record!(self, alloc; Ior {} with {
            ior: Maybe,
            extras: Maybe,
        })
    }
}

impl Copies for Ior {
    fn copy(&self, alloc: Global) -> Result<Ior, AllocError> {
        self.clone(alloc)
    }
}

impl FromValue for Ior {
    ghost use Rattle.gltf_json_material.specs.MaterialExtensions.{ior};

    ghost kind = { ior };

    #[tactic(auto, unfolding(crate::specs::MaterialExtensions::ior))]
    fn from_value(alloc: Global, value: &Value) -> Result<Ior, Error> {
        read_record!(alloc, value; Ior {
            ior: optional("ior"),
            extras: optional("extras"),
        })
    }
}

/// How strong the light is that a surface gives off (the extension
/// `KHR_materials_emissive_strength`).
#[derive(Debug, Drop)]
pub struct EmissiveStrength {
    /// The factor of that light, as it stands: `emissiveStrength`.
    pub emissive_strength: Option<Value>,
    /// What the application stores here: `extras`.
    pub extras: Extras,
}

impl EmissiveStrength {
    ghost use Rattle.gltf_json_material.specs.MaterialExtensions.{emissive_strength};

    /// A copy of the record, which shows what this one shows.
    #[tactic(auto, unfolding(crate::specs::MaterialExtensions::emissive_strength))]
    pub fn clone(&self, alloc: Global) -> Result<EmissiveStrength, AllocError>
        ensures { IfOk result (IsCopy emissive_strength self.now) }
    {
        copy_record!(self, alloc; EmissiveStrength {} with {
            emissive_strength: Maybe,
            extras: Maybe,
        })
    }
}

impl Copies for EmissiveStrength {
    fn copy(&self, alloc: Global) -> Result<EmissiveStrength, AllocError> {
        self.clone(alloc)
    }
}

impl FromValue for EmissiveStrength {
    ghost use Rattle.gltf_json_material.specs.MaterialExtensions.{emissive_strength};

    ghost kind = { emissive_strength };

    #[tactic(auto, unfolding(crate::specs::MaterialExtensions::emissive_strength))]
    fn from_value(alloc: Global, value: &Value) -> Result<EmissiveStrength, Error> {
        read_record!(alloc, value; EmissiveStrength {
            emissive_strength: optional("emissiveStrength"),
            extras: optional("extras"),
        })
    }
}

/// The volume below a surface (the extension `KHR_materials_volume`).
#[derive(Debug, Drop)]
pub struct Volume {
    /// The thickness of the volume, in the units of the mesh, as it stands: `thicknessFactor`.
    pub thickness_factor: Option<Value>,
    /// The texture of the thickness: `thicknessTexture`.
    pub thickness_texture: Option<Info>,
    /// How far light goes in the volume on average before it meets a particle, in the units of the
    /// world, as it stands: `attenuationDistance`.
    pub attenuation_distance: Option<Value>,
    /// The colour that white light has at that distance, as it stands: `attenuationColor`.
    pub attenuation_color: Option<Value>,
    /// What the application stores here: `extras`.
    pub extras: Extras,
}

impl Volume {
    ghost use Rattle.gltf_json_material.specs.MaterialExtensions.{volume};

    /// A copy of the record, which shows what this one shows.
    #[tactic(auto, unfolding(crate::specs::MaterialExtensions::volume))]
    pub fn clone(&self, alloc: Global) -> Result<Volume, AllocError>
        ensures { IfOk result (IsCopy volume self.now) }
    {
        copy_record!(self, alloc; Volume {} with {
            thickness_factor: Maybe,
            thickness_texture: Maybe,
            attenuation_distance: Maybe,
            attenuation_color: Maybe,
            extras: Maybe,
        })
    }
}

impl Copies for Volume {
    fn copy(&self, alloc: Global) -> Result<Volume, AllocError> {
        self.clone(alloc)
    }
}

impl FromValue for Volume {
    ghost use Rattle.gltf_json_material.specs.MaterialExtensions.{volume};

    ghost kind = { volume };

    #[tactic(auto, unfolding(crate::specs::MaterialExtensions::volume))]
    fn from_value(alloc: Global, value: &Value) -> Result<Volume, Error> {
        read_record!(alloc, value; Volume {
            thickness_factor: optional("thicknessFactor"),
            thickness_texture: optional("thicknessTexture"),
            attenuation_distance: optional("attenuationDistance"),
            attenuation_color: optional("attenuationColor"),
            extras: optional("extras"),
        })
    }
}

/// The strength and colour of the reflections of a surface (the extension
/// `KHR_materials_specular`).
#[derive(Debug, Drop)]
pub struct Specular {
    /// The strength, as it stands: `specularFactor`.
    pub specular_factor: Option<Value>,
    /// The texture of the strength: `specularTexture`.
    pub specular_texture: Option<Info>,
    /// The factors of the colour, as they stand: `specularColorFactor`.
    pub specular_color_factor: Option<Value>,
    /// The texture of the colour: `specularColorTexture`.
    pub specular_color_texture: Option<Info>,
    /// What the application stores here: `extras`.
    pub extras: Extras,
}

impl Specular {
    ghost use Rattle.gltf_json_material.specs.MaterialExtensions.{specular};

    /// A copy of the record, which shows what this one shows.
    #[tactic(auto, unfolding(crate::specs::MaterialExtensions::specular))]
    pub fn clone(&self, alloc: Global) -> Result<Specular, AllocError>
        ensures { IfOk result (IsCopy specular self.now) }
    {
        copy_record!(self, alloc; Specular {} with {
            specular_factor: Maybe,
            specular_texture: Maybe,
            specular_color_factor: Maybe,
            specular_color_texture: Maybe,
            extras: Maybe,
        })
    }
}

impl Copies for Specular {
    fn copy(&self, alloc: Global) -> Result<Specular, AllocError> {
        self.clone(alloc)
    }
}

impl FromValue for Specular {
    ghost use Rattle.gltf_json_material.specs.MaterialExtensions.{specular};

    ghost kind = { specular };

    #[tactic(auto, unfolding(crate::specs::MaterialExtensions::specular))]
    fn from_value(alloc: Global, value: &Value) -> Result<Specular, Error> {
        read_record!(alloc, value; Specular {
            specular_factor: optional("specularFactor"),
            specular_texture: optional("specularTexture"),
            specular_color_factor: optional("specularColorFactor"),
            specular_color_texture: optional("specularColorTexture"),
            extras: optional("extras"),
        })
    }
}

/// The extensions of a material.
#[derive(Debug, Drop)]
pub struct Material {
    /// Diffuse and specular colour and glossiness: `KHR_materials_pbrSpecularGlossiness`.
    pub pbr_specular_glossiness: Option<PbrSpecularGlossiness>,
    /// That the colour is shown with no light on it: `KHR_materials_unlit`.
    pub unlit: Option<Unlit>,
    /// How much light goes through: `KHR_materials_transmission`.
    pub transmission: Option<Transmission>,
    /// The index of refraction: `KHR_materials_ior`.
    pub ior: Option<Ior>,
    /// How strong the light is that is given off: `KHR_materials_emissive_strength`.
    pub emissive_strength: Option<EmissiveStrength>,
    /// The volume below the surface: `KHR_materials_volume`.
    pub volume: Option<Volume>,
    /// The strength and colour of the reflections: `KHR_materials_specular`.
    pub specular: Option<Specular>,
    /// Every other member of `extensions`, as it stands.
    pub others: Map<String, Value>,
}

impl Material {
    ghost use Rattle.gltf_json_material.specs.MaterialExtensions.{material_extensions};

    /// A copy of the record, which shows what this one shows.
    #[tactic(auto, unfolding(crate::specs::MaterialExtensions::material_extensions))]
    pub fn clone(&self, alloc: Global) -> Result<Material, AllocError>
        ensures { IfOk result (IsCopy material_extensions self.now) }
    {
        copy_record!(self, alloc; Material {} with {
            pbr_specular_glossiness: Maybe,
            unlit: Maybe,
            transmission: Maybe,
            ior: Maybe,
            emissive_strength: Maybe,
            volume: Maybe,
            specular: Maybe,
            others: Unnamed,
        })
    }
}

impl Copies for Material {
    fn copy(&self, alloc: Global) -> Result<Material, AllocError> {
        self.clone(alloc)
    }
}

impl FromValue for Material {
    ghost use Rattle.gltf_json_material.specs.MaterialExtensions.{material_extensions};

    ghost kind = { material_extensions };

    #[tactic(auto, unfolding(crate::specs::MaterialExtensions::material_extensions))]
    fn from_value(alloc: Global, value: &Value) -> Result<Material, Error> {
        read_record!(alloc, value; Material {
            pbr_specular_glossiness: optional("KHR_materials_pbrSpecularGlossiness"),
            unlit: optional("KHR_materials_unlit"),
            transmission: optional("KHR_materials_transmission"),
            ior: optional("KHR_materials_ior"),
            emissive_strength: optional("KHR_materials_emissive_strength"),
            volume: optional("KHR_materials_volume"),
            specular: optional("KHR_materials_specular"),
            others: others(
                "KHR_materials_pbrSpecularGlossiness",
                "KHR_materials_unlit",
                "KHR_materials_transmission",
                "KHR_materials_ior",
                "KHR_materials_emissive_strength",
                "KHR_materials_volume",
                "KHR_materials_specular"
            ),
        })
    }
}
