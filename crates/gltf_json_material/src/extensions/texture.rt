//! The extensions that are known at the use of a texture.
ghost use Rattle.std.specs.Prelude.{IfOk};
ghost use Rattle.gltf_json_record.specs.Copy.{IsCopy};

use gltf_json_record::copy::Copies;
use gltf_json_record::error::Error;
use gltf_json_record::extras::Extras;
use gltf_json_record::lent::{Maybe, Unnamed};
use gltf_json_record::read::FromValue;
use gltf_json_record::{copy_record, read_record};
use serde_json::{Map, Value};
use std::alloc::{AllocError, Global};

/// How texture coordinates are moved, turned and scaled (the extension `KHR_texture_transform`).
#[derive(Debug, Drop)]
pub struct TextureTransform {
    /// The offset of the origin, as it stands: `offset`.
    pub offset: Option<Value>,
    /// The angle in radians, counter-clockwise, as it stands: `rotation`.
    pub rotation: Option<Value>,
    /// The factors by which the coordinates are scaled, as they stand: `scale`.
    pub scale: Option<Value>,
    /// The set of texture coordinates that is used in place of the one that the use of the texture
    /// names: `texCoord`.
    pub tex_coord: Option<u32>,
    /// What the application stores here: `extras`.
    pub extras: Extras,
}

impl TextureTransform {
    ghost use Rattle.gltf_json_material.specs.Textures.{texture_transform};

    /// A copy of the record, which shows what this one shows.
    #[tactic(auto, unfolding(crate::specs::Textures::texture_transform))]
    pub fn clone(&self, alloc: Global) -> Result<TextureTransform, AllocError>
        ensures { IfOk result (IsCopy texture_transform self.now) }
    {
        copy_record!(self, alloc; TextureTransform { tex_coord, } with {
            offset: Maybe,
            rotation: Maybe,
            scale: Maybe,
            extras: Maybe,
        })
    }
}

impl Copies for TextureTransform {
    fn copy(&self, alloc: Global) -> Result<TextureTransform, AllocError> {
        self.clone(alloc)
    }
}

impl FromValue for TextureTransform {
    ghost use Rattle.gltf_json_material.specs.Textures.{texture_transform};

    ghost kind = { texture_transform };

    #[tactic(auto, unfolding(crate::specs::Textures::texture_transform))]
    fn from_value(alloc: Global, value: &Value) -> Result<TextureTransform, Error> {
        read_record!(alloc, value; TextureTransform {
            offset: optional("offset"),
            rotation: optional("rotation"),
            scale: optional("scale"),
            tex_coord: optional("texCoord"),
            extras: optional("extras"),
        })
    }
}

/// The extensions at the use of a texture.
#[derive(Debug, Drop)]
pub struct Info {
    /// How the texture coordinates are moved, turned and scaled: `KHR_texture_transform`.
    pub texture_transform: Option<TextureTransform>,
    /// Every other member of `extensions`, as it stands.
    pub others: Map<String, Value>,
}

impl Info {
    ghost use Rattle.gltf_json_material.specs.Textures.{texture_info_extensions};

    /// A copy of the record, which shows what this one shows.
    #[tactic(auto, unfolding(crate::specs::Textures::texture_info_extensions))]
    pub fn clone(&self, alloc: Global) -> Result<Info, AllocError>
        ensures { IfOk result (IsCopy texture_info_extensions self.now) }
    {
        copy_record!(self, alloc; Info {} with {
            texture_transform: Maybe,
            others: Unnamed,
        })
    }
}

impl Copies for Info {
    fn copy(&self, alloc: Global) -> Result<Info, AllocError> {
        self.clone(alloc)
    }
}

impl FromValue for Info {
    ghost use Rattle.gltf_json_material.specs.Textures.{texture_info_extensions};

    ghost kind = { texture_info_extensions };

    #[tactic(auto, unfolding(crate::specs::Textures::texture_info_extensions))]
    fn from_value(alloc: Global, value: &Value) -> Result<Info, Error> {
        read_record!(alloc, value; Info {
            texture_transform: optional("KHR_texture_transform"),
            others: others("KHR_texture_transform"),
        })
    }
}
