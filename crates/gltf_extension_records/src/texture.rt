//! Uses of textures in extensions, how their coordinates are transformed, and other images of a
//! texture.

use crate::defaults::{NORMAL_SCALE, TEXTURE_OFFSET, TEXTURE_ROTATION, TEXTURE_SCALE};
use crate::members;
use crate::number::{Number, Numbers};
use gltf_json_record::error::Error;
use gltf_json_record::index::Index;
use gltf_json_record::read::FromValue;
use gltf_json_record::{kinds, read_record};
use gltf_validation::counts::Counts;
use gltf_validation::location::Location;
use gltf_validation::report::Report;
use gltf_validation::validate::Validate;
use serde_json::Value;
use std::alloc::{AllocError, Global};

/// How texture coordinates are scaled, then turned, then moved (the extension
/// `KHR_texture_transform`).
#[derive(Clone, Copy, Debug)]
pub struct TextureTransform {
    /// The offset of the origin, in widths and heights of the texture: `offset`, by default 0 each.
    pub offset: Numbers<2>,
    /// The angle in radians, counter-clockwise round the origin: `rotation`, by default 0.
    pub rotation: Number,
    /// The factors by which the coordinates are scaled: `scale`, by default 1 each.
    pub scale: Numbers<2>,
    /// The set of texture coordinates that is used in place of the one that the use of the texture
    /// names: `texCoord`.
    pub tex_coord: Option<u32>,
}

impl FromValue for TextureTransform {
    ghost use Rattle.gltf_extension_records.specs.Textures.{texture_transform};

    ghost kind = { texture_transform };

    #[tactic(auto, unfolding(crate::specs::Textures::texture_transform))]
    fn from_value(alloc: Global, value: &Value) -> Result<TextureTransform, Error> {
        read_record!(alloc, value; TextureTransform {
            offset: or_default("offset", Numbers::new(TEXTURE_OFFSET)),
            rotation: or_default("rotation", Number::new(TEXTURE_ROTATION)),
            scale: or_default("scale", Numbers::new(TEXTURE_SCALE)),
            tex_coord: optional("texCoord"),
        })
    }
}

impl Validate for TextureTransform {
    ghost use Rattle.gltf_validation.specs.Rules.{Nothing};

    ghost rules = { λ _ _. Nothing };

    fn validate(
        &self,
        _counts: &Counts,
        _location: &Location<'_>,
        _report: &mut Report,
    ) -> Result<(), AllocError> {
        Ok(())
    }
}

/// The extensions at the use of a texture.
#[derive(Clone, Copy, Debug)]
pub struct TextureInfoExtensions {
    /// How the texture coordinates are transformed: `KHR_texture_transform`.
    pub texture_transform: Option<TextureTransform>,
}

impl FromValue for TextureInfoExtensions {
    ghost use Rattle.gltf_extension_records.specs.Textures.{texture_info_extensions};

    ghost kind = { texture_info_extensions };

    #[tactic(auto, unfolding(crate::specs::Textures::texture_info_extensions))]
    fn from_value(alloc: Global, value: &Value) -> Result<TextureInfoExtensions, Error> {
        read_record!(alloc, value; TextureInfoExtensions {
            texture_transform: optional("KHR_texture_transform"),
        })
    }
}

/// The use of a texture (glTF 2.0, section 5.30, "Texture Info").
#[derive(Clone, Copy, Debug)]
pub struct TextureInfo {
    /// The texture: `index`.
    pub index: Index<kinds::Texture>,
    /// The set of texture coordinates, as in the attribute `TEXCOORD_n`: `texCoord`, by default 0.
    pub tex_coord: u32,
    /// The extensions: `extensions`.
    pub extensions: Option<TextureInfoExtensions>,
}

impl FromValue for TextureInfo {
    ghost use Rattle.gltf_extension_records.specs.Textures.{texture_info};

    ghost kind = { texture_info };

    #[tactic(auto, unfolding(crate::specs::Textures::texture_info))]
    fn from_value(alloc: Global, value: &Value) -> Result<TextureInfo, Error> {
        read_record!(alloc, value; TextureInfo {
            index: required("index"),
            tex_coord: or_default("texCoord", 0),
            extensions: optional("extensions"),
        })
    }
}

impl Validate for TextureInfo {
    ghost use Rattle.gltf_extension_records.specs.Rules.{info_rules};

    ghost rules = { λ c r. info_rules c r };

    fn validate(
        &self,
        counts: &Counts,
        location: &Location<'_>,
        report: &mut Report,
    ) -> Result<(), AllocError> {
        members!(self, counts, location, report; {
            index: "index",
        })
    }
}

/// The use of a normal texture (glTF 2.0, section 5.20, "Material Normal Texture Info").
#[derive(Clone, Copy, Debug)]
pub struct NormalTextureInfo {
    /// The texture: `index`.
    pub index: Index<kinds::Texture>,
    /// The set of texture coordinates, as in the attribute `TEXCOORD_n`: `texCoord`, by default 0.
    pub tex_coord: u32,
    /// The factor of each normal's x and y: `scale`, by default 1.
    pub scale: Number,
    /// The extensions: `extensions`.
    pub extensions: Option<TextureInfoExtensions>,
}

impl FromValue for NormalTextureInfo {
    ghost use Rattle.gltf_extension_records.specs.Textures.{normal_texture_info};

    ghost kind = { normal_texture_info };

    #[tactic(auto, unfolding(crate::specs::Textures::normal_texture_info))]
    fn from_value(alloc: Global, value: &Value) -> Result<NormalTextureInfo, Error> {
        read_record!(alloc, value; NormalTextureInfo {
            index: required("index"),
            tex_coord: or_default("texCoord", 0),
            scale: or_default("scale", Number::new(NORMAL_SCALE)),
            extensions: optional("extensions"),
        })
    }
}

impl Validate for NormalTextureInfo {
    ghost use Rattle.gltf_extension_records.specs.Rules.{normal_info_rules};

    ghost rules = { λ c r. normal_info_rules c r };

    fn validate(
        &self,
        counts: &Counts,
        location: &Location<'_>,
        report: &mut Report,
    ) -> Result<(), AllocError> {
        members!(self, counts, location, report; {
            index: "index",
        })
    }
}

/// An image of a texture in another format (the extensions `KHR_texture_basisu` and
/// `EXT_texture_webp`).
#[derive(Clone, Copy, Debug)]
pub struct TextureSource {
    /// The image in that format: `source`.
    pub source: Option<Index<kinds::Image>>,
}

impl FromValue for TextureSource {
    ghost use Rattle.gltf_extension_records.specs.Textures.{texture_source};

    ghost kind = { texture_source };

    #[tactic(auto, unfolding(crate::specs::Textures::texture_source))]
    fn from_value(alloc: Global, value: &Value) -> Result<TextureSource, Error> {
        read_record!(alloc, value; TextureSource {
            source: optional("source"),
        })
    }
}

impl Validate for TextureSource {
    ghost use Rattle.gltf_extension_records.specs.Rules.{source_rules};

    ghost rules = { λ c r. source_rules c r };

    fn validate(
        &self,
        counts: &Counts,
        location: &Location<'_>,
        report: &mut Report,
    ) -> Result<(), AllocError> {
        members!(self, counts, location, report; {
            source: "source",
        })
    }
}
