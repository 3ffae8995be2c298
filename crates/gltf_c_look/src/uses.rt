//! Uses of textures (glTF 2.0, section 5.30), with their transformation (`KHR_texture_transform`).
ghost use Rattle.std.specs.Prelude.{◌≡◌};
ghost use Rattle.std.specs.Option.{option_copied};
ghost use Rattle.serde_json.specs.View.{view};
ghost use Rattle.gltf_c_look.specs.Uses.{no_use, shown_use, info_use, normal_use, occlusion_use};
ghost use Rattle.gltf_c_look.specs.Uses.{known_transform, transform_of, unread_transform};
ghost use Rattle.gltf_c_look.specs.Uses.{transform_in, numbers_member, number_member};
ghost use Rattle.gltf_c_look.specs.Uses.{whole_member, whole_32};

use crate::number::{NO_SCALE, number_else};
use gltf_c_scene::numbers::{NONE, numbers_else};
use gltf_json::Value;
use gltf_json::boxed::{Boxed, lent};
use gltf_json::material::{NormalTexture, OcclusionTexture};
use gltf_json::texture::Info;
use gltf_json_material::extensions::texture::TextureTransform;
use gltf_json_record::extensions::Others;
use gltf_numbers::defaults::{
    NORMAL_SCALE, OCCLUSION_STRENGTH, TEXTURE_OFFSET, TEXTURE_ROTATION, TEXTURE_SCALE,
};
use gltf_numbers::{number, numbers};

/// A use of a texture. C declares the same struct.
#[repr(C)]
#[derive(Clone, Copy, Drop)]
pub struct GltfTextureUse {
    /// The texture, or `NONE`; all else is then as where it is absent.
    pub texture: usize,
    /// The set of texture coordinates: that of the transformation where it has one.
    pub tex_coord: u32,
    /// 1 where there is a transformation, else 0.
    pub has_transform: u32,
    /// The scale of a normal texture, the strength of an occlusion texture, else 1.
    pub scale: f64,
    /// `offset` of the transformation.
    pub offset: [f64; 2],
    /// `rotation` of the transformation, in radians.
    pub rotation: f64,
    /// `scale` of the transformation.
    pub size: [f64; 2],
}

/// A transformation of texture coordinates, or what stands where there is none.
#[derive(Clone, Copy, Drop)]
pub(crate) struct Transform {
    is_there: u32,
    tex_coord: Option<u32>,
    offset: [f64; 2],
    rotation: f64,
    size: [f64; 2],
}

/// What stands where there is no transformation.
const NO_TRANSFORM: Transform = Transform {
    is_there: 0,
    tex_coord: None,
    offset: TEXTURE_OFFSET,
    rotation: TEXTURE_ROTATION,
    size: TEXTURE_SCALE,
};

/// What stands where no texture is named.
fn no_use() -> GltfTextureUse
    ensures { result ≡ no_use }
{
    shown_use(NONE, 0, NO_SCALE, NO_TRANSFORM)
}

fn shown_use(texture: usize, tex_coord: u32, scale: f64, transform: Transform) -> GltfTextureUse
    ensures { result ≡ shown_use texture tex_coord scale transform }
{
    let Transform {
        is_there,
        tex_coord: own,
        offset,
        rotation,
        size,
    } = transform;
    GltfTextureUse {
        texture,
        tex_coord: own.unwrap_or(tex_coord),
        has_transform: is_there,
        scale,
        offset,
        rotation,
        size,
    }
}

/// The use of a texture by a member that may be absent.
pub(crate) fn info_use(info: Option<&Info>) -> GltfTextureUse
    ensures { result ≡ info_use (option_copied info.entry) }
{
    match info {
        Some(info) => shown_use(
            info.index.value(),
            info.tex_coord,
            NO_SCALE,
            known_transform(info),
        ),
        None => no_use(),
    }
}

/// The transformation at a use of a texture whose record has one.
fn known_transform(info: &Info) -> Transform
    ensures { result ≡ known_transform info.now }
{
    match lent(&info.extensions) {
        Some(extensions) => match &extensions.texture_transform {
            Some(stated) => transform_of(stated),
            None => NO_TRANSFORM,
        },
        None => NO_TRANSFORM,
    }
}

fn transform_of(stated: &TextureTransform) -> Transform
    ensures { result ≡ transform_of stated.now }
{
    Transform {
        is_there: 1,
        tex_coord: stated.tex_coord,
        offset: numbers_else(&stated.offset, TEXTURE_OFFSET),
        rotation: number_else(stated.rotation.as_ref(), TEXTURE_ROTATION),
        size: numbers_else(&stated.scale, TEXTURE_SCALE),
    }
}

/// The use of a normal texture (glTF 2.0, section 5.20).
pub(crate) fn normal_use(member: Option<&NormalTexture>) -> GltfTextureUse
    ensures { result ≡ normal_use (option_copied member.entry) }
{
    match member {
        Some(normal) => shown_use(
            normal.index.value(),
            normal.tex_coord,
            number_else(normal.scale.as_ref(), NORMAL_SCALE),
            unread_transform(&normal.extensions),
        ),
        None => no_use(),
    }
}

/// The use of an occlusion texture (glTF 2.0, section 5.21).
pub(crate) fn occlusion_use(member: Option<&OcclusionTexture>) -> GltfTextureUse
    ensures { result ≡ occlusion_use (option_copied member.entry) }
{
    match member {
        Some(occlusion) => shown_use(
            occlusion.index.value(),
            occlusion.tex_coord,
            number_else(occlusion.strength.as_ref(), OCCLUSION_STRENGTH),
            unread_transform(&occlusion.extensions),
        ),
        None => no_use(),
    }
}

/// The transformation at a use of a texture whose record keeps its extensions as JSON.
fn unread_transform(extensions: &Option<Boxed<Others>>) -> Transform
    ensures { result ≡ unread_transform extensions.now }
{
    match lent(extensions) {
        Some(extensions) => match extensions.others.get("KHR_texture_transform") {
            Some(value) => transform_in(value),
            None => NO_TRANSFORM,
        },
        None => NO_TRANSFORM,
    }
}

/// The transformation that a JSON value is: it is there where that is an object.
fn transform_in(value: &Value) -> Transform
    ensures { result ≡ transform_in (view value.now) }
{
    if value.is_object() {
        Transform {
            is_there: 1,
            tex_coord: whole_member(value, "texCoord"),
            offset: numbers_member(value, "offset", TEXTURE_OFFSET),
            rotation: number_member(value, "rotation", TEXTURE_ROTATION),
            size: numbers_member(value, "scale", TEXTURE_SCALE),
        }
    } else {
        NO_TRANSFORM
    }
}

/// A member of an object that is a list of exactly `N` numbers; else the default.
fn numbers_member<const N: usize>(value: &Value, name: &str, default: [f64; N]) -> [f64; N]
    ensures { result ≡ numbers_member N name.now default.entry (view value.now) }
{
    let Some(member) = value.get(name) else {
        return default;
    };
    match numbers(member) {
        Some(numbers) => numbers,
        None => default,
    }
}

/// A member of an object that is a number; else the default.
fn number_member(value: &Value, name: &str, default: f64) -> f64
    ensures { result ≡ number_member name.now default (view value.now) }
{
    let Some(member) = value.get(name) else {
        return default;
    };
    match number(member) {
        Some(number) => number,
        None => default,
    }
}

/// A member of an object that is a whole number of 32 bits.
fn whole_member(value: &Value, name: &str) -> Option<u32>
    ensures { result ≡ whole_member name.now (view value.now) }
{
    whole_32(value.get(name)?.as_u64()?)
}

/// A number, where it has at most 32 bits.
fn whole_32(number: u64) -> Option<u32>
    ensures { result ≡ whole_32 number }
{
    if number < 4_294_967_296 {
        Some(number as u32)
    } else {
        None
    }
}
