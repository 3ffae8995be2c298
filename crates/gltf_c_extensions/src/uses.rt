//! Uses of textures in extensions, by the struct that other uses have.
ghost use Rattle.std.specs.Prelude.{◌≡◌};
ghost use Rattle.gltf_c_extensions.specs.Uses.{transform_of, moved_use, no_use};
ghost use Rattle.gltf_c_extensions.specs.Uses.{info_use, normal_use};

use gltf_c_look::number::NO_SCALE;
use gltf_c_look::uses::GltfTextureUse;
use gltf_c_scene::numbers::NONE;
use gltf_extension_records::defaults::{TEXTURE_OFFSET, TEXTURE_ROTATION, TEXTURE_SCALE};
use gltf_extension_records::texture::{
    NormalTextureInfo, TextureInfo, TextureInfoExtensions, TextureTransform,
};

/// The transformation among the extensions of a use.
fn transform_of(extensions: Option<TextureInfoExtensions>) -> Option<TextureTransform>
    ensures { result ≡ transform_of extensions }
{
    extensions?.texture_transform
}

/// A use of a texture, with its transformation where it has one.
fn moved_use(
    texture: usize,
    tex_coord: u32,
    scale: f64,
    transform: Option<TextureTransform>,
) -> GltfTextureUse
    ensures { result ≡ moved_use texture tex_coord scale transform }
{
    match transform {
        Some(it) => GltfTextureUse {
            texture,
            tex_coord: it.tex_coord.unwrap_or(tex_coord),
            has_transform: 1,
            scale,
            offset: it.offset.values(),
            rotation: it.rotation.value(),
            size: it.scale.values(),
        },
        None => GltfTextureUse {
            texture,
            tex_coord,
            has_transform: 0,
            scale,
            offset: TEXTURE_OFFSET,
            rotation: TEXTURE_ROTATION,
            size: TEXTURE_SCALE,
        },
    }
}

/// What stands where no texture is named.
fn no_use() -> GltfTextureUse
    ensures { result ≡ no_use }
{
    moved_use(NONE, 0, NO_SCALE, None)
}

/// The use of a texture by a member that may be absent (glTF 2.0, section 5.30).
pub(crate) fn info_use(info: Option<TextureInfo>) -> GltfTextureUse
    ensures { result ≡ info_use info }
{
    match info {
        Some(it) => moved_use(
            it.index.value(),
            it.tex_coord,
            NO_SCALE,
            transform_of(it.extensions),
        ),
        None => no_use(),
    }
}

/// The use of a normal texture by a member that may be absent (section 5.20).
pub(crate) fn normal_use(info: Option<NormalTextureInfo>) -> GltfTextureUse
    ensures { result ≡ normal_use info }
{
    match info {
        Some(it) => moved_use(
            it.index.value(),
            it.tex_coord,
            it.scale.value(),
            transform_of(it.extensions),
        ),
        None => no_use(),
    }
}
