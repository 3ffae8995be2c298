//! Other images of textures.
ghost use Rattle.std.specs.Prelude.{◌≡◌};
ghost use Rattle.gltf_c_extensions.specs.Textures.{IsBasisu, IsWebp, shown_texture_source};

use crate::reading::{Missing, ShownOf, shown_at};
use gltf_c_scene::kind::Kind;
use gltf_c_scene::numbers::index_or_none;
use gltf_extension_records::texture::TextureSource;
use gltf_json::Root;
use std::alloc::Global;

/// An image of a texture in another format. C declares the same struct.
#[repr(C)]
#[derive(Clone, Copy, Drop)]
pub struct GltfTextureSource {
    /// The image, or `NONE`.
    pub image: usize,
    /// 0.
    pub reserved: [usize; 3],
}

/// The image of the texture at an index in a format of Basis Universal (`KHR_texture_basisu`).
pub fn basisu(alloc: Global, root: &Root, index: usize) -> Result<GltfTextureSource, Missing>
    ensures { IsBasisu index root.now result }
{
    shown_at::<TextureSource, GltfTextureSource>(
        alloc,
        root,
        Kind::Textures,
        index,
        "KHR_texture_basisu",
    )
}

/// The image of the texture at an index in the format WebP (`EXT_texture_webp`).
pub fn webp(alloc: Global, root: &Root, index: usize) -> Result<GltfTextureSource, Missing>
    ensures { IsWebp index root.now result }
{
    shown_at::<TextureSource, GltfTextureSource>(
        alloc,
        root,
        Kind::Textures,
        index,
        "EXT_texture_webp",
    )
}

impl ShownOf<TextureSource> for GltfTextureSource {
    ghost shown = { shown_texture_source };

    fn shown_of(it: &TextureSource) -> GltfTextureSource {
        GltfTextureSource {
            image: index_or_none(it.source),
            reserved: [0; 3],
        }
    }
}
