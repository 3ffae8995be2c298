//! Uses of textures, how their coordinates are transformed, and other images of textures.
ghost use Rattle.std.specs.Prelude.{◌≡◌, codes};
ghost use Rattle.std.specs.Option.{option_map, option_and_then};
ghost use Rattle.gltf_handles.specs.Members.{unknown_extensions, extension_named, Follows};
ghost use Rattle.gltf_look.specs.Images.{IsImage};
ghost use Rattle.gltf_look.specs.Textures.{texture_handle, IsTexture};
ghost use Rattle.gltf_material.specs.Parts.{normal_handle, occlusion_handle};
ghost use Rattle.gltf_extension_records.specs.Textures.{texture_source, texture_transform};
ghost use Rattle.gltf_extension_records.specs.Rules.{source_rules};
ghost use Rattle.gltf_validation.specs.Rules.{Nothing};
ghost use Rattle.gltf_extensions.specs.Handles.{handle_of, IsRead};

use crate::fault::ExtensionFault;
use crate::handle::Handle;
use crate::reading::read_handle;
use gltf_extension_records::texture::{
    NormalTextureInfo, TextureInfo, TextureSource, TextureTransform,
};
use gltf_look::image::Image;
use gltf_look::texture::Texture;
use gltf_material::material::{NormalTexture, OcclusionTexture};
use gltf_rules::Records;
use std::alloc::Global;

/// An image of a texture in the formats of Basis Universal (the extension `KHR_texture_basisu`).
/// The texture's own `source` is the image for those who do not know the extension.
pub fn basisu<'a, D: Records>(
    alloc: Global,
    texture: &Texture<'a, D>,
) -> Option<Result<Handle<'a, TextureSource, D>, ExtensionFault>>
    ensures { IsRead texture_source source_rules (texture_handle texture.now).document
        (extension_named (codes "KHR_texture_basisu")
        (unknown_extensions (texture_handle texture.now).json.extensions)) result }
{
    read_handle(
        alloc,
        texture.document(),
        texture.extension_value("KHR_texture_basisu"),
    )
}

/// An image of a texture in the format WebP (the extension `EXT_texture_webp`). The texture's own
/// `source` is the image for those who do not know the extension.
pub fn webp<'a, D: Records>(
    alloc: Global,
    texture: &Texture<'a, D>,
) -> Option<Result<Handle<'a, TextureSource, D>, ExtensionFault>>
    ensures { IsRead texture_source source_rules (texture_handle texture.now).document
        (extension_named (codes "EXT_texture_webp")
        (unknown_extensions (texture_handle texture.now).json.extensions)) result }
{
    read_handle(
        alloc,
        texture.document(),
        texture.extension_value("EXT_texture_webp"),
    )
}

/// How the coordinates of a normal texture are transformed (the extension `KHR_texture_transform`;
/// at other uses of textures the loader knows it).
pub fn normal_texture_transform<'a, D: Records>(
    alloc: Global,
    normal: &NormalTexture<'a, D>,
) -> Option<Result<Handle<'a, TextureTransform, D>, ExtensionFault>>
    ensures { IsRead texture_transform (λ _ _. Nothing) (normal_handle normal.now).document
        (extension_named (codes "KHR_texture_transform")
        (unknown_extensions (normal_handle normal.now).json.extensions)) result }
{
    read_handle(
        alloc,
        normal.document(),
        normal.extension_value("KHR_texture_transform"),
    )
}

/// How the coordinates of an occlusion texture are transformed (the extension
/// `KHR_texture_transform`).
pub fn occlusion_texture_transform<'a, D: Records>(
    alloc: Global,
    occlusion: &OcclusionTexture<'a, D>,
) -> Option<Result<Handle<'a, TextureTransform, D>, ExtensionFault>>
    ensures { IsRead texture_transform (λ _ _. Nothing) (occlusion_handle occlusion.now).document
        (extension_named (codes "KHR_texture_transform")
        (unknown_extensions (occlusion_handle occlusion.now).json.extensions)) result }
{
    read_handle(
        alloc,
        occlusion.document(),
        occlusion.extension_value("KHR_texture_transform"),
    )
}

impl<'a, D: Records> Handle<'a, TextureSource, D> {
    /// The image: `source`.
    pub fn source(&self) -> Option<Image<'a, D>>
        ensures { Follows (IsImage (handle_of self.now).document)
            (handle_of self.now).json.source result }
    {
        let index = self.json.source?;
        Some(Image::new(self.document, index.value()))
    }
}

impl<'a, D: Records> Handle<'a, TextureInfo, D> {
    /// The texture: `index`.
    pub fn texture(&self) -> Texture<'a, D>
        ensures { IsTexture (handle_of self.now).document (handle_of self.now).json.index result }
    {
        Texture::new(self.document, self.json.index.value())
    }

    /// The set of texture coordinates, as in the attribute `TEXCOORD_n`: `texCoord`, by default 0.
    pub fn tex_coord(&self) -> u32
        ensures { result ≡ (handle_of self.now).json.tex_coord }
    {
        self.json.tex_coord
    }

    /// How the texture coordinates are transformed: the extension `KHR_texture_transform`.
    pub fn texture_transform(&self) -> Option<TextureTransform>
        ensures { result ≡ option_and_then (λ e. e.texture_transform)
            (handle_of self.now).json.extensions }
    {
        self.json.extensions?.texture_transform
    }
}

impl<'a, D: Records> Handle<'a, NormalTextureInfo, D> {
    /// The texture: `index`.
    pub fn texture(&self) -> Texture<'a, D>
        ensures { IsTexture (handle_of self.now).document (handle_of self.now).json.index result }
    {
        Texture::new(self.document, self.json.index.value())
    }

    /// The set of texture coordinates, as in the attribute `TEXCOORD_n`: `texCoord`, by default 0.
    pub fn tex_coord(&self) -> u32
        ensures { result ≡ (handle_of self.now).json.tex_coord }
    {
        self.json.tex_coord
    }

    /// The factor of each normal's x and y: `scale`, by default 1.
    pub fn scale(&self) -> f64
        ensures { result ≡ (handle_of self.now).json.scale }
    {
        self.json.scale.value()
    }

    /// How the texture coordinates are transformed: the extension `KHR_texture_transform`.
    pub fn texture_transform(&self) -> Option<TextureTransform>
        ensures { result ≡ option_and_then (λ e. e.texture_transform)
            (handle_of self.now).json.extensions }
    {
        self.json.extensions?.texture_transform
    }
}
