//! The textures of normals and of occlusion (glTF 2.0, section 3.9.3, "Additional Textures").

ghost use Rattle.std.specs.Prelude.{◌≡◌};
ghost use Rattle.std.specs.Option.{option_copied};
ghost use Rattle.gltf_handles.specs.Members.{unknown_extensions, extension_named};
ghost use Rattle.gltf_look.specs.Textures.{IsTexture};

use gltf_handles::inner::Inner;
use gltf_handles::member::unknown_extensions;
use gltf_json::boxed::lent;
use gltf_json::{Map, Value, material};
use gltf_look::texture::Texture;
use gltf_rules::{Records, Valid};

/// The use of a normal texture (glTF 2.0, section 5.20, "Material Normal Texture Info").
#[derive_where(Clone, Copy)]
#[derive_where(Debug; D)]
pub struct NormalTexture<'a, D: Records = Valid> {
    pub(super) inner: Inner<'a, material::NormalTexture, D>,
}

impl<'a, D: Records> NormalTexture<'a, D> {
    ghost use Rattle.gltf_material.specs.Parts.{normal_handle};

    /// The factor of each normal's x and y, as it stands: `scale`, a number. Where it is absent, 1
    /// is meant.
    pub fn scale(&self) -> Option<&'a Value>
        ensures { option_copied result ≡ (normal_handle self.now).json.scale }
    {
        self.inner.json.scale.as_ref()
    }

    /// The set of texture coordinates, as in the attribute `TEXCOORD_n`: `texCoord`, 0 where that
    /// is absent.
    pub fn tex_coord(&self) -> u32
        ensures { result ≡ (normal_handle self.now).json.tex_coord }
    {
        self.inner.json.tex_coord
    }

    /// The texture: `index`.
    pub fn texture(&self) -> Texture<'a, D>
        ensures { IsTexture (normal_handle self.now).document
            (normal_handle self.now).json.index result }
    {
        Texture::new(self.inner.document, self.inner.json.index.value())
    }

    /// The extensions, none of which is known here; None where there is no member `extensions`.
    pub fn extensions(&self) -> Option<&'a Map<String, Value>>
        ensures { option_copied result
            ≡ unknown_extensions (normal_handle self.now).json.extensions }
    {
        unknown_extensions(&self.inner.json.extensions)
    }

    /// The document that it is of.
    pub fn document(&self) -> &'a D
        ensures { D.root result.now ≡ (normal_handle self.now).document }
    {
        self.inner.document
    }

    /// The extension of this name.
    pub fn extension_value(&self, name: &str) -> Option<&'a Value>
        ensures { option_copied result
            ≡ extension_named name.now
            (unknown_extensions (normal_handle self.now).json.extensions) }
    {
        self.extensions()?.get(name)
    }

    /// What the application stores here: `extras`.
    pub fn extras(&self) -> Option<&'a Value>
        ensures { option_copied result ≡ (normal_handle self.now).json.extras }
    {
        lent(&self.inner.json.extras)
    }
}

/// The use of an occlusion texture (glTF 2.0, section 5.21, "Material Occlusion Texture Info").
#[derive_where(Clone, Copy)]
#[derive_where(Debug; D)]
pub struct OcclusionTexture<'a, D: Records = Valid> {
    pub(super) inner: Inner<'a, material::OcclusionTexture, D>,
}

impl<'a, D: Records> OcclusionTexture<'a, D> {
    ghost use Rattle.gltf_material.specs.Parts.{occlusion_handle};

    /// How much of the occlusion is applied, as it stands: `strength`, a number. Where it is
    /// absent, 1 is meant.
    pub fn strength(&self) -> Option<&'a Value>
        ensures { option_copied result ≡ (occlusion_handle self.now).json.strength }
    {
        self.inner.json.strength.as_ref()
    }

    /// The set of texture coordinates, as in the attribute `TEXCOORD_n`: `texCoord`, 0 where that
    /// is absent.
    pub fn tex_coord(&self) -> u32
        ensures { result ≡ (occlusion_handle self.now).json.tex_coord }
    {
        self.inner.json.tex_coord
    }

    /// The texture: `index`.
    pub fn texture(&self) -> Texture<'a, D>
        ensures { IsTexture (occlusion_handle self.now).document
            (occlusion_handle self.now).json.index result }
    {
        Texture::new(self.inner.document, self.inner.json.index.value())
    }

    /// The extensions, none of which is known here; None where there is no member `extensions`.
    pub fn extensions(&self) -> Option<&'a Map<String, Value>>
        ensures { option_copied result
            ≡ unknown_extensions (occlusion_handle self.now).json.extensions }
    {
        unknown_extensions(&self.inner.json.extensions)
    }

    /// The document that it is of.
    pub fn document(&self) -> &'a D
        ensures { D.root result.now ≡ (occlusion_handle self.now).document }
    {
        self.inner.document
    }

    /// The extension of this name.
    pub fn extension_value(&self, name: &str) -> Option<&'a Value>
        ensures { option_copied result
            ≡ extension_named name.now
            (unknown_extensions (occlusion_handle self.now).json.extensions) }
    {
        self.extensions()?.get(name)
    }

    /// What the application stores here: `extras`.
    pub fn extras(&self) -> Option<&'a Value>
        ensures { option_copied result ≡ (occlusion_handle self.now).json.extras }
    {
        lent(&self.inner.json.extras)
    }
}
