//! The models of a surface's colour: metalness and roughness (glTF 2.0, section 3.9.2,
//! "Metallic-Roughness Material"), or reflections and glossiness.

ghost use Rattle.std.specs.Prelude.{◌≡◌, unwrap_or, ⊤};
ghost use Rattle.std.specs.Option.{option_copied};
ghost use Rattle.gltf_handles.specs.Members.{unknown_extensions, extension_named, Follows};
ghost use Rattle.gltf_material.specs.Defaults.{default_pbr_metallic_roughness};
ghost use Rattle.gltf_material.specs.Textures.{IsInfo};
ghost use Rattle.gltf_validation.specs.Documents.{counts_of};
ghost use Rattle.gltf_validation.specs.Materials.{pbr_metallic_roughness_rules};
ghost use Rattle.gltf_validation.specs.Rules.{Hold, Hold-prop};

use crate::texture::Info;
use gltf_handles::inner::Inner;
use gltf_handles::member::unknown_extensions;
use gltf_json::boxed::lent;
use gltf_json::extensions::material as extended;
use gltf_json::{Map, Value, material};
use gltf_rules::{Records, Valid};
use std::alloc::AllocError;

/// The base colour, metalness and roughness of a material (glTF 2.0, section 5.22, "Material PBR
/// Metallic Roughness"). Where the material has no such member, the handle has no record: its
/// getters give what they give where a member is absent.
#[derive_where(Debug; D)]
pub struct PbrMetallicRoughness<'a, D: Records = Valid> {
    pub(super) document: &'a D,
    pub(super) json: Option<&'a material::PbrMetallicRoughness>,
    ghost holds: { Hold (pbr_metallic_roughness_rules (counts_of (D.root document.now))
        (unwrap_or (option_copied json) default_pbr_metallic_roughness)) } by { Hold-prop
            (pbr_metallic_roughness_rules (counts_of (D.root document.now))
            (unwrap_or (option_copied json) default_pbr_metallic_roughness)) },
}

impl<'a, D: Records> Copy for PbrMetallicRoughness<'a, D> {}

impl<'a, D: Records> Clone for PbrMetallicRoughness<'a, D> {
    ghost is_clone = { λ x y. y ≡ x };

    ghost is_infallible = { λ _. ⊤ };

    fn clone(&self) -> Result<Self, AllocError> {
        Ok(*self)
    }
}

impl<'a, D: Records> PbrMetallicRoughness<'a, D> {
    ghost use Rattle.gltf_material.specs.Parts.{pbr_handle};

    /// The factors of the base colour, as they stand: `baseColorFactor`, four numbers for red,
    /// green, blue and alpha. Where they are absent, ones are meant.
    pub fn base_color_factor(&self) -> Option<&'a Value>
        ensures { option_copied result ≡ (pbr_handle self.now).json.base_color_factor }
    {
        self.json?.base_color_factor.as_ref()
    }

    /// The texture of the base colour: `baseColorTexture`.
    pub fn base_color_texture(&self) -> Option<Info<'a, D>>
        ensures { Follows (IsInfo (pbr_handle self.now).document)
            (pbr_handle self.now).json.base_color_texture result }
    {
        Info::of(self.document, &self.json?.base_color_texture)
    }

    /// The factor of the metalness, as it stands: `metallicFactor`, a number. Where it is absent, 1
    /// is meant.
    pub fn metallic_factor(&self) -> Option<&'a Value>
        ensures { option_copied result ≡ (pbr_handle self.now).json.metallic_factor }
    {
        self.json?.metallic_factor.as_ref()
    }

    /// The factor of the roughness, as it stands: `roughnessFactor`, a number. Where it is absent,
    /// 1 is meant.
    pub fn roughness_factor(&self) -> Option<&'a Value>
        ensures { option_copied result ≡ (pbr_handle self.now).json.roughness_factor }
    {
        self.json?.roughness_factor.as_ref()
    }

    /// The texture of metalness (in blue) and roughness (in green): `metallicRoughnessTexture`.
    pub fn metallic_roughness_texture(&self) -> Option<Info<'a, D>>
        ensures { Follows (IsInfo (pbr_handle self.now).document)
            (pbr_handle self.now).json.metallic_roughness_texture result }
    {
        Info::of(self.document, &self.json?.metallic_roughness_texture)
    }

    /// The extensions, none of which is known here; None where there is no member `extensions`.
    pub fn extensions(&self) -> Option<&'a Map<String, Value>>
        ensures { option_copied result
            ≡ unknown_extensions (pbr_handle self.now).json.extensions }
    {
        unknown_extensions(&self.json?.extensions)
    }

    /// The extension of this name.
    pub fn extension_value(&self, name: &str) -> Option<&'a Value>
        ensures { option_copied result
            ≡ extension_named name.now
            (unknown_extensions (pbr_handle self.now).json.extensions) }
    {
        self.extensions()?.get(name)
    }

    /// What the application stores here: `extras`.
    pub fn extras(&self) -> Option<&'a Value>
        ensures { option_copied result ≡ (pbr_handle self.now).json.extras }
    {
        lent(&self.json?.extras)
    }
}

/// The diffuse and specular colours and the glossiness of a material (the extension
/// `KHR_materials_pbrSpecularGlossiness`).
#[derive_where(Clone, Copy)]
#[derive_where(Debug; D)]
pub struct PbrSpecularGlossiness<'a, D: Records = Valid> {
    pub(super) inner: Inner<'a, extended::PbrSpecularGlossiness, D>,
}

impl<'a, D: Records> PbrSpecularGlossiness<'a, D> {
    ghost use Rattle.gltf_material.specs.Parts.{glossiness_handle};

    /// The factors of the diffuse colour, as they stand: `diffuseFactor`, four numbers for red,
    /// green, blue and alpha. Where they are absent, ones are meant.
    pub fn diffuse_factor(&self) -> Option<&'a Value>
        ensures { option_copied result ≡ (glossiness_handle self.now).json.diffuse_factor }
    {
        self.inner.json.diffuse_factor.as_ref()
    }

    /// The texture of the diffuse colour: `diffuseTexture`.
    pub fn diffuse_texture(&self) -> Option<Info<'a, D>>
        ensures { Follows (IsInfo (glossiness_handle self.now).document)
            (glossiness_handle self.now).json.diffuse_texture result }
    {
        Info::of(self.inner.document, &self.inner.json.diffuse_texture)
    }

    /// The factors of the specular colour, as they stand: `specularFactor`, three numbers for red,
    /// green and blue. Where they are absent, ones are meant.
    pub fn specular_factor(&self) -> Option<&'a Value>
        ensures { option_copied result ≡ (glossiness_handle self.now).json.specular_factor }
    {
        self.inner.json.specular_factor.as_ref()
    }

    /// The factor of the glossiness, as it stands: `glossinessFactor`, a number. Where it is
    /// absent, 1 is meant.
    pub fn glossiness_factor(&self) -> Option<&'a Value>
        ensures { option_copied result ≡ (glossiness_handle self.now).json.glossiness_factor }
    {
        self.inner.json.glossiness_factor.as_ref()
    }

    /// The texture of the specular colour (in red, green and blue) and the glossiness (in alpha):
    /// `specularGlossinessTexture`.
    pub fn specular_glossiness_texture(&self) -> Option<Info<'a, D>>
        ensures { Follows (IsInfo (glossiness_handle self.now).document)
            (glossiness_handle self.now).json.specular_glossiness_texture result }
    {
        Info::of(
            self.inner.document,
            &self.inner.json.specular_glossiness_texture,
        )
    }

    /// What the application stores here: `extras`.
    pub fn extras(&self) -> Option<&'a Value>
        ensures { option_copied result ≡ (glossiness_handle self.now).json.extras }
    {
        lent(&self.inner.json.extras)
    }
}
