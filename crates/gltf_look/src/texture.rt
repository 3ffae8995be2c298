//! Textures, and how they are sampled (glTF 2.0, section 3.8, "Texture Data").

ghost use Rattle.std.specs.Prelude.{◌≡◌, ◌<◌, length, unwrap_or, ⊤};
ghost use Rattle.std.specs.Option.{option_copied};
ghost use Rattle.gltf_handles.specs.Members.{text, unknown_extensions, extension_named};
ghost use Rattle.gltf_handles.specs.Members.{Follows, FollowsOr, IsCode};
ghost use Rattle.gltf_look.specs.Defaults.{default_sampler};
ghost use Rattle.gltf_validation.specs.Documents.{counts_of};
ghost use Rattle.gltf_validation.specs.Rules.{Hold, Hold-prop};
ghost use Rattle.gltf_validation.specs.Textures.{sampler_rules};

use crate::image::Image;
use gltf_handles::inner::Inner;
use gltf_handles::member::{meaning, unknown_extensions};
use gltf_json::boxed::lent;
pub use gltf_json::texture::{MagFilter, MinFilter, WrappingMode};
use gltf_json::{Map, Value, kinds, texture};
use gltf_rules::{Records, Valid};
use std::alloc::AllocError;

/// How a texture is sampled (glTF 2.0, section 5.26, "Sampler"). The sampler of a texture that
/// names none has no record.
#[derive_where(Debug; D)]
pub struct Sampler<'a, D: Records = Valid> {
    document: &'a D,
    index: Option<usize>,
    json: Option<&'a texture::Sampler>,
    ghost holds: { Hold (sampler_rules (counts_of (D.root document.now))
        (unwrap_or (option_copied json) default_sampler)) } by { Hold-prop
            (sampler_rules (counts_of (D.root document.now))
            (unwrap_or (option_copied json) default_sampler)) },
}

impl<'a, D: Records> Copy for Sampler<'a, D> {}

impl<'a, D: Records> Clone for Sampler<'a, D> {
    ghost is_clone = { λ x y. y ≡ x };

    ghost is_infallible = { λ _. ⊤ };

    fn clone(&self) -> Result<Self, AllocError> {
        Ok(*self)
    }
}

impl<'a, D: Records> Sampler<'a, D> {
    ghost use Rattle.gltf_look.specs.Textures.{sampler_handle, IsSampler, IsDefaultSampler};

    /// The sampler at an index below the number of samplers.
    pub fn new(document: &'a D, index: usize) -> Self
        requires { index < length (D.root document.now).samplers.items }
        ensures { IsSampler (D.root document.now) index result }
    {
        let json = document.get::<kinds::Sampler>(index);
        Sampler {
            document,
            index: Some(index),
            json: Some(json),
        }
    }

    /// The sampler of a texture that names none: it has no record.
    pub fn default(document: &'a D) -> Self
        ensures { IsDefaultSampler (D.root document.now) result }
    {
        Sampler {
            document,
            index: None,
            json: None,
        }
    }

    /// The position among the samplers of the document; None where there is no record.
    pub fn index(&self) -> Option<usize>
        ensures { result ≡ (sampler_handle self.now).index }
    {
        self.index
    }

    /// How a texture is enlarged: `magFilter`.
    pub fn mag_filter(&self) -> Option<MagFilter>
        ensures { Follows IsCode (sampler_handle self.now).json.mag_filter result }
    {
        Some(meaning(self.json?.mag_filter?))
    }

    /// How a texture is made smaller: `minFilter`.
    pub fn min_filter(&self) -> Option<MinFilter>
        ensures { Follows IsCode (sampler_handle self.now).json.min_filter result }
    {
        Some(meaning(self.json?.min_filter?))
    }

    /// The name given by the user.
    pub fn name(&self) -> Option<&'a str>
        ensures { option_copied result ≡ text (sampler_handle self.now).json.name }
    {
        self.json?.name.as_deref()
    }

    /// What stands beyond the left and right edges: `wrapS`, `Repeat` where that is absent.
    pub fn wrap_s(&self) -> WrappingMode
        ensures { IsCode (sampler_handle self.now).json.wrap_s result }
    {
        match self.json {
            Some(json) => meaning(json.wrap_s),
            None => WrappingMode::Repeat,
        }
    }

    /// What stands beyond the upper and lower edges: `wrapT`, `Repeat` where that is absent.
    pub fn wrap_t(&self) -> WrappingMode
        ensures { IsCode (sampler_handle self.now).json.wrap_t result }
    {
        match self.json {
            Some(json) => meaning(json.wrap_t),
            None => WrappingMode::Repeat,
        }
    }

    /// The extensions, none of which is known at a sampler; None where there is no member
    /// `extensions`.
    pub fn extensions(&self) -> Option<&'a Map<String, Value>>
        ensures { option_copied result
            ≡ unknown_extensions (sampler_handle self.now).json.extensions }
    {
        unknown_extensions(&self.json?.extensions)
    }

    /// The extension of this name.
    pub fn extension_value(&self, name: &str) -> Option<&'a Value>
        ensures { option_copied result ≡ extension_named name.now
            (unknown_extensions (sampler_handle self.now).json.extensions) }
    {
        self.extensions()?.get(name)
    }

    /// What the application stores here: `extras`.
    pub fn extras(&self) -> Option<&'a Value>
        ensures { option_copied result ≡ (sampler_handle self.now).json.extras }
    {
        lent(&self.json?.extras)
    }
}

/// An image, and how it is sampled (glTF 2.0, section 5.29, "Texture").
#[derive_where(Clone, Copy)]
#[derive_where(Debug; D)]
pub struct Texture<'a, D: Records = Valid> {
    index: usize,
    inner: Inner<'a, texture::Texture, D>,
}

impl<'a, D: Records> Texture<'a, D> {
    ghost use Rattle.gltf_look.specs.Images.{IsImage};
    ghost use Rattle.gltf_look.specs.Textures.{texture_handle, IsTexture};
    ghost use Rattle.gltf_look.specs.Textures.{IsSampler, IsDefaultSampler};

    /// The texture at an index below the number of textures.
    pub fn new(document: &'a D, index: usize) -> Self
        requires { index < length (D.root document.now).textures.items }
        ensures { IsTexture (D.root document.now) index result }
    {
        Texture {
            index,
            inner: Inner {
                document,
                json: document.get::<kinds::Texture>(index),
            },
        }
    }

    /// The position among the textures of the document.
    pub fn index(&self) -> usize
        ensures { result ≡ (texture_handle self.now).index }
    {
        self.index
    }

    /// The name given by the user.
    pub fn name(&self) -> Option<&'a str>
        ensures { option_copied result ≡ text (texture_handle self.now).json.name }
    {
        self.inner.json.name.as_deref()
    }

    /// How the texture is sampled: by the sampler that it names, or by one with no record, which
    /// repeats in both directions.
    pub fn sampler(&self) -> Sampler<'a, D>
        ensures { FollowsOr (IsDefaultSampler (texture_handle self.now).document)
            (IsSampler (texture_handle self.now).document)
            (texture_handle self.now).json.sampler result }
    {
        match self.inner.json.sampler {
            Some(index) => Sampler::new(self.inner.document, index.value()),
            None => Sampler::default(self.inner.document),
        }
    }

    /// The image.
    pub fn source(&self) -> Image<'a, D>
        ensures { IsImage (texture_handle self.now).document
            (texture_handle self.now).json.source result }
    {
        Image::new(self.inner.document, self.inner.json.source.value())
    }

    /// The extensions, none of which is known at a texture; None where there is no member
    /// `extensions`.
    pub fn extensions(&self) -> Option<&'a Map<String, Value>>
        ensures { option_copied result
            ≡ unknown_extensions (texture_handle self.now).json.extensions }
    {
        unknown_extensions(&self.inner.json.extensions)
    }

    /// The document that it is of.
    pub fn document(&self) -> &'a D
        ensures { D.root result.now ≡ (texture_handle self.now).document }
    {
        self.inner.document
    }

    /// The extension of this name.
    pub fn extension_value(&self, name: &str) -> Option<&'a Value>
        ensures { option_copied result ≡ extension_named name.now
            (unknown_extensions (texture_handle self.now).json.extensions) }
    {
        self.extensions()?.get(name)
    }

    /// What the application stores here: `extras`.
    pub fn extras(&self) -> Option<&'a Value>
        ensures { option_copied result ≡ (texture_handle self.now).json.extras }
    {
        lent(&self.inner.json.extras)
    }
}
