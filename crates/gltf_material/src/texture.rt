//! The uses of textures (glTF 2.0, section 3.8, "Texture Data").

ghost use Rattle.std.specs.Prelude.{◌≡◌};
ghost use Rattle.std.specs.Option.{option_copied, option_and_then, option_map};
ghost use Rattle.gltf_handles.specs.Members.{extension_named, Follows};
ghost use Rattle.gltf_look.specs.Textures.{IsTexture};
ghost use Rattle.gltf_validation.specs.Documents.{counts_of};
ghost use Rattle.gltf_validation.specs.Members.{optional_rules};
ghost use Rattle.gltf_validation.specs.Rules.{Hold};
ghost use Rattle.gltf_validation.specs.Textures.{info_rules};

use gltf_handles::inner::Inner;
use gltf_json::boxed::lent;
use gltf_json::extensions::texture as extended;
use gltf_json::{Map, Value, texture};
use gltf_look::texture::Texture;
use gltf_rules::{Records, Valid};

/// The use of a texture (glTF 2.0, section 5.30, "Texture Info").
#[derive_where(Clone, Copy)]
#[derive_where(Debug; D)]
pub struct Info<'a, D: Records = Valid> {
    inner: Inner<'a, texture::Info, D>,
}

impl<'a, D: Records> Info<'a, D> {
    ghost use Rattle.gltf_material.specs.Textures.{info_handle, transform_record, IsInfo};

    /// The use that a member names, where the member is there. Its rules hold.
    pub(crate) fn of(document: &'a D, member: &'a Option<texture::Info>) -> Option<Self>
        requires { Hold (optional_rules (info_rules (counts_of (D.root document.now))) member.now) }
        ensures { Follows (IsInfo (D.root document.now)) member.now result }
    {
        let json = member.as_ref()?;
        Some(Info {
            inner: Inner { document, json },
        })
    }

    /// The set of texture coordinates, as in the attribute `TEXCOORD_n`: `texCoord`, 0 where that
    /// is absent.
    pub fn tex_coord(&self) -> u32
        ensures { result ≡ (info_handle self.now).json.tex_coord }
    {
        self.inner.json.tex_coord
    }

    /// The texture: `index`.
    pub fn texture(&self) -> Texture<'a, D>
        ensures { IsTexture (info_handle self.now).document
            (info_handle self.now).json.index result }
    {
        Texture::new(self.inner.document, self.inner.json.index.value())
    }

    /// How the texture coordinates are scaled, turned and moved: the extension
    /// `KHR_texture_transform`.
    pub fn texture_transform(&self) -> Option<TextureTransform<'a>>
        ensures { option_map transform_record result
            ≡ option_and_then (λ e. e.texture_transform) (info_handle self.now).json.extensions }
    {
        let known = lent(&self.inner.json.extensions)?;
        let json = known.texture_transform.as_ref()?;
        Some(TextureTransform { json })
    }

    /// The extensions that are not known at the use of a texture; None where there is no member
    /// `extensions`.
    pub fn extensions(&self) -> Option<&'a Map<String, Value>>
        ensures { option_copied result
            ≡ option_map (λ e. e.others) (info_handle self.now).json.extensions }
    {
        Some(&lent(&self.inner.json.extensions)?.others)
    }

    /// The extension of this name, where it is not known at the use of a texture.
    pub fn extension_value(&self, name: &str) -> Option<&'a Value>
        ensures { option_copied result
            ≡ extension_named name.now
            (option_map (λ e. e.others) (info_handle self.now).json.extensions) }
    {
        self.extensions()?.get(name)
    }

    /// What the application stores here: `extras`.
    pub fn extras(&self) -> Option<&'a Value>
        ensures { option_copied result ≡ (info_handle self.now).json.extras }
    {
        lent(&self.inner.json.extras)
    }
}

/// How texture coordinates are scaled, then turned, then moved (the extension
/// `KHR_texture_transform`).
#[derive(Clone, Copy, Debug)]
pub struct TextureTransform<'a> {
    json: &'a extended::TextureTransform,
}

impl<'a> TextureTransform<'a> {
    ghost use Rattle.gltf_material.specs.Textures.{transform_record};

    /// The offset of the origin, in widths and heights of the texture, as it stands: `offset`, two
    /// numbers. Where it is absent, 0 and 0 are meant.
    pub fn offset(&self) -> Option<&'a Value>
        ensures { option_copied result ≡ (transform_record self.now).offset }
    {
        self.json.offset.as_ref()
    }

    /// The angle in radians, counter-clockwise round the origin, as it stands: `rotation`. Where it
    /// is absent, 0 is meant.
    pub fn rotation(&self) -> Option<&'a Value>
        ensures { option_copied result ≡ (transform_record self.now).rotation }
    {
        self.json.rotation.as_ref()
    }

    /// The factors by which the coordinates are scaled, as they stand: `scale`, two numbers. Where
    /// they are absent, 1 and 1 are meant.
    pub fn scale(&self) -> Option<&'a Value>
        ensures { option_copied result ≡ (transform_record self.now).scale }
    {
        self.json.scale.as_ref()
    }

    /// The set of texture coordinates that is used in place of the one that the use of the texture
    /// names: `texCoord`.
    pub fn tex_coord(&self) -> Option<u32>
        ensures { result ≡ (transform_record self.now).tex_coord }
    {
        self.json.tex_coord
    }

    /// What the application stores here: `extras`.
    pub fn extras(&self) -> Option<&'a Value>
        ensures { option_copied result ≡ (transform_record self.now).extras }
    {
        lent(&self.json.extras)
    }
}
