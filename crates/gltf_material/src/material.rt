//! Materials (glTF 2.0, section 3.9, "Materials").

mod extended;
mod maps;
mod pbr;

ghost use Rattle.std.specs.Prelude.{◌≡◌, ◌<◌, length, unwrap_or, is_some, ⊤};
ghost use Rattle.std.specs.Option.{option_copied, option_and_then, option_map};
ghost use Rattle.gltf_handles.specs.Members.{text, extension_named, Follows, IsCode};
ghost use Rattle.gltf_material.specs.Defaults.{default_material};
ghost use Rattle.gltf_material.specs.Parts.{IsPbr, IsGlossiness, IsTransmission, IsVolume};
ghost use Rattle.gltf_material.specs.Parts.{IsSpecular, IsNormal, IsOcclusion};
ghost use Rattle.gltf_material.specs.Textures.{IsInfo};
ghost use Rattle.gltf_validation.specs.Documents.{counts_of};
ghost use Rattle.gltf_validation.specs.Materials.{material_rules, material_extensions_rules};
ghost use Rattle.gltf_validation.specs.Members.{optional_rules};
ghost use Rattle.gltf_validation.specs.Rules.{Hold, Hold-prop};

use crate::texture::Info;
pub use extended::{Specular, Transmission, Volume};
use gltf_handles::inner::Inner;
use gltf_handles::member::meaning;
use gltf_json::boxed::lent;
pub use gltf_json::material::AlphaMode;
use gltf_json::{Map, Value, extensions, kinds, material};
use gltf_rules::{Records, Valid};
pub use maps::{NormalTexture, OcclusionTexture};
pub use pbr::{PbrMetallicRoughness, PbrSpecularGlossiness};
use std::alloc::AllocError;

/// How a surface looks (glTF 2.0, section 5.19, "Material"). The default material, of a primitive
/// that names none, has no record: its getters give what they give where a member is absent.
#[derive_where(Debug; D)]
pub struct Material<'a, D: Records = Valid> {
    document: &'a D,
    index: Option<usize>,
    json: Option<&'a material::Material>,
    ghost holds: { Hold (material_rules (counts_of (D.root document.now))
        (unwrap_or (option_copied json) default_material)) } by { Hold-prop
            (material_rules (counts_of (D.root document.now))
            (unwrap_or (option_copied json) default_material)) },
}

impl<'a, D: Records> Copy for Material<'a, D> {}

impl<'a, D: Records> Clone for Material<'a, D> {
    ghost is_clone = { λ x y. y ≡ x };

    ghost is_infallible = { λ _. ⊤ };

    fn clone(&self) -> Result<Self, AllocError> {
        Ok(*self)
    }
}

impl<'a, D: Records> Material<'a, D> {
    ghost use Rattle.gltf_material.specs.Materials.{material_handle, extension};
    ghost use Rattle.gltf_material.specs.Materials.{IsMaterial, IsDefaultMaterial};

    /// The material at an index below the number of materials.
    pub fn new(document: &'a D, index: usize) -> Self
        requires { index < length (D.root document.now).materials.items }
        ensures { IsMaterial (D.root document.now) index result }
    {
        let json = document.get::<kinds::Material>(index);
        Material {
            document,
            index: Some(index),
            json: Some(json),
        }
    }

    /// The default material (glTF 2.0, section 3.9.6, "Default Material").
    pub fn default(document: &'a D) -> Self
        ensures { IsDefaultMaterial (D.root document.now) result }
    {
        Material {
            document,
            index: None,
            json: None,
        }
    }

    /// The position among the materials of the document; None for the default material.
    pub fn index(&self) -> Option<usize>
        ensures { result ≡ (material_handle self.now).index }
    {
        self.index
    }

    /// The least alpha that is shown in the mode `MASK`, as it stands: `alphaCutoff`, a number.
    /// Where it is absent, 0.5 is meant.
    pub fn alpha_cutoff(&self) -> Option<&'a Value>
        ensures { option_copied result ≡ (material_handle self.now).json.alpha_cutoff }
    {
        self.json?.alpha_cutoff.as_ref()
    }

    /// What the alpha of the base colour means: `alphaMode`, `Opaque` where that is absent.
    pub fn alpha_mode(&self) -> AlphaMode
        ensures { IsCode (material_handle self.now).json.alpha_mode result }
    {
        match self.json {
            Some(json) => meaning(json.alpha_mode),
            None => AlphaMode::Opaque,
        }
    }

    /// Whether both sides of a surface are shown: `doubleSided`, false where that is absent.
    pub fn double_sided(&self) -> bool
        ensures { result ≡ (material_handle self.now).json.double_sided }
    {
        match self.json {
            Some(json) => json.double_sided,
            None => false,
        }
    }

    /// The name given by the user.
    pub fn name(&self) -> Option<&'a str>
        ensures { option_copied result ≡ text (material_handle self.now).json.name }
    {
        self.json?.name.as_deref()
    }

    /// The base colour, metalness and roughness: `pbrMetallicRoughness`, with no record where that
    /// is absent.
    pub fn pbr_metallic_roughness(&self) -> PbrMetallicRoughness<'a, D>
        ensures { IsPbr (material_handle self.now).document
            (material_handle self.now).json.pbr_metallic_roughness result }
    {
        let json = match self.json {
            Some(json) => lent(&json.pbr_metallic_roughness),
            None => None,
        };
        PbrMetallicRoughness {
            document: self.document,
            json,
        }
    }

    /// The extensions that are not known at a material; None where there is no member `extensions`.
    pub fn extensions(&self) -> Option<&'a Map<String, Value>>
        ensures { option_copied result
            ≡ option_map (λ e. e.others) (material_handle self.now).json.extensions }
    {
        Some(&self.known()?.others)
    }

    /// The document that it is of.
    pub fn document(&self) -> &'a D
        ensures { D.root result.now ≡ (material_handle self.now).document }
    {
        self.document
    }

    /// The extension of this name, where it is not known at a material.
    pub fn extension_value(&self, name: &str) -> Option<&'a Value>
        ensures { option_copied result
            ≡ extension_named name.now
            (option_map (λ e. e.others) (material_handle self.now).json.extensions) }
    {
        self.extensions()?.get(name)
    }

    /// The diffuse and specular colours and the glossiness: the extension
    /// `KHR_materials_pbrSpecularGlossiness`.
    pub fn pbr_specular_glossiness(&self) -> Option<PbrSpecularGlossiness<'a, D>>
        ensures { Follows (IsGlossiness (material_handle self.now).document)
            (extension (λ e. e.pbr_specular_glossiness) (material_handle self.now).json) result }
    {
        let json = self.known()?.pbr_specular_glossiness.as_ref()?;
        Some(PbrSpecularGlossiness {
            inner: Inner {
                document: self.document,
                json,
            },
        })
    }

    /// How much light goes through the surface: the extension `KHR_materials_transmission`.
    pub fn transmission(&self) -> Option<Transmission<'a, D>>
        ensures { Follows (IsTransmission (material_handle self.now).document)
            (extension (λ e. e.transmission) (material_handle self.now).json) result }
    {
        let json = self.known()?.transmission.as_ref()?;
        Some(Transmission {
            inner: Inner {
                document: self.document,
                json,
            },
        })
    }

    /// The index of refraction, as it stands: `ior` of the extension `KHR_materials_ior`, a number.
    /// Where it is absent, 1.5 is meant.
    pub fn ior(&self) -> Option<&'a Value>
        ensures { option_copied result
            ≡ option_and_then (λ e. e.ior)
            (extension (λ e. e.ior) (material_handle self.now).json) }
    {
        self.known()?.ior.as_ref()?.ior.as_ref()
    }

    /// The factor of the light that the surface gives off, as it stands: `emissiveStrength` of the
    /// extension `KHR_materials_emissive_strength`, a number. Where it is absent, 1 is meant.
    pub fn emissive_strength(&self) -> Option<&'a Value>
        ensures { option_copied result
            ≡ option_and_then (λ e. e.emissive_strength)
            (extension (λ e. e.emissive_strength) (material_handle self.now).json) }
    {
        self.known()?
            .emissive_strength
            .as_ref()?
            .emissive_strength
            .as_ref()
    }

    /// The volume below the surface: the extension `KHR_materials_volume`.
    pub fn volume(&self) -> Option<Volume<'a, D>>
        ensures { Follows (IsVolume (material_handle self.now).document)
            (extension (λ e. e.volume) (material_handle self.now).json) result }
    {
        let json = self.known()?.volume.as_ref()?;
        Some(Volume {
            inner: Inner {
                document: self.document,
                json,
            },
        })
    }

    /// The strength and colour of the reflections: the extension `KHR_materials_specular`.
    pub fn specular(&self) -> Option<Specular<'a, D>>
        ensures { Follows (IsSpecular (material_handle self.now).document)
            (extension (λ e. e.specular) (material_handle self.now).json) result }
    {
        let json = self.known()?.specular.as_ref()?;
        Some(Specular {
            inner: Inner {
                document: self.document,
                json,
            },
        })
    }

    /// The texture of the normals: `normalTexture`.
    pub fn normal_texture(&self) -> Option<NormalTexture<'a, D>>
        ensures { Follows (IsNormal (material_handle self.now).document)
            (material_handle self.now).json.normal_texture result }
    {
        let json = lent(&self.json?.normal_texture)?;
        Some(NormalTexture {
            inner: Inner {
                document: self.document,
                json,
            },
        })
    }

    /// The texture of the occlusion: `occlusionTexture`.
    pub fn occlusion_texture(&self) -> Option<OcclusionTexture<'a, D>>
        ensures { Follows (IsOcclusion (material_handle self.now).document)
            (material_handle self.now).json.occlusion_texture result }
    {
        let json = lent(&self.json?.occlusion_texture)?;
        Some(OcclusionTexture {
            inner: Inner {
                document: self.document,
                json,
            },
        })
    }

    /// The texture of the light that the surface gives off: `emissiveTexture`.
    pub fn emissive_texture(&self) -> Option<Info<'a, D>>
        ensures { Follows (IsInfo (material_handle self.now).document)
            (material_handle self.now).json.emissive_texture result }
    {
        Info::of(self.document, &self.json?.emissive_texture)
    }

    /// The factors of the light that the surface gives off, as they stand: `emissiveFactor`, three
    /// numbers for red, green and blue. Where they are absent, zeros are meant.
    pub fn emissive_factor(&self) -> Option<&'a Value>
        ensures { option_copied result ≡ (material_handle self.now).json.emissive_factor }
    {
        self.json?.emissive_factor.as_ref()
    }

    /// Whether the colour is shown with no light on it: whether the extension
    /// `KHR_materials_unlit` is there.
    pub fn unlit(&self) -> bool
        ensures { result ≡ is_some (extension (λ e. e.unlit) (material_handle self.now).json) }
    {
        match self.known() {
            Some(known) => known.unlit.is_some(),
            None => false,
        }
    }

    /// What the application stores here: `extras`.
    pub fn extras(&self) -> Option<&'a Value>
        ensures { option_copied result ≡ (material_handle self.now).json.extras }
    {
        lent(&self.json?.extras)
    }

    /// What the member `extensions` holds, where it is there.
    fn known(&self) -> Option<&'a extensions::material::Material>
        ensures same { option_copied result ≡ (material_handle self.now).json.extensions }
        ensures hold { Hold (optional_rules
            (material_extensions_rules (counts_of (material_handle self.now).document))
            (option_copied result)) }
    {
        lent(&self.json?.extensions)
    }
}
