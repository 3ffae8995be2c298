//! What extensions add to a material: light that goes through, volumes, reflections.

ghost use Rattle.std.specs.Prelude.{◌≡◌};
ghost use Rattle.std.specs.Option.{option_copied};
ghost use Rattle.gltf_handles.specs.Members.{Follows};
ghost use Rattle.gltf_material.specs.Textures.{IsInfo};

use crate::texture::Info;
use gltf_handles::inner::Inner;
use gltf_json::Value;
use gltf_json::boxed::lent;
use gltf_json::extensions::material;
use gltf_rules::{Records, Valid};

/// How much light goes through a surface (the extension `KHR_materials_transmission`).
#[derive_where(Clone, Copy)]
#[derive_where(Debug; D)]
pub struct Transmission<'a, D: Records = Valid> {
    pub(super) inner: Inner<'a, material::Transmission, D>,
}

impl<'a, D: Records> Transmission<'a, D> {
    ghost use Rattle.gltf_material.specs.Parts.{transmission_handle};

    /// The part of the light that goes through, as it stands: `transmissionFactor`, a number. Where
    /// it is absent, 0 is meant.
    pub fn transmission_factor(&self) -> Option<&'a Value>
        ensures { option_copied result ≡ (transmission_handle self.now).json.transmission_factor }
    {
        self.inner.json.transmission_factor.as_ref()
    }

    /// The texture of that part (in red): `transmissionTexture`.
    pub fn transmission_texture(&self) -> Option<Info<'a, D>>
        ensures { Follows (IsInfo (transmission_handle self.now).document)
            (transmission_handle self.now).json.transmission_texture result }
    {
        Info::of(self.inner.document, &self.inner.json.transmission_texture)
    }

    /// What the application stores here: `extras`.
    pub fn extras(&self) -> Option<&'a Value>
        ensures { option_copied result ≡ (transmission_handle self.now).json.extras }
    {
        lent(&self.inner.json.extras)
    }
}

/// The volume below a surface (the extension `KHR_materials_volume`).
#[derive_where(Clone, Copy)]
#[derive_where(Debug; D)]
pub struct Volume<'a, D: Records = Valid> {
    pub(super) inner: Inner<'a, material::Volume, D>,
}

impl<'a, D: Records> Volume<'a, D> {
    ghost use Rattle.gltf_material.specs.Parts.{volume_handle};

    /// The thickness of the volume, in the units of the mesh, as it stands: `thicknessFactor`, a
    /// number. Where it is absent, 0 is meant: the surface is thin, and bounds no volume.
    pub fn thickness_factor(&self) -> Option<&'a Value>
        ensures { option_copied result ≡ (volume_handle self.now).json.thickness_factor }
    {
        self.inner.json.thickness_factor.as_ref()
    }

    /// The texture of the thickness (in green): `thicknessTexture`.
    pub fn thickness_texture(&self) -> Option<Info<'a, D>>
        ensures { Follows (IsInfo (volume_handle self.now).document)
            (volume_handle self.now).json.thickness_texture result }
    {
        Info::of(self.inner.document, &self.inner.json.thickness_texture)
    }

    /// How far light goes in the volume on average before it meets a particle, in the units of the
    /// world, as it stands: `attenuationDistance`, a number. Where it is absent, no end is meant.
    pub fn attenuation_distance(&self) -> Option<&'a Value>
        ensures { option_copied result ≡ (volume_handle self.now).json.attenuation_distance }
    {
        self.inner.json.attenuation_distance.as_ref()
    }

    /// The colour that white light has at that distance, as it stands: `attenuationColor`, three
    /// numbers for red, green and blue. Where it is absent, ones are meant.
    pub fn attenuation_color(&self) -> Option<&'a Value>
        ensures { option_copied result ≡ (volume_handle self.now).json.attenuation_color }
    {
        self.inner.json.attenuation_color.as_ref()
    }

    /// What the application stores here: `extras`.
    pub fn extras(&self) -> Option<&'a Value>
        ensures { option_copied result ≡ (volume_handle self.now).json.extras }
    {
        lent(&self.inner.json.extras)
    }
}

/// The strength and colour of a surface's reflections (the extension `KHR_materials_specular`).
#[derive_where(Clone, Copy)]
#[derive_where(Debug; D)]
pub struct Specular<'a, D: Records = Valid> {
    pub(super) inner: Inner<'a, material::Specular, D>,
}

impl<'a, D: Records> Specular<'a, D> {
    ghost use Rattle.gltf_material.specs.Parts.{specular_handle};

    /// The strength of the reflections, as it stands: `specularFactor`, a number. Where it is
    /// absent, 1 is meant.
    pub fn specular_factor(&self) -> Option<&'a Value>
        ensures { option_copied result ≡ (specular_handle self.now).json.specular_factor }
    {
        self.inner.json.specular_factor.as_ref()
    }

    /// The texture of the strength (in alpha): `specularTexture`.
    pub fn specular_texture(&self) -> Option<Info<'a, D>>
        ensures { Follows (IsInfo (specular_handle self.now).document)
            (specular_handle self.now).json.specular_texture result }
    {
        Info::of(self.inner.document, &self.inner.json.specular_texture)
    }

    /// The factors of the colour of the reflections, as they stand: `specularColorFactor`, three
    /// numbers for red, green and blue. Where they are absent, ones are meant.
    pub fn specular_color_factor(&self) -> Option<&'a Value>
        ensures { option_copied result ≡ (specular_handle self.now).json.specular_color_factor }
    {
        self.inner.json.specular_color_factor.as_ref()
    }

    /// The texture of the colour (in red, green and blue): `specularColorTexture`.
    pub fn specular_color_texture(&self) -> Option<Info<'a, D>>
        ensures { Follows (IsInfo (specular_handle self.now).document)
            (specular_handle self.now).json.specular_color_texture result }
    {
        Info::of(self.inner.document, &self.inner.json.specular_color_texture)
    }

    /// What the application stores here: `extras`.
    pub fn extras(&self) -> Option<&'a Value>
        ensures { option_copied result ≡ (specular_handle self.now).json.extras }
    {
        lent(&self.inner.json.extras)
    }
}
