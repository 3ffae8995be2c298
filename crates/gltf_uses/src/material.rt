//! The indices in materials and their extensions (glTF 2.0, section 3.9).
ghost use Rattle.gltf_uses.specs.Materials.{info_uses, normal_texture_uses, occlusion_texture_uses};
ghost use Rattle.gltf_uses.specs.Materials.{pbr_metallic_roughness_uses};
ghost use Rattle.gltf_uses.specs.Materials.{pbr_specular_glossiness_uses, transmission_uses};
ghost use Rattle.gltf_uses.specs.Materials.{volume_uses, specular_uses, material_extensions_uses};
ghost use Rattle.gltf_uses.specs.Materials.{material_uses};

use crate::sink::Sink;
use crate::visit::{Visit, member, members};
use gltf_json_material::extensions::material as extended;
use gltf_json_material::material::{
    Material, NormalTexture, OcclusionTexture, PbrMetallicRoughness,
};
use gltf_json_material::texture::Info;
use gltf_validation::location::Location;
use std::alloc::AllocError;

impl Visit for Info {
    ghost uses = { λ r. info_uses r };

    fn visit<S: Sink>(&self, location: &Location<'_>, sink: &mut S) -> Result<(), AllocError> {
        member(&self.index, "index", location, sink)
    }
}

impl Visit for NormalTexture {
    ghost uses = { λ r. normal_texture_uses r };

    fn visit<S: Sink>(&self, location: &Location<'_>, sink: &mut S) -> Result<(), AllocError> {
        member(&self.index, "index", location, sink)
    }
}

impl Visit for OcclusionTexture {
    ghost uses = { λ r. occlusion_texture_uses r };

    fn visit<S: Sink>(&self, location: &Location<'_>, sink: &mut S) -> Result<(), AllocError> {
        member(&self.index, "index", location, sink)
    }
}

impl Visit for PbrMetallicRoughness {
    ghost uses = { λ r. pbr_metallic_roughness_uses r };

    fn visit<S: Sink>(&self, location: &Location<'_>, sink: &mut S) -> Result<(), AllocError> {
        members!(self, location, sink; {
            base_color_texture: "baseColorTexture",
            metallic_roughness_texture: "metallicRoughnessTexture",
        })
    }
}

impl Visit for extended::PbrSpecularGlossiness {
    ghost uses = { λ r. pbr_specular_glossiness_uses r };

    fn visit<S: Sink>(&self, location: &Location<'_>, sink: &mut S) -> Result<(), AllocError> {
        members!(self, location, sink; {
            diffuse_texture: "diffuseTexture",
            specular_glossiness_texture: "specularGlossinessTexture",
        })
    }
}

impl Visit for extended::Transmission {
    ghost uses = { λ r. transmission_uses r };

    fn visit<S: Sink>(&self, location: &Location<'_>, sink: &mut S) -> Result<(), AllocError> {
        member(
            &self.transmission_texture,
            "transmissionTexture",
            location,
            sink,
        )
    }
}

impl Visit for extended::Volume {
    ghost uses = { λ r. volume_uses r };

    fn visit<S: Sink>(&self, location: &Location<'_>, sink: &mut S) -> Result<(), AllocError> {
        member(&self.thickness_texture, "thicknessTexture", location, sink)
    }
}

impl Visit for extended::Specular {
    ghost uses = { λ r. specular_uses r };

    fn visit<S: Sink>(&self, location: &Location<'_>, sink: &mut S) -> Result<(), AllocError> {
        members!(self, location, sink; {
            specular_texture: "specularTexture",
            specular_color_texture: "specularColorTexture",
        })
    }
}

impl Visit for extended::Material {
    ghost uses = { λ r. material_extensions_uses r };

    fn visit<S: Sink>(&self, location: &Location<'_>, sink: &mut S) -> Result<(), AllocError> {
        members!(self, location, sink; {
            pbr_specular_glossiness: "KHR_materials_pbrSpecularGlossiness",
            transmission: "KHR_materials_transmission",
            volume: "KHR_materials_volume",
            specular: "KHR_materials_specular",
        })
    }
}

impl Visit for Material {
    ghost uses = { λ r. material_uses r };

    fn visit<S: Sink>(&self, location: &Location<'_>, sink: &mut S) -> Result<(), AllocError> {
        members!(self, location, sink; {
            pbr_metallic_roughness: "pbrMetallicRoughness",
            normal_texture: "normalTexture",
            occlusion_texture: "occlusionTexture",
            emissive_texture: "emissiveTexture",
            extensions: "extensions",
        })
    }
}
