//! Materials and their parts (glTF 2.0, section 3.9, and extensions).
use crate::line::Line;
use crate::shown::{Shown, write_next, write_part, write_rest};
use gltf_material::material::{
    Material, NormalTexture, OcclusionTexture, PbrMetallicRoughness, PbrSpecularGlossiness,
    Specular, Transmission, Volume,
};
use gltf_material::texture::{Info, TextureTransform};
use gltf_rules::Records;

impl<D: Records> Shown for Material<'_, D> {
    /// One extension that is known at a material is looked up too: it is none of those that are
    /// left.
    fn show(&self, line: &mut Line<'_>) {
        write!(line, "index {:?}", self.index());
        write_next("alpha_cutoff", self.alpha_cutoff(), line);
        write_next("alpha_mode", self.alpha_mode(), line);
        write_next("double_sided", self.double_sided(), line);
        write_next("name", self.name(), line);
        write_models(self, line);
        write_extended(self, line);
        write_maps(self, line);
        write_next("unlit", self.unlit(), line);
        write_rest!(self, line);
        let known = "KHR_materials_unlit";
        write_next(known, self.extension_value(known), line);
    }
}

/// Writes the models of a material's colour.
fn write_models<D: Records>(material: &Material<'_, D>, line: &mut Line<'_>) {
    write_part(
        "pbr_metallic_roughness",
        Some(material.pbr_metallic_roughness()),
        line,
    );
    write_part(
        "pbr_specular_glossiness",
        material.pbr_specular_glossiness(),
        line,
    )
}

/// Writes what extensions add to a material.
fn write_extended<D: Records>(material: &Material<'_, D>, line: &mut Line<'_>) {
    write_part("transmission", material.transmission(), line);
    write_part("volume", material.volume(), line);
    write_part("specular", material.specular(), line);
    write_next("ior", material.ior(), line);
    write_next("emissive_strength", material.emissive_strength(), line);
}

/// Writes the light that a material gives off, and the textures that are no colours.
fn write_maps<D: Records>(material: &Material<'_, D>, line: &mut Line<'_>) {
    write_next("emissive_factor", material.emissive_factor(), line);
    write_part("normal_texture", material.normal_texture(), line);
    write_part("occlusion_texture", material.occlusion_texture(), line);
    write_part("emissive_texture", material.emissive_texture(), line);
}

impl<D: Records> Shown for PbrMetallicRoughness<'_, D> {
    fn show(&self, line: &mut Line<'_>) {
        write!(line, "base_color_factor {:?}", self.base_color_factor());
        write_part("base_color_texture", self.base_color_texture(), line);
        write_next("metallic_factor", self.metallic_factor(), line);
        write_next("roughness_factor", self.roughness_factor(), line);
        write_part(
            "metallic_roughness_texture",
            self.metallic_roughness_texture(),
            line,
        );
        write_rest!(self, line);
    }
}

impl<D: Records> Shown for PbrSpecularGlossiness<'_, D> {
    fn show(&self, line: &mut Line<'_>) {
        write!(line, "diffuse_factor {:?}", self.diffuse_factor());
        write_part("diffuse_texture", self.diffuse_texture(), line);
        write_next("specular_factor", self.specular_factor(), line);
        write_next("glossiness_factor", self.glossiness_factor(), line);
        write_part(
            "specular_glossiness_texture",
            self.specular_glossiness_texture(),
            line,
        );
        write_next("extras", self.extras(), line);
    }
}

impl<D: Records> Shown for Transmission<'_, D> {
    fn show(&self, line: &mut Line<'_>) {
        write!(line, "transmission_factor {:?}", self.transmission_factor());
        write_part("transmission_texture", self.transmission_texture(), line);
        write_next("extras", self.extras(), line);
    }
}

impl<D: Records> Shown for Volume<'_, D> {
    fn show(&self, line: &mut Line<'_>) {
        write!(line, "thickness_factor {:?}", self.thickness_factor());
        write_part("thickness_texture", self.thickness_texture(), line);
        write_next("attenuation_distance", self.attenuation_distance(), line);
        write_next("attenuation_color", self.attenuation_color(), line);
        write_next("extras", self.extras(), line);
    }
}

impl<D: Records> Shown for Specular<'_, D> {
    fn show(&self, line: &mut Line<'_>) {
        write!(line, "specular_factor {:?}", self.specular_factor());
        write_part("specular_texture", self.specular_texture(), line);
        write_next("specular_color_factor", self.specular_color_factor(), line);
        write_part(
            "specular_color_texture",
            self.specular_color_texture(),
            line,
        );
        write_next("extras", self.extras(), line);
    }
}

impl<D: Records> Shown for NormalTexture<'_, D> {
    fn show(&self, line: &mut Line<'_>) {
        write!(line, "texture {}", self.texture().index());
        write_next("scale", self.scale(), line);
        write_next("tex_coord", self.tex_coord(), line);
        write_rest!(self, line);
    }
}

impl<D: Records> Shown for OcclusionTexture<'_, D> {
    fn show(&self, line: &mut Line<'_>) {
        write!(line, "texture {}", self.texture().index());
        write_next("strength", self.strength(), line);
        write_next("tex_coord", self.tex_coord(), line);
        write_rest!(self, line);
    }
}

impl<D: Records> Shown for Info<'_, D> {
    fn show(&self, line: &mut Line<'_>) {
        write!(line, "texture {}", self.texture().index());
        write_next("tex_coord", self.tex_coord(), line);
        write_part("texture_transform", self.texture_transform(), line);
        write_rest!(self, line);
    }
}

impl Shown for TextureTransform<'_> {
    fn show(&self, line: &mut Line<'_>) {
        write!(line, "offset {:?}", self.offset());
        write_next("rotation", self.rotation(), line);
        write_next("scale", self.scale(), line);
        write_next("tex_coord", self.tex_coord(), line);
        write_next("extras", self.extras(), line);
    }
}
