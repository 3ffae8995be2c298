//! Materials, textures, images and samplers.
use crate::digest::{Digest, Digested};
use gltf_json_material::extensions::material::{
    EmissiveStrength, Ior, Material as MaterialExtensions, PbrSpecularGlossiness, Specular,
    Transmission, Unlit, Volume,
};
use gltf_json_material::extensions::texture::{Info as InfoExtensions, TextureTransform};
use gltf_json_material::material::{
    AlphaMode, Material, NormalTexture, OcclusionTexture, PbrMetallicRoughness,
};
use gltf_json_material::texture::Info;
use gltf_json_scene::image::Image;
use gltf_json_scene::texture::{MagFilter, MinFilter, Sampler, Texture, WrappingMode};

impl Digested for Material {
    fn add_to(&self, digest: &mut Digest) {
        self.alpha_cutoff.add_to(digest);
        self.alpha_mode.add_to(digest);
        self.double_sided.add_to(digest);
        self.pbr_metallic_roughness.add_to(digest);
        self.normal_texture.add_to(digest);
        self.occlusion_texture.add_to(digest);
        self.emissive_texture.add_to(digest);
        self.emissive_factor.add_to(digest);
        self.name.add_to(digest);
        self.extensions.add_to(digest);
        self.extras.add_to(digest);
    }
}

impl Digested for AlphaMode {
    fn add_to(&self, digest: &mut Digest) {
        digest.add(*self as u64);
    }
}

impl Digested for PbrMetallicRoughness {
    fn add_to(&self, digest: &mut Digest) {
        self.base_color_factor.add_to(digest);
        self.base_color_texture.add_to(digest);
        self.metallic_factor.add_to(digest);
        self.roughness_factor.add_to(digest);
        self.metallic_roughness_texture.add_to(digest);
        self.extensions.add_to(digest);
        self.extras.add_to(digest);
    }
}

impl Digested for NormalTexture {
    fn add_to(&self, digest: &mut Digest) {
        self.index.add_to(digest);
        self.scale.add_to(digest);
        self.tex_coord.add_to(digest);
        self.extensions.add_to(digest);
        self.extras.add_to(digest);
    }
}

impl Digested for OcclusionTexture {
    fn add_to(&self, digest: &mut Digest) {
        self.index.add_to(digest);
        self.strength.add_to(digest);
        self.tex_coord.add_to(digest);
        self.extensions.add_to(digest);
        self.extras.add_to(digest);
    }
}

impl Digested for MaterialExtensions {
    fn add_to(&self, digest: &mut Digest) {
        self.pbr_specular_glossiness.add_to(digest);
        self.unlit.add_to(digest);
        self.transmission.add_to(digest);
        self.ior.add_to(digest);
        self.emissive_strength.add_to(digest);
        self.volume.add_to(digest);
        self.specular.add_to(digest);
        self.others.add_to(digest);
    }
}

impl Digested for PbrSpecularGlossiness {
    fn add_to(&self, digest: &mut Digest) {
        self.diffuse_factor.add_to(digest);
        self.diffuse_texture.add_to(digest);
        self.specular_factor.add_to(digest);
        self.glossiness_factor.add_to(digest);
        self.specular_glossiness_texture.add_to(digest);
        self.extras.add_to(digest);
    }
}

impl Digested for Unlit {
    fn add_to(&self, digest: &mut Digest) {
        digest.add(0);
    }
}

impl Digested for Transmission {
    fn add_to(&self, digest: &mut Digest) {
        self.transmission_factor.add_to(digest);
        self.transmission_texture.add_to(digest);
        self.extras.add_to(digest);
    }
}

impl Digested for Ior {
    fn add_to(&self, digest: &mut Digest) {
        self.ior.add_to(digest);
        self.extras.add_to(digest);
    }
}

impl Digested for EmissiveStrength {
    fn add_to(&self, digest: &mut Digest) {
        self.emissive_strength.add_to(digest);
        self.extras.add_to(digest);
    }
}

impl Digested for Volume {
    fn add_to(&self, digest: &mut Digest) {
        self.thickness_factor.add_to(digest);
        self.thickness_texture.add_to(digest);
        self.attenuation_distance.add_to(digest);
        self.attenuation_color.add_to(digest);
        self.extras.add_to(digest);
    }
}

impl Digested for Specular {
    fn add_to(&self, digest: &mut Digest) {
        self.specular_factor.add_to(digest);
        self.specular_texture.add_to(digest);
        self.specular_color_factor.add_to(digest);
        self.specular_color_texture.add_to(digest);
        self.extras.add_to(digest);
    }
}

impl Digested for Info {
    fn add_to(&self, digest: &mut Digest) {
        self.index.add_to(digest);
        self.tex_coord.add_to(digest);
        self.extensions.add_to(digest);
        self.extras.add_to(digest);
    }
}

impl Digested for InfoExtensions {
    fn add_to(&self, digest: &mut Digest) {
        self.texture_transform.add_to(digest);
        self.others.add_to(digest);
    }
}

impl Digested for TextureTransform {
    fn add_to(&self, digest: &mut Digest) {
        self.offset.add_to(digest);
        self.rotation.add_to(digest);
        self.scale.add_to(digest);
        self.tex_coord.add_to(digest);
        self.extras.add_to(digest);
    }
}

impl Digested for Texture {
    fn add_to(&self, digest: &mut Digest) {
        self.sampler.add_to(digest);
        self.source.add_to(digest);
        self.name.add_to(digest);
        self.extensions.add_to(digest);
        self.extras.add_to(digest);
    }
}

impl Digested for Sampler {
    fn add_to(&self, digest: &mut Digest) {
        self.mag_filter.add_to(digest);
        self.min_filter.add_to(digest);
        self.wrap_s.add_to(digest);
        self.wrap_t.add_to(digest);
        self.name.add_to(digest);
        self.extensions.add_to(digest);
        self.extras.add_to(digest);
    }
}

impl Digested for MagFilter {
    fn add_to(&self, digest: &mut Digest) {
        digest.add(*self as u64);
    }
}

impl Digested for MinFilter {
    fn add_to(&self, digest: &mut Digest) {
        digest.add(*self as u64);
    }
}

impl Digested for WrappingMode {
    fn add_to(&self, digest: &mut Digest) {
        digest.add(*self as u64);
    }
}

impl Digested for Image {
    fn add_to(&self, digest: &mut Digest) {
        self.buffer_view.add_to(digest);
        self.mime_type.add_to(digest);
        self.uri.add_to(digest);
        self.name.add_to(digest);
        self.extensions.add_to(digest);
        self.extras.add_to(digest);
    }
}
