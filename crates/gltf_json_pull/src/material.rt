//! Materials.
use crate::pull::FromToken;
use crate::pull_record;
use gltf_json::extensions;
use gltf_json::material::{Material, NormalTexture, OcclusionTexture, PbrMetallicRoughness};
use gltf_json::texture::Info;
use gltf_json_material::{
    info_rows, material_rows, normal_texture_rows, occlusion_texture_rows,
    pbr_metallic_roughness_rows,
};
use gltf_json_record::validation::Checked;
use json::{Reader, Token};
use std::alloc::Global;

impl FromToken for extensions::material::Material {}

impl FromToken for extensions::texture::Info {}

impl FromToken for Material {
    #[tactic(auto, unfolding(gltf_json_material::specs::Materials::material))]
    fn from_token(
        alloc: Global,
        first: Token<'_>,
        rest: &mut Reader<'_>,
        depth: usize,
    ) -> Option<Material> {
        material_rows!(pull_record!(alloc, first, rest, depth))
    }
}

impl FromToken for PbrMetallicRoughness {
    #[tactic(auto, unfolding(gltf_json_material::specs::Materials::pbr_metallic_roughness))]
    fn from_token(
        alloc: Global,
        first: Token<'_>,
        rest: &mut Reader<'_>,
        depth: usize,
    ) -> Option<PbrMetallicRoughness> {
        pbr_metallic_roughness_rows!(pull_record!(alloc, first, rest, depth))
    }
}

impl FromToken for NormalTexture {
    #[tactic(auto, unfolding(gltf_json_material::specs::Materials::normal_texture))]
    fn from_token(
        alloc: Global,
        first: Token<'_>,
        rest: &mut Reader<'_>,
        depth: usize,
    ) -> Option<NormalTexture> {
        normal_texture_rows!(pull_record!(alloc, first, rest, depth))
    }
}

impl FromToken for OcclusionTexture {
    #[tactic(auto, unfolding(gltf_json_material::specs::Materials::occlusion_texture))]
    fn from_token(
        alloc: Global,
        first: Token<'_>,
        rest: &mut Reader<'_>,
        depth: usize,
    ) -> Option<OcclusionTexture> {
        occlusion_texture_rows!(pull_record!(alloc, first, rest, depth))
    }
}

impl FromToken for Info {
    #[tactic(auto, unfolding(gltf_json_material::specs::Textures::texture_info))]
    fn from_token(
        alloc: Global,
        first: Token<'_>,
        rest: &mut Reader<'_>,
        depth: usize,
    ) -> Option<Info> {
        info_rows!(pull_record!(alloc, first, rest, depth))
    }
}
