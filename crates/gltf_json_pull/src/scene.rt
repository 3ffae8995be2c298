//! Scenes, nodes, skins, textures and images.
use crate::pull::FromToken;
use crate::pull_record;
use gltf_json::asset::Asset;
use gltf_json::camera::Camera;
use gltf_json::extensions;
use gltf_json::image::Image;
use gltf_json::scene::{Node, Scene};
use gltf_json::skin::Skin;
use gltf_json::texture::{Sampler, Texture};
use gltf_json_record::validation::Checked;
use gltf_json_scene::{image_rows, node_rows, sampler_rows, scene_rows, skin_rows, texture_rows};
use json::{Reader, Token};
use std::alloc::Global;

impl FromToken for Asset {}

impl FromToken for Camera {}

impl FromToken for extensions::scene::Node {}

impl FromToken for Node {
    #[tactic(auto, unfolding(gltf_json_scene::specs::Scenes::node))]
    fn from_token(
        alloc: Global,
        first: Token<'_>,
        rest: &mut Reader<'_>,
        depth: usize,
    ) -> Option<Node> {
        node_rows!(pull_record!(alloc, first, rest, depth))
    }
}

impl FromToken for Scene {
    #[tactic(auto, unfolding(gltf_json_scene::specs::Scenes::scene))]
    fn from_token(
        alloc: Global,
        first: Token<'_>,
        rest: &mut Reader<'_>,
        depth: usize,
    ) -> Option<Scene> {
        scene_rows!(pull_record!(alloc, first, rest, depth))
    }
}

impl FromToken for Skin {
    #[tactic(auto, unfolding(gltf_json_scene::specs::Skins::skin))]
    fn from_token(
        alloc: Global,
        first: Token<'_>,
        rest: &mut Reader<'_>,
        depth: usize,
    ) -> Option<Skin> {
        skin_rows!(pull_record!(alloc, first, rest, depth))
    }
}

impl FromToken for Image {
    #[tactic(auto, unfolding(gltf_json_scene::specs::Images::image))]
    fn from_token(
        alloc: Global,
        first: Token<'_>,
        rest: &mut Reader<'_>,
        depth: usize,
    ) -> Option<Image> {
        image_rows!(pull_record!(alloc, first, rest, depth))
    }
}

impl FromToken for Texture {
    #[tactic(auto, unfolding(gltf_json_scene::specs::Textures::texture))]
    fn from_token(
        alloc: Global,
        first: Token<'_>,
        rest: &mut Reader<'_>,
        depth: usize,
    ) -> Option<Texture> {
        texture_rows!(pull_record!(alloc, first, rest, depth))
    }
}

impl FromToken for Sampler {
    #[tactic(auto, unfolding(gltf_json_scene::specs::Textures::sampler))]
    fn from_token(
        alloc: Global,
        first: Token<'_>,
        rest: &mut Reader<'_>,
        depth: usize,
    ) -> Option<Sampler> {
        sampler_rows!(pull_record!(alloc, first, rest, depth))
    }
}
