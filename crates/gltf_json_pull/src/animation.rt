//! Animations.
use crate::pull::FromToken;
use crate::pull_record;
use gltf_json::animation::{Animation, Channel, Sampler, Target};
use gltf_json_animation::{animation_rows, channel_rows, sampler_rows, target_rows};
use gltf_json_record::validation::Checked;
use json::{Reader, Token};
use std::alloc::Global;

impl FromToken for Animation {
    #[tactic(auto, unfolding(gltf_json_animation::specs::Animations::animation))]
    fn from_token(
        alloc: Global,
        first: Token<'_>,
        rest: &mut Reader<'_>,
        depth: usize,
    ) -> Option<Animation> {
        animation_rows!(pull_record!(alloc, first, rest, depth))
    }
}

impl FromToken for Channel {
    #[tactic(auto, unfolding(gltf_json_animation::specs::Animations::channel))]
    fn from_token(
        alloc: Global,
        first: Token<'_>,
        rest: &mut Reader<'_>,
        depth: usize,
    ) -> Option<Channel> {
        channel_rows!(pull_record!(alloc, first, rest, depth))
    }
}

impl FromToken for Target {
    #[tactic(auto, unfolding(gltf_json_animation::specs::Animations::target))]
    fn from_token(
        alloc: Global,
        first: Token<'_>,
        rest: &mut Reader<'_>,
        depth: usize,
    ) -> Option<Target> {
        target_rows!(pull_record!(alloc, first, rest, depth))
    }
}

impl FromToken for Sampler {
    #[tactic(auto, unfolding(gltf_json_animation::specs::Animations::sampler))]
    fn from_token(
        alloc: Global,
        first: Token<'_>,
        rest: &mut Reader<'_>,
        depth: usize,
    ) -> Option<Sampler> {
        sampler_rows!(pull_record!(alloc, first, rest, depth))
    }
}
