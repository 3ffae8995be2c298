//! The whole document.
use crate::pull::FromToken;
use crate::pull_record;
use gltf_json::root::Root;
use gltf_json::{extensions, root_rows};
use json::{Reader, Token};
use std::alloc::Global;

impl FromToken for extensions::root::Root {}

impl FromToken for Root {
    #[tactic(auto, unfolding(gltf_json::specs::Documents::root))]
    fn from_token(
        alloc: Global,
        first: Token<'_>,
        rest: &mut Reader<'_>,
        depth: usize,
    ) -> Option<Root> {
        root_rows!(pull_record!(alloc, first, rest, depth))
    }
}
