//! Accessors, buffers and meshes.
use crate::pull::FromToken;
use crate::pull_record;
use gltf_json::accessor::Accessor;
use gltf_json::accessor::sparse::{Indices, Sparse, Values};
use gltf_json::buffer::{Buffer, View};
use gltf_json::extensions;
use gltf_json::mesh::{Mesh, MorphTarget, Primitive};
use gltf_json_geometry::attributes::Attributes;
use gltf_json_geometry::{
    accessor_rows, buffer_rows, mesh_rows, morph_target_rows, primitive_rows, sparse_rows,
    values_rows, view_rows,
};
use gltf_json_record::validation::Checked;
use json::{Reader, Token};
use std::alloc::Global;

impl FromToken for Indices {}

impl FromToken for Attributes {}

impl FromToken for extensions::mesh::Primitive {}

impl FromToken for Buffer {
    #[tactic(auto, unfolding(gltf_json_geometry::specs::Buffers::buffer))]
    fn from_token(
        alloc: Global,
        first: Token<'_>,
        rest: &mut Reader<'_>,
        depth: usize,
    ) -> Option<Buffer> {
        buffer_rows!(pull_record!(alloc, first, rest, depth))
    }
}

impl FromToken for View {
    #[tactic(auto, unfolding(gltf_json_geometry::specs::Buffers::buffer_view))]
    fn from_token(
        alloc: Global,
        first: Token<'_>,
        rest: &mut Reader<'_>,
        depth: usize,
    ) -> Option<View> {
        view_rows!(pull_record!(alloc, first, rest, depth))
    }
}

impl FromToken for Accessor {
    #[tactic(auto, unfolding(gltf_json_geometry::specs::Accessors::accessor))]
    fn from_token(
        alloc: Global,
        first: Token<'_>,
        rest: &mut Reader<'_>,
        depth: usize,
    ) -> Option<Accessor> {
        accessor_rows!(pull_record!(alloc, first, rest, depth))
    }
}

impl FromToken for Sparse {
    #[tactic(auto, unfolding(gltf_json_geometry::specs::Accessors::sparse))]
    fn from_token(
        alloc: Global,
        first: Token<'_>,
        rest: &mut Reader<'_>,
        depth: usize,
    ) -> Option<Sparse> {
        sparse_rows!(pull_record!(alloc, first, rest, depth))
    }
}

impl FromToken for Values {
    #[tactic(auto, unfolding(gltf_json_geometry::specs::Accessors::values))]
    fn from_token(
        alloc: Global,
        first: Token<'_>,
        rest: &mut Reader<'_>,
        depth: usize,
    ) -> Option<Values> {
        values_rows!(pull_record!(alloc, first, rest, depth))
    }
}

impl FromToken for Mesh {
    #[tactic(auto, unfolding(gltf_json_geometry::specs::Meshes::mesh))]
    fn from_token(
        alloc: Global,
        first: Token<'_>,
        rest: &mut Reader<'_>,
        depth: usize,
    ) -> Option<Mesh> {
        mesh_rows!(pull_record!(alloc, first, rest, depth))
    }
}

impl FromToken for Primitive {
    #[tactic(auto, unfolding(gltf_json_geometry::specs::Meshes::primitive))]
    fn from_token(
        alloc: Global,
        first: Token<'_>,
        rest: &mut Reader<'_>,
        depth: usize,
    ) -> Option<Primitive> {
        primitive_rows!(pull_record!(alloc, first, rest, depth))
    }
}

impl FromToken for MorphTarget {
    #[tactic(auto, unfolding(gltf_json_geometry::specs::Meshes::morph_target))]
    fn from_token(
        alloc: Global,
        first: Token<'_>,
        rest: &mut Reader<'_>,
        depth: usize,
    ) -> Option<MorphTarget> {
        morph_target_rows!(pull_record!(alloc, first, rest, depth))
    }
}
