//! The number of vertices of a primitive (glTF 2.0, section 3.7.2.1).
ghost use Rattle.std.specs.Prelude.{◌≡◌, slice_get};
ghost use Rattle.gltf_inspect_items.specs.Attributes.{are_positions, positions, counted};
ghost use Rattle.gltf_inspect_items.specs.Attributes.{vertex_count};

use gltf_json_geometry::accessor::Accessor;
use gltf_json_geometry::semantic::Semantic;
use gltf_json_record::index::Index;
use gltf_json_record::kinds;
use std::collections::BTreeMap;

fn are_positions(semantic: &Semantic) -> bool
    ensures { result ≡ are_positions semantic.now }
{
    matches!(semantic, Semantic::Positions)
}

fn positions(attributes: &BTreeMap<Semantic, Index<kinds::Accessor>>) -> Option<usize>
    ensures { result ≡ positions attributes.now.entries }
{
    for (semantic, index) in attributes {
        if are_positions(semantic) {
            return Some(index.value());
        }
    }
    None
}

fn count_at(accessors: &[Accessor], index: usize) -> Option<u64>
    ensures { result ≡ counted (slice_get accessors.now index) }
{
    match accessors.get(index) {
        None => None,
        Some(accessor) => Some(accessor.count),
    }
}

/// How many vertices a primitive with these attributes has, where that is known.
pub(crate) fn vertex_count(
    accessors: &[Accessor],
    attributes: &BTreeMap<Semantic, Index<kinds::Accessor>>,
) -> Option<u64>
    ensures { result ≡ vertex_count accessors.now attributes.now.entries }
{
    match positions(attributes) {
        Some(index) => count_at(accessors, index),
        None => {
            let (_semantic, index) = attributes.iter().next()?;
            count_at(accessors, index.value())
        }
    }
}
