//! Attributes by their meaning (glTF 2.0, section 3.7.2.1).
ghost use Rattle.std.specs.Prelude.{◌≡◌};
ghost use Rattle.gltf_inspect_meshes.specs.Meanings.{meaning_number, set_number, first_of};
ghost use Rattle.gltf_inspect_meshes.specs.Meanings.{count_at, count_of_index, agree};

use gltf_json_geometry::accessor::Accessor;
use gltf_json_geometry::semantic::Semantic;
use gltf_json_record::index::Index;
use gltf_json_record::kinds;
use std::collections::BTreeMap;

/// The number of positions.
pub const POSITIONS: u8 = 1;

/// The number of normals.
pub const NORMALS: u8 = 2;

/// The number of tangents.
pub const TANGENTS: u8 = 3;

/// The number of colors.
pub const COLORS: u8 = 4;

/// The number of texture coordinates.
pub const TEX_COORDS: u8 = 5;

/// The number of joints.
pub const JOINTS: u8 = 6;

/// The number of weights.
pub const WEIGHTS: u8 = 7;

/// A number for the kind of an attribute: one of those above, or 0 where it is the application's.
pub fn meaning_number(semantic: &Semantic) -> u8
    ensures { result ≡ meaning_number semantic.now }
{
    match semantic {
        Semantic::Extras(_) => 0,
        Semantic::Positions => POSITIONS,
        Semantic::Normals => NORMALS,
        Semantic::Tangents => TANGENTS,
        Semantic::Colors(_) => COLORS,
        Semantic::TexCoords(_) => TEX_COORDS,
        Semantic::Joints(_) => JOINTS,
        Semantic::Weights(_) => WEIGHTS,
    }
}

/// The number of the set: n of `COLOR_n`, 0 where there are no sets.
pub fn set_number(semantic: &Semantic) -> u32
    ensures { result ≡ set_number semantic.now }
{
    match semantic {
        Semantic::Colors(set)
        | Semantic::TexCoords(set)
        | Semantic::Joints(set)
        | Semantic::Weights(set) => *set,
        _ => 0,
    }
}

/// The accessor of the first attribute whose kind has this number.
pub fn first_of(
    number: u8,
    attributes: &BTreeMap<Semantic, Index<kinds::Accessor>>,
) -> Option<usize>
    ensures { result ≡ first_of number attributes.now.entries }
{
    for (semantic, index) in attributes {
        if meaning_number(semantic) == number {
            return Some(index.value());
        }
    }
    None
}

/// The number of items of the accessor at an index.
pub fn count_at(accessors: &[Accessor], index: usize) -> Option<u64>
    ensures { result ≡ count_at accessors.now index }
{
    match accessors.get(index) {
        None => None,
        Some(accessor) => Some(accessor.count),
    }
}

/// The same, where there is an index.
pub fn count_of_index(accessors: &[Accessor], index: Option<usize>) -> Option<u64>
    ensures { result ≡ count_of_index accessors.now index }
{
    match index {
        None => None,
        Some(index) => count_at(accessors, index),
    }
}

/// Whether two numbers of items are not known to differ.
pub fn agree(expected: Option<u64>, count: u64) -> bool
    ensures { result ≡ agree expected count }
{
    match expected {
        None => true,
        Some(expected) => expected == count,
    }
}
