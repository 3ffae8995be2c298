//! The attributes of primitives and of their morph targets (glTF 2.0, section 3.7.2).
ghost use Rattle.std.specs.Prelude.{◌≡◌, IfOk, option_map, slice_get};
ghost use Rattle.std.specs.String.{string_bytes};
ghost use Rattle.gltf_c_scene.specs.Attributes.{meaning_number, set_number, shown_entry, entry_at};
ghost use Rattle.gltf_c_scene.specs.Attributes.{shown_attribute_of, target_attributes, semantic_of};
ghost use Rattle.gltf_c_scene.specs.Attributes.{found_attribute_of, normals_on, tangents_on};
ghost use Rattle.gltf_c_scene.specs.Attributes.{target_accessor, attribute_of, attribute_name_of};
ghost use Rattle.gltf_c_scene.specs.Attributes.{target_name, of_target, name_in_target, own_name};
ghost use Rattle.gltf_c_scene.specs.Attributes.{either_name, other_name};
ghost use Rattle.std.specs.Option.{option_copied};

use crate::mesh::record;
use crate::numbers::NONE;
use gltf_json::mesh::{MorphTarget, Primitive, Semantic};
use gltf_json::{Index, Root, kinds};
use gltf_json_geometry::laws::order_is_the_stated_one;
use std::alloc::{AllocError, Global};

/// What an attribute is. C declares the same struct.
#[repr(C)]
#[derive(Clone, Copy, Drop)]
pub struct GltfAttribute {
    /// What it means: 0 position, 1 normal, 2 tangent, 3 color, 4 texture coordinates, 5 joints,
    /// 6 weights, 7 an attribute of the application.
    pub meaning: u32,
    /// The n of `TEXCOORD_n` and its like, else 0.
    pub set: u32,
    /// The accessor of its values.
    pub accessor: usize,
    /// 0.
    pub reserved: [usize; 2],
}

/// The attribute at a position among those of a primitive, which stand in the order of `Semantic`;
/// or, where `target` is not [`NONE`], among those of that morph target.
pub fn attribute(
    root: &Root,
    mesh: usize,
    primitive: usize,
    target: usize,
    position: usize,
) -> Option<GltfAttribute>
    ensures { result ≡ shown_attribute_of mesh primitive target position root.now }
{
    let primitive = record(root, mesh, primitive)?;
    if target == NONE {
        let (semantic, index) = entry(primitive, position)?;
        Some(shown_entry(semantic, *index))
    } else {
        target_attribute(target_at(primitive, target)?, position)
    }
}

/// The attribute of a primitive at a position, with the index of its accessor.
fn entry(primitive: &Primitive, position: usize) -> Option<(&Semantic, &Index<kinds::Accessor>)>
    ensures { option_map (λ e. (e.0.now, e.1.now)) result ≡ entry_at primitive.now position }
{
    primitive.attributes.iter().nth(position)
}

fn shown_entry(semantic: &Semantic, index: Index<kinds::Accessor>) -> GltfAttribute
    ensures { result ≡ shown_entry semantic.now index }
{
    GltfAttribute {
        meaning: meaning_number(semantic),
        set: set_number(semantic),
        accessor: index.value(),
        reserved: [0; 2],
    }
}

/// The number of what an attribute means.
fn meaning_number(semantic: &Semantic) -> u32
    ensures { result ≡ meaning_number semantic.now }
{
    match semantic {
        Semantic::Positions => 0,
        Semantic::Normals => 1,
        Semantic::Tangents => 2,
        Semantic::Colors(_) => 3,
        Semantic::TexCoords(_) => 4,
        Semantic::Joints(_) => 5,
        Semantic::Weights(_) => 6,
        Semantic::Extras(_) => 7,
    }
}

/// The number of the set of an attribute, 0 where it has none.
fn set_number(semantic: &Semantic) -> u32
    ensures { result ≡ set_number semantic.now }
{
    match semantic {
        Semantic::Colors(set)
        | Semantic::TexCoords(set)
        | Semantic::Joints(set)
        | Semantic::Weights(set) => *set,
        _ => 0,
    }
}

/// The attribute at a position among those of a morph target: positions, normals, tangents.
fn target_attribute(target: &MorphTarget, position: usize) -> Option<GltfAttribute>
    ensures { result ≡ slice_get (target_attributes target.now) position }
{
    match target.positions {
        Some(index) if position == 0 => Some(of_target(0, index)),
        Some(_) => normals_on(target, position - 1),
        None => normals_on(target, position),
    }
}

/// The same from the normals on.
fn normals_on(target: &MorphTarget, position: usize) -> Option<GltfAttribute>
    ensures { result ≡ slice_get (normals_on target.now) position }
{
    match target.normals {
        Some(index) if position == 0 => Some(of_target(1, index)),
        Some(_) => tangents_on(target, position - 1),
        None => tangents_on(target, position),
    }
}

/// The same from the tangents on.
fn tangents_on(target: &MorphTarget, position: usize) -> Option<GltfAttribute>
    ensures { result ≡ slice_get (tangents_on target.now) position }
{
    match target.tangents {
        Some(index) if position == 0 => Some(of_target(2, index)),
        _ => None,
    }
}

/// An attribute of a morph target.
fn of_target(meaning: u32, index: Index<kinds::Accessor>) -> GltfAttribute
    ensures { result ≡ of_target meaning index }
{
    GltfAttribute {
        meaning,
        set: 0,
        accessor: index.value(),
        reserved: [0; 2],
    }
}

/// The accessor of an attribute of a primitive, or of one of its morph targets, by what it means
/// and the number of its set.
pub fn find(
    root: &Root,
    mesh: usize,
    primitive: usize,
    target: usize,
    meaning: u32,
    set: u32,
) -> Option<usize>
    ensures { result ≡ found_attribute_of mesh primitive target meaning set root.now }
{
    let primitive = record(root, mesh, primitive)?;
    if target == NONE {
        accessor(primitive, &semantic(meaning, set)?)
    } else {
        target_accessor(target_at(primitive, target)?, meaning)
    }
}

/// The attribute of a number and of a set, where there is one.
fn semantic(meaning: u32, set: u32) -> Option<Semantic>
    ensures { result ≡ semantic_of meaning set }
{
    match meaning {
        0 => Some(Semantic::Positions),
        1 => Some(Semantic::Normals),
        2 => Some(Semantic::Tangents),
        3 => Some(Semantic::Colors(set)),
        4 => Some(Semantic::TexCoords(set)),
        5 => Some(Semantic::Joints(set)),
        6 => Some(Semantic::Weights(set)),
        _ => None,
    }
}

fn accessor(primitive: &Primitive, semantic: &Semantic) -> Option<usize>
    ensures { result ≡ attribute_of primitive.now semantic.now }
{
    // A law that the proof stands on; the call does nothing.
    order_is_the_stated_one();
    match primitive.attributes.get(semantic) {
        Some(index) => Some(index.value()),
        None => None,
    }
}

/// The accessor of an attribute of a morph target, by what it means.
fn target_accessor(target: &MorphTarget, meaning: u32) -> Option<usize>
    ensures { result ≡ target_accessor target.now meaning }
{
    let index = match meaning {
        0 => target.positions,
        1 => target.normals,
        2 => target.tangents,
        _ => None,
    };
    Some(index?.value())
}

/// The name of the attribute at a position, as the file has it: `POSITION`, `TEXCOORD_0`,
/// `_TEMPERATURE`. The error says that there was no memory for it.
pub fn attribute_name(
    alloc: Global,
    root: &Root,
    mesh: usize,
    primitive: usize,
    target: usize,
    position: usize,
) -> Result<Option<String>, AllocError>
    ensures { IfOk result (λ found. option_map string_bytes found
        ≡ attribute_name_of mesh primitive target position root.now) }
{
    match record(root, mesh, primitive) {
        Some(primitive) => either_name(alloc, primitive, target, position),
        None => Ok(None),
    }
}

/// The same among those of a primitive or of one of its morph targets.
fn either_name(
    alloc: Global,
    primitive: &Primitive,
    target: usize,
    position: usize,
) -> Result<Option<String>, AllocError>
    ensures { IfOk result (λ found. option_map string_bytes found
        ≡ either_name target position primitive.now) }
{
    if target == NONE {
        own_name(alloc, primitive, position)
    } else {
        other_name(alloc, target_at(primitive, target), position)
    }
}

/// The morph target of a primitive at an index.
fn target_at(primitive: &Primitive, index: usize) -> Option<&MorphTarget>
    ensures { option_copied result ≡ slice_get primitive.now.targets.items index }
{
    primitive.targets.get(index)
}

/// The same among those of a morph target, where there is one.
fn other_name(
    alloc: Global,
    target: Option<&MorphTarget>,
    position: usize,
) -> Result<Option<String>, AllocError>
    ensures { IfOk result (λ found. option_map string_bytes found
        ≡ other_name position (option_copied target.entry)) }
{
    match target {
        Some(target) => name_in_target(alloc, target, position),
        None => Ok(None),
    }
}

/// The name of the attribute at a position among those of a primitive.
fn own_name(
    alloc: Global,
    primitive: &Primitive,
    position: usize,
) -> Result<Option<String>, AllocError>
    ensures { IfOk result (λ found. option_map string_bytes found
        ≡ own_name primitive.now position) }
{
    match entry(primitive, position) {
        Some((semantic, _)) => Ok(Some(format!(in alloc; "{semantic}")?)),
        None => Ok(None),
    }
}

/// The name of the attribute at a position among those of a morph target.
fn name_in_target(
    alloc: Global,
    target: &MorphTarget,
    position: usize,
) -> Result<Option<String>, AllocError>
    ensures { IfOk result (λ found. option_map string_bytes found
        ≡ name_in_target target.now position) }
{
    match target_attribute(target, position) {
        Some(found) => Ok(Some(String::from_str(alloc, target_name(found.meaning))?)),
        None => Ok(None),
    }
}

/// The name of an attribute of a morph target.
fn target_name(meaning: u32) -> &'static str
    ensures { result.now ≡ target_name meaning }
{
    if meaning == 0 {
        "POSITION"
    } else if meaning == 1 {
        "NORMAL"
    } else {
        "TANGENT"
    }
}
