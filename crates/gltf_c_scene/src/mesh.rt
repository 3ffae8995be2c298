//! Meshes and their primitives (glTF 2.0, section 3.7).
ghost use Rattle.std.specs.Prelude.{◌≡◌};
ghost use Rattle.std.specs.Option.{option_copied};
ghost use Rattle.gltf_handles.specs.Sizes.{code_of};
ghost use Rattle.gltf_c_scene.specs.Meshes.{shown_mesh, primitive_of, mode_number};
ghost use Rattle.gltf_c_scene.specs.Meshes.{shown_primitive, shown_mesh_of, shown_primitive_of};
ghost use Rattle.gltf_c_scene.specs.Meshes.{variant_material_of, mapped, has_number};
ghost use Rattle.gltf_scene.specs.Primitives.{mappings_of};

use crate::numbers::{count_numbers, index_or_none};
use gltf_json::Root;
use gltf_json::boxed::lent;
use gltf_json::extensions::mesh::Mapping;
use gltf_json::mesh::{Mesh, Mode, Primitive};
use gltf_json_record::validation::Checked;

/// What a mesh is (glTF 2.0, section 5.23). C declares the same struct.
#[repr(C)]
#[derive(Clone, Copy, Drop)]
pub struct GltfMesh {
    /// How many primitives there are.
    pub primitives: usize,
    /// How many weights of morph targets there are.
    pub weights: usize,
    /// 0.
    pub reserved: [usize; 2],
}

/// What a primitive is (glTF 2.0, section 5.24). C declares the same struct.
#[repr(C)]
#[derive(Clone, Copy, Drop)]
pub struct GltfPrimitive {
    /// How vertices are joined: 0 points to 6 triangle fan, as the format numbers them.
    pub mode: u32,
    /// 0.
    pub reserved_word: u32,
    /// The accessor of the indices, or `NONE`.
    pub indices: usize,
    /// The material, or `NONE`.
    pub material: usize,
    /// How many attributes there are.
    pub attributes: usize,
    /// How many morph targets there are.
    pub targets: usize,
    /// 0.
    pub reserved: [usize; 2],
}

/// What the mesh at an index is.
pub fn mesh(root: &Root, index: usize) -> Option<GltfMesh>
    ensures { result ≡ shown_mesh_of index root.now }
{
    Some(shown_mesh(root.meshes.get(index)?))
}

fn shown_mesh(mesh: &Mesh) -> GltfMesh
    ensures { result ≡ shown_mesh mesh.now }
{
    GltfMesh {
        primitives: mesh.primitives.len(),
        weights: count_numbers(mesh.weights.as_ref()),
        reserved: [0; 2],
    }
}

/// What a primitive of a mesh is.
pub fn primitive(root: &Root, mesh: usize, index: usize) -> Option<GltfPrimitive>
    ensures { result ≡ shown_primitive_of mesh index root.now }
{
    Some(shown_primitive(record(root, mesh, index)?))
}

/// The record of a primitive of a mesh.
pub(crate) fn record(root: &Root, mesh: usize, index: usize) -> Option<&Primitive>
    ensures { option_copied result ≡ primitive_of mesh index root.now }
{
    root.meshes.get(mesh)?.primitives.get(index)
}

fn shown_primitive(primitive: &Primitive) -> GltfPrimitive
    ensures { result ≡ shown_primitive primitive.now }
{
    GltfPrimitive {
        mode: mode_number(primitive.mode),
        reserved_word: 0,
        indices: index_or_none(primitive.indices),
        material: index_or_none(primitive.material),
        attributes: primitive.attributes.len(),
        targets: primitive.targets.len(),
        reserved: [0; 2],
    }
}

/// The number of a mode (glTF 2.0, section 5.24.4).
fn mode_number(mode: Checked<Mode>) -> u32
    ensures { result ≡ code_of mode_number mode }
{
    match mode {
        Checked::Valid(Mode::Points) | Checked::Invalid => 0,
        Checked::Valid(Mode::Lines) => 1,
        Checked::Valid(Mode::LineLoop) => 2,
        Checked::Valid(Mode::LineStrip) => 3,
        Checked::Valid(Mode::Triangles) => 4,
        Checked::Valid(Mode::TriangleStrip) => 5,
        Checked::Valid(Mode::TriangleFan) => 6,
    }
}

/// The material of a primitive under a variant: that of the first mapping which has the variant.
/// None where there is no such mapping, and the material of the primitive holds
/// (`KHR_materials_variants`).
pub fn variant_material(root: &Root, mesh: usize, primitive: usize, variant: usize) -> Option<usize>
    ensures { result ≡ variant_material_of mesh primitive variant root.now }
{
    mapped(mappings(record(root, mesh, primitive)?), variant)
}

/// The mappings of a primitive: none, where the extension is absent.
pub(crate) fn mappings(primitive: &Primitive) -> &[Mapping]
    ensures { result.now ≡ mappings_of primitive.now.extensions }
{
    match lent(&primitive.extensions) {
        Some(extensions) => match &extensions.khr_materials_variants {
            Some(extension) => extension.mappings.as_slice(),
            None => &[],
        },
        None => &[],
    }
}

/// The material of the first mapping that has a variant.
fn mapped(mappings: &[Mapping], variant: usize) -> Option<usize>
    ensures { result ≡ mapped variant mappings.now }
{
    for mapping in mappings {
        if has_variant(&mapping.variants, variant) {
            return Some(mapping.material as usize);
        }
    }
    None
}

/// Whether a list has a number.
pub(crate) fn has_variant(variants: &[u32], variant: usize) -> bool
    ensures { result ≡ has_number variant variants.now }
{
    for number in variants {
        if *number as usize == variant {
            return true;
        }
    }
    false
}
