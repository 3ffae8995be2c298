//! Calls for meshes and their parts, nodes, scenes, skins and animations.
ghost use Rattle.std.specs.Prelude.{◌≡◌, Some};
ghost use Rattle.gltf_c_scene.specs.Animations.{shown_animation_of, shown_channel_of};
ghost use Rattle.gltf_c_scene.specs.Attributes.{shown_attribute_of, found_attribute_of};
ghost use Rattle.gltf_c_scene.specs.Kinds.{count_of};
ghost use Rattle.gltf_c_scene.specs.Meshes.{shown_mesh_of, shown_primitive_of};
ghost use Rattle.gltf_c_scene.specs.Meshes.{variant_material_of};
ghost use Rattle.gltf_c_scene.specs.Nodes.{shown_node_of, shown_scene_of};
ghost use Rattle.gltf_c_scene.specs.Skins.{shown_skin_of};
ghost use Rattle.gltf_c_scene.specs.Variants.{variant_fault_of};
ghost use Rattle.gltf_c_handle.specs.Calls.{Gives, shown};
ghost use Rattle.gltf_c_calls.specs.Calls.{HasCount, default_scene};

use crate::at::At;
use gltf_c_fault::fault::GltfFault;
use gltf_c_handle::ask::{Ask, answer};
use gltf_c_handle::handle::GltfFile;
use gltf_c_open::file::File;
use gltf_c_scene::animation::{GltfAnimation, GltfChannel};
use gltf_c_scene::attribute::GltfAttribute;
use gltf_c_scene::mesh::{GltfMesh, GltfPrimitive};
use gltf_c_scene::node::{GltfNode, GltfScene};
use gltf_c_scene::skin::GltfSkin;
use gltf_c_scene::{animation, attribute, kind, mesh, node, skin, variant};
use std::alloc::Global;

/// How many records of a kind there are.
#[derive(Clone, Copy)]
struct CountOf {
    kind: u32,
}

impl Ask<usize> for CountOf {
    ghost asked = { λ call file. Some (count_of call.kind file.document) };

    fn ask(&self, file: &File) -> Option<usize> {
        Some(kind::count(file.document.as_json(), self.kind))
    }
}

/// How many records of a kind there are; 0 in a closed file, and for a number that is no kind.
pub fn count(alloc: Global, file: &mut GltfFile, kind: u32) -> usize
    ensures same { file.new.value ≡ file.old.value }
    ensures count { HasCount file.old.value kind result }
{
    let mut count = 0;
    answer(alloc, file, &CountOf { kind }, &mut count);
    count
}

impl Ask<GltfMesh> for At {
    ghost asked = { λ at. shown (shown_mesh_of at.index) };

    fn ask(&self, file: &File) -> Option<GltfMesh> {
        mesh::mesh(file.document.as_json(), self.index)
    }
}

/// What the mesh at an index is (glTF 2.0, section 5.23).
pub fn mesh_info(alloc: Global, file: &mut GltfFile, index: usize, out: &mut GltfMesh) -> u32
    ensures same { file.new.value ≡ file.old.value }
    ensures given { Gives (shown (shown_mesh_of index)) file.old.value result out.old out.new }
{
    answer(alloc, file, &At { index }, out)
}

/// A primitive of a mesh.
#[derive(Clone, Copy)]
struct PrimitiveAt {
    mesh: usize,
    primitive: usize,
}

impl Ask<GltfPrimitive> for PrimitiveAt {
    ghost asked = { λ call. shown (shown_primitive_of call.mesh call.primitive) };

    fn ask(&self, file: &File) -> Option<GltfPrimitive> {
        mesh::primitive(file.document.as_json(), self.mesh, self.primitive)
    }
}

/// What a primitive of a mesh is (section 5.24).
pub fn primitive_info(
    alloc: Global,
    file: &mut GltfFile,
    mesh: usize,
    primitive: usize,
    out: &mut GltfPrimitive,
) -> u32
    ensures same { file.new.value ≡ file.old.value }
    ensures given { Gives (shown (shown_primitive_of mesh primitive)) file.old.value
        result out.old out.new }
{
    answer(alloc, file, &PrimitiveAt { mesh, primitive }, out)
}

/// An attribute of a primitive or of one of its morph targets, by its position.
#[derive(Clone, Copy)]
struct AttributeAt {
    mesh: usize,
    primitive: usize,
    target: usize,
    position: usize,
}

impl Ask<GltfAttribute> for AttributeAt {
    ghost asked = { λ call. shown
        (shown_attribute_of call.mesh call.primitive call.target call.position) };

    fn ask(&self, file: &File) -> Option<GltfAttribute> {
        attribute::attribute(
            file.document.as_json(),
            self.mesh,
            self.primitive,
            self.target,
            self.position,
        )
    }
}

/// The attribute at a position among those of a primitive; or, where `target` is not the greatest
/// number, among those of that morph target (section 3.7.2).
pub fn attribute_info(
    alloc: Global,
    file: &mut GltfFile,
    mesh: usize,
    primitive: usize,
    target: usize,
    position: usize,
    out: &mut GltfAttribute,
) -> u32
    ensures same { file.new.value ≡ file.old.value }
    ensures given { Gives (shown (shown_attribute_of mesh primitive target position))
        file.old.value result out.old out.new }
{
    let attribute = AttributeAt {
        mesh,
        primitive,
        target,
        position,
    };
    answer(alloc, file, &attribute, out)
}

/// The accessor of an attribute, by what it means.
#[derive(Clone, Copy)]
struct AttributeOf {
    mesh: usize,
    primitive: usize,
    target: usize,
    meaning: u32,
    set: u32,
}

impl Ask<usize> for AttributeOf {
    ghost asked = { λ call. shown
        (found_attribute_of call.mesh call.primitive call.target call.meaning call.set) };

    fn ask(&self, file: &File) -> Option<usize> {
        attribute::find(
            file.document.as_json(),
            self.mesh,
            self.primitive,
            self.target,
            self.meaning,
            self.set,
        )
    }
}

/// The accessor of an attribute, by the number of what it means and that of its set (section
/// 3.7.2.1).
pub fn attribute_find(
    alloc: Global,
    file: &mut GltfFile,
    mesh: usize,
    primitive: usize,
    target: usize,
    meaning: u32,
    set: u32,
    out: &mut usize,
) -> u32
    ensures same { file.new.value ≡ file.old.value }
    ensures given { Gives (shown (found_attribute_of mesh primitive target meaning set))
        file.old.value result out.old out.new }
{
    let attribute = AttributeOf {
        mesh,
        primitive,
        target,
        meaning,
        set,
    };
    answer(alloc, file, &attribute, out)
}

/// The material of a primitive under a variant.
#[derive(Clone, Copy)]
struct VariantOf {
    mesh: usize,
    primitive: usize,
    variant: usize,
}

impl Ask<usize> for VariantOf {
    ghost asked = { λ call. shown (variant_material_of call.mesh call.primitive call.variant) };

    fn ask(&self, file: &File) -> Option<usize> {
        mesh::variant_material(
            file.document.as_json(),
            self.mesh,
            self.primitive,
            self.variant,
        )
    }
}

/// The material of a primitive under a variant, where a mapping names one
/// (`KHR_materials_variants`).
pub fn variant_material(
    alloc: Global,
    file: &mut GltfFile,
    mesh: usize,
    primitive: usize,
    variant: usize,
    out: &mut usize,
) -> u32
    ensures same { file.new.value ≡ file.old.value }
    ensures given { Gives (shown (variant_material_of mesh primitive variant)) file.old.value
        result out.old out.new }
{
    let material = VariantOf {
        mesh,
        primitive,
        variant,
    };
    answer(alloc, file, &material, out)
}

impl Ask<GltfFault> for VariantOf {
    ghost asked = { λ call. shown (variant_fault_of call.mesh call.primitive call.variant) };

    fn ask(&self, file: &File) -> Option<GltfFault> {
        variant::variant_fault(
            file.document.as_json(),
            self.mesh,
            self.primitive,
            self.variant,
        )
    }
}

/// What is wrong with the material of a primitive under a variant, where the document does not have
/// it (`KHR_materials_variants`).
pub fn variant_fault(
    alloc: Global,
    file: &mut GltfFile,
    mesh: usize,
    primitive: usize,
    variant: usize,
    out: &mut GltfFault,
) -> u32
    ensures same { file.new.value ≡ file.old.value }
    ensures given { Gives (shown (variant_fault_of mesh primitive variant)) file.old.value
        result out.old out.new }
{
    let material = VariantOf {
        mesh,
        primitive,
        variant,
    };
    answer(alloc, file, &material, out)
}

/// The scene to show.
#[derive(Clone, Copy)]
struct DefaultScene;

impl Ask<usize> for DefaultScene {
    ghost asked = { λ _. shown default_scene };

    fn ask(&self, file: &File) -> Option<usize> {
        node::default_scene(file.document.as_json())
    }
}

/// The scene to show, where the document names one (section 3.5.1).
pub fn default_scene(alloc: Global, file: &mut GltfFile, out: &mut usize) -> u32
    ensures same { file.new.value ≡ file.old.value }
    ensures given { Gives (shown default_scene) file.old.value
        result out.old out.new }
{
    answer(alloc, file, &DefaultScene, out)
}

impl Ask<GltfScene> for At {
    ghost asked = { λ at. shown (shown_scene_of at.index) };

    fn ask(&self, file: &File) -> Option<GltfScene> {
        node::scene(file.document.as_json(), self.index)
    }
}

/// What the scene at an index is (section 5.27).
pub fn scene_info(alloc: Global, file: &mut GltfFile, index: usize, out: &mut GltfScene) -> u32
    ensures same { file.new.value ≡ file.old.value }
    ensures given { Gives (shown (shown_scene_of index)) file.old.value result out.old out.new }
{
    answer(alloc, file, &At { index }, out)
}

impl Ask<GltfNode> for At {
    ghost asked = { λ at. shown (shown_node_of at.index) };

    fn ask(&self, file: &File) -> Option<GltfNode> {
        node::node(file.document.as_json(), self.index)
    }
}

/// What the node at an index is (section 5.25).
pub fn node_info(alloc: Global, file: &mut GltfFile, index: usize, out: &mut GltfNode) -> u32
    ensures same { file.new.value ≡ file.old.value }
    ensures given { Gives (shown (shown_node_of index)) file.old.value result out.old out.new }
{
    answer(alloc, file, &At { index }, out)
}

impl Ask<GltfSkin> for At {
    ghost asked = { λ at. shown (shown_skin_of at.index) };

    fn ask(&self, file: &File) -> Option<GltfSkin> {
        skin::skin(file.document.as_json(), self.index)
    }
}

/// What the skin at an index is (section 5.28).
pub fn skin_info(alloc: Global, file: &mut GltfFile, index: usize, out: &mut GltfSkin) -> u32
    ensures same { file.new.value ≡ file.old.value }
    ensures given { Gives (shown (shown_skin_of index)) file.old.value result out.old out.new }
{
    answer(alloc, file, &At { index }, out)
}

impl Ask<GltfAnimation> for At {
    ghost asked = { λ at. shown (shown_animation_of at.index) };

    fn ask(&self, file: &File) -> Option<GltfAnimation> {
        animation::animation(file.document.as_json(), self.index)
    }
}

/// What the animation at an index is (section 5.5).
pub fn animation_info(
    alloc: Global,
    file: &mut GltfFile,
    index: usize,
    out: &mut GltfAnimation,
) -> u32
    ensures same { file.new.value ≡ file.old.value }
    ensures given { Gives (shown (shown_animation_of index)) file.old.value result out.old out.new }
{
    answer(alloc, file, &At { index }, out)
}

/// A channel of an animation.
#[derive(Clone, Copy)]
struct ChannelAt {
    animation: usize,
    channel: usize,
}

impl Ask<GltfChannel> for ChannelAt {
    ghost asked = { λ call. shown (shown_channel_of call.animation call.channel) };

    fn ask(&self, file: &File) -> Option<GltfChannel> {
        animation::channel(file.document.as_json(), self.animation, self.channel)
    }
}

/// What a channel of an animation is, with its sampler (sections 5.6 to 5.8).
pub fn channel_info(
    alloc: Global,
    file: &mut GltfFile,
    animation: usize,
    channel: usize,
    out: &mut GltfChannel,
) -> u32
    ensures same { file.new.value ≡ file.old.value }
    ensures given { Gives (shown (shown_channel_of animation channel)) file.old.value
        result out.old out.new }
{
    answer(alloc, file, &ChannelAt { animation, channel }, out)
}
