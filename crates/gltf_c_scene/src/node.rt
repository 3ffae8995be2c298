//! Nodes and scenes (glTF 2.0, section 3.5).
ghost use Rattle.std.specs.Prelude.{◌≡◌};
ghost use Rattle.gltf_c_scene.specs.Nodes.{shown_node, shown_node_of, shown_scene, shown_scene_of};
ghost use Rattle.gltf_c_scene.specs.Nodes.{transform_bits, light_of};

use crate::numbers::{NONE, count_numbers, index_or_none, numbers_else, one_or_zero};
use gltf_json::Root;
use gltf_json::boxed::lent;
use gltf_json::scene::{Node, Scene};
use gltf_numbers::defaults::{ROTATION, SCALE, TRANSLATION};

/// `matrix` of a node that states none: the unit matrix (glTF 2.0, section 5.25.4).
pub const MATRIX: [f64; 16] = [
    1.0, 0.0, 0.0, 0.0, 0.0, 1.0, 0.0, 0.0, 0.0, 0.0, 1.0, 0.0, 0.0, 0.0, 0.0, 1.0,
];

/// What a node is (glTF 2.0, section 5.25). C declares the same struct.
#[repr(C)]
#[derive(Clone, Copy, Drop)]
pub struct GltfNode {
    /// The mesh, or `NONE`.
    pub mesh: usize,
    /// The skin, or `NONE`.
    pub skin: usize,
    /// The camera, or `NONE`.
    pub camera: usize,
    /// The light (`KHR_lights_punctual`), or `NONE`.
    pub light: usize,
    /// How many children there are.
    pub children: usize,
    /// How many weights of morph targets there are.
    pub weights: usize,
    /// What the document states: 1 for `matrix`, 2 for `translation`, 4 for `rotation`, 8 for
    /// `scale`, added up.
    pub has: u32,
    /// 0.
    pub reserved_word: u32,
    /// The matrix, column by column; the unit matrix where it is absent.
    pub matrix: [f64; 16],
    /// In metres.
    pub translation: [f64; 3],
    /// A unit quaternion x, y, z, w.
    pub rotation: [f64; 4],
    /// Along x, y and z.
    pub scale: [f64; 3],
    /// 0.
    pub reserved: [usize; 4],
}

/// What a scene is (glTF 2.0, section 5.27). C declares the same struct.
#[repr(C)]
#[derive(Clone, Copy, Drop)]
pub struct GltfScene {
    /// How many root nodes there are.
    pub nodes: usize,
    /// 0.
    pub reserved: [usize; 2],
}

/// What the node at an index is.
pub fn node(root: &Root, index: usize) -> Option<GltfNode>
    ensures { result ≡ shown_node_of index root.now }
{
    Some(shown_node(root.nodes.get(index)?))
}

fn shown_node(node: &Node) -> GltfNode
    ensures { result ≡ shown_node node.now }
{
    GltfNode {
        mesh: index_or_none(node.mesh),
        skin: index_or_none(node.skin),
        camera: index_or_none(node.camera),
        light: light(node),
        children: node.children.len(),
        weights: count_numbers(node.weights.as_ref()),
        has: transform_bits(node),
        reserved_word: 0,
        matrix: numbers_else(&node.matrix, MATRIX),
        translation: numbers_else(&node.translation, TRANSLATION),
        rotation: numbers_else(&node.rotation, ROTATION),
        scale: numbers_else(&node.scale, SCALE),
        reserved: [0; 4],
    }
}

/// The light of a node, or `NONE`.
fn light(node: &Node) -> usize
    ensures { result ≡ light_of node.now }
{
    match lent(&node.extensions) {
        Some(extensions) => match &extensions.khr_lights_punctual {
            Some(extension) => extension.light.value(),
            None => NONE,
        },
        None => NONE,
    }
}

/// Which members of a node's transformation the document states.
fn transform_bits(node: &Node) -> u32
    ensures { result ≡ transform_bits node.now }
{
    one_or_zero(node.matrix.is_some())
        + 2 * one_or_zero(node.translation.is_some())
        + 4 * one_or_zero(node.rotation.is_some())
        + 8 * one_or_zero(node.scale.is_some())
}

/// What the scene at an index is.
pub fn scene(root: &Root, index: usize) -> Option<GltfScene>
    ensures { result ≡ shown_scene_of index root.now }
{
    Some(shown_scene(root.scenes.get(index)?))
}

fn shown_scene(scene: &Scene) -> GltfScene
    ensures { result ≡ shown_scene scene.now }
{
    GltfScene {
        nodes: scene.nodes.len(),
        reserved: [0; 2],
    }
}

/// The scene to show, where the document names one (glTF 2.0, section 3.5.1).
pub fn default_scene(root: &Root) -> Option<usize>
    ensures { result ≡ root.now.scene }
{
    Some(root.scene?.value())
}
