//! Skins (glTF 2.0, section 3.7.3), and the lists of nodes that records hold.
ghost use Rattle.std.specs.Prelude.{◌≡◌};
ghost use Rattle.std.specs.Option.{option_copied};
ghost use Rattle.gltf_c_scene.specs.Skins.{shown_skin, shown_skin_of, node_list_of, list_kind_of};

use crate::numbers::index_or_none;
use gltf_json::skin::Skin;
use gltf_json::{Index, Root, kinds};

/// What a skin is (glTF 2.0, section 5.28). C declares the same struct.
#[repr(C)]
#[derive(Clone, Copy, Drop)]
pub struct GltfSkin {
    /// How many joints there are.
    pub joints: usize,
    /// The node that is the common root, or `NONE`.
    pub skeleton: usize,
    /// The accessor of the inverse bind matrices, or `NONE`.
    pub inverse_bind_matrices: usize,
    /// 0.
    pub reserved: [usize; 2],
}

/// What the skin at an index is.
pub fn skin(root: &Root, index: usize) -> Option<GltfSkin>
    ensures { result ≡ shown_skin_of index root.now }
{
    Some(shown_skin(root.skins.get(index)?))
}

fn shown_skin(skin: &Skin) -> GltfSkin
    ensures { result ≡ shown_skin skin.now }
{
    GltfSkin {
        joints: skin.joints.len(),
        skeleton: index_or_none(skin.skeleton),
        inverse_bind_matrices: index_or_none(skin.inverse_bind_matrices),
        reserved: [0; 2],
    }
}

/// A list of nodes that a record holds.
#[derive(Clone, Copy, Debug, PartialEq, Eq)]
pub enum NodeList {
    /// The root nodes of a scene (glTF 2.0, section 5.27.1).
    Scene,
    /// The children of a node (section 5.25.2).
    Children,
    /// The joints of a skin (section 5.28.3).
    Joints,
}

impl NodeList {
    /// The list of a number, where there is one.
    pub fn of(number: u32) -> Option<NodeList>
        ensures { result ≡ list_kind_of number }
    {
        match number {
            0 => Some(NodeList::Scene),
            1 => Some(NodeList::Children),
            2 => Some(NodeList::Joints),
            _ => None,
        }
    }
}

/// The list of nodes of a number that the record at an index holds.
pub fn node_list(root: &Root, list: u32, index: usize) -> Option<&[Index<kinds::Node>]>
    ensures { option_copied result ≡ node_list_of list index root.now }
{
    match NodeList::of(list)? {
        NodeList::Scene => Some(root.scenes.get(index)?.nodes.as_slice()),
        NodeList::Children => Some(root.nodes.get(index)?.children.as_slice()),
        NodeList::Joints => Some(root.skins.get(index)?.joints.as_slice()),
    }
}
