//! The lists of nodes that stored indices name.

ghost use Rattle.std.specs.Prelude.{◌≡◌, length, ⊤};
ghost use Rattle.gltf_validation.specs.Documents.{counts_of};
ghost use Rattle.gltf_validation.specs.Members.{index_rules, list_rules};
ghost use Rattle.gltf_validation.specs.Rules.{Hold, Hold-prop};

use crate::scene::Node;
use gltf_handles::list::{Indexed, List};
use gltf_json::{Index, kinds};
use gltf_rules::{Records, Valid};
use std::alloc::AllocError;

/// The root nodes of a scene.
pub type Nodes<'a, D = Valid> = List<NamedNodes<'a, D>>;

/// The children of a node.
pub type Children<'a, D = Valid> = List<NamedNodes<'a, D>>;

/// What lists of nodes go over that indices name: `Nodes`, `Children` and the joints of a skin.
#[derive_where(Debug; D)]
pub struct NamedNodes<'a, D: Records = Valid> {
    /// The document of the nodes.
    pub document: &'a D,
    /// The indices, in stored order.
    pub nodes: &'a [Index<kinds::Node>],
    ghost holds: { Hold (list_rules
        (index_rules (counts_of (D.root document.now)).nodes) nodes.now) } by { Hold-prop
            (list_rules (index_rules (counts_of (D.root document.now)).nodes) nodes.now) },
}

impl<'a, D: Records> Copy for NamedNodes<'a, D> {}

impl<'a, D: Records> Clone for NamedNodes<'a, D> {
    ghost is_clone = { λ x y. y ≡ x };

    ghost is_infallible = { λ _. ⊤ };

    fn clone(&self) -> Result<Self, AllocError> {
        Ok(*self)
    }
}

impl<'a, D: Records> NamedNodes<'a, D> {
    /// The nodes of these indices, which are below the number of nodes.
    pub fn new(document: &'a D, nodes: &'a [Index<kinds::Node>]) -> Self
        requires { Hold
            (list_rules (index_rules (counts_of (D.root document.now)).nodes) nodes.now) }
        ensures document { result.document.now ≡ document.now }
        ensures nodes { result.nodes.now ≡ nodes.now }
    {
        NamedNodes { document, nodes }
    }
}

impl<'a, D: Records> Indexed for NamedNodes<'a, D> {
    ghost use Rattle.gltf_scene.specs.Nodes.{IsNamed};

    type Item = Node<'a, D>;

    ghost count = { λ s. length s.nodes.now };

    ghost gives = { λ s i n. IsNamed (D.root s.document.now) s.nodes.now i n };

    fn len(&self) -> usize {
        self.nodes.len()
    }

    fn get(&self, index: usize) -> Node<'a, D> {
        let named = self.document.element(self.nodes, index);
        Node::new(self.document, named.value())
    }
}
