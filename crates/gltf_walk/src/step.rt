//! The steps of a walk.

use gltf_rules::{Records, Valid};
use gltf_scene::scene::Node;

/// A node as it is reached in a walk (glTF 2.0, section 3.5.1, "Nodes and Hierarchy").
#[derive_where(Clone, Copy)]
#[derive_where(Debug; D)]
pub struct Step<'a, D: Records = Valid> {
    /// The node.
    pub node: Node<'a, D>,
    /// The index of the node from whose children it was reached; None where it is one of those that
    /// the walk begins with.
    pub parent: Option<usize>,
    /// How many ancestors it was reached through.
    pub depth: usize,
    /// Whether an earlier step has the node. What is below it is not walked again.
    pub again: bool,
}
