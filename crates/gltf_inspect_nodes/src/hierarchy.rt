//! The hierarchy of nodes: which of them are children, and of which node (glTF 2.0, section 3.5.2).
ghost use Rattle.std.specs.Prelude.{◌≡◌, ◌&&◌, IfOk, not, set, true};
ghost use Rattle.gltf_inspect_nodes.specs.Hierarchies.{IsHierarchyOf};
ghost use Rattle.gltf_inspect_nodes.specs.Marks.{is_marked, marked, marked_all, are_new};
ghost use Rattle.gltf_inspect_nodes.specs.Marks.{are_all_new};
ghost use Rattle.gltf_inspect_nodes.specs.Named.{children_of};
ghost use Rattle.gltf_inspect_nodes.specs.Roots.{numbers, with_parent, with_parents};

use crate::marks::{mark, no_marks};
use gltf_json_record::index::Index;
use gltf_json_record::kinds;
use gltf_json_scene::scene::Node;
use std::alloc::{AllocError, Global};

/// Which nodes are children, and of which node: found in one walk over all lists of children.
#[derive(Drop)]
pub struct Hierarchy {
    /// Of each node its parent: the last one that has it as a child; itself where it has none.
    pub parents: Vec<usize>,
    /// Of each node, whether a node has it as a child.
    pub are_children: Vec<bool>,
    /// Whether it was found that these lists name no node twice, in one list or in two.
    pub are_named_once: bool,
}

impl Hierarchy {
    /// The hierarchy of these nodes. Takes nine bytes a node; fails where there is no memory.
    pub fn of(alloc: Global, nodes: &[Node]) -> Result<Hierarchy, AllocError>
        ensures { IfOk result (λ hierarchy. IsHierarchyOf nodes.now hierarchy) }
    {
        let parents = numbers(alloc, nodes)?;
        let are_children = no_marks(alloc, nodes.len())?;
        let mut hierarchy = Hierarchy {
            parents,
            are_children,
            are_named_once: true,
        };
        hierarchy.add_all(nodes);
        Ok(hierarchy)
    }

    fn add_all(&mut self, nodes: &[Node])
        ensures parents { self.new.parents.items
            ≡ with_parents self.old.parents.items 0 nodes.now }
        ensures children { self.new.are_children.items
            ≡ marked_all children_of self.old.are_children.items nodes.now }
        ensures once { self.new.are_named_once ≡ (self.old.are_named_once
            && are_all_new children_of self.old.are_children.items nodes.now) }
    {
        for (i, node) in nodes.iter().enumerate() {
            self.add_children(i, node.children.as_slice());
        }
    }

    fn add_children(&mut self, parent: usize, children: &[Index<kinds::Node>])
        ensures parents { self.new.parents.items
            ≡ with_parent self.old.parents.items parent children.now }
        ensures children { self.new.are_children.items
            ≡ marked self.old.are_children.items children.now }
        ensures once { self.new.are_named_once ≡ (self.old.are_named_once
            && are_new self.old.are_children.items children.now) }
    {
        for child in children {
            self.add(parent, child.value());
        }
    }

    /// A child of a node. A number that is no node adds nothing.
    fn add(&mut self, parent: usize, child: usize)
        ensures parents { self.new.parents.items ≡ set self.old.parents.items child parent }
        ensures children { self.new.are_children.items
            ≡ set self.old.are_children.items child true }
        ensures once { self.new.are_named_once ≡ (self.old.are_named_once
            && not (is_marked self.old.are_children.items child)) }
    {
        if child < self.parents.len() {
            self.parents[child] = parent;
        }
        let was_child = mark(&mut self.are_children, child);
        self.are_named_once = self.are_named_once && !was_child;
    }
}

fn numbers(alloc: Global, nodes: &[Node]) -> Result<Vec<usize>, AllocError>
    ensures { IfOk result (λ found. found.items ≡ numbers 0 nodes.now) }
{
    let mut found = Vec::with_capacity(alloc, nodes.len())?;
    for (i, _node) in nodes.iter().enumerate() {
        found.push(i)?;
    }
    Ok(found)
}
