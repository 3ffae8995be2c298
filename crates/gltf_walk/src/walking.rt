//! The walk, without recursion: a file decides how deep its nodes are.

ghost use Rattle.std.specs.Prelude.{IfOk};
ghost use Rattle.gltf_handles.specs.Lists.{position};
ghost use Rattle.gltf_scene.specs.Scenes.{scene_handle};
ghost use Rattle.gltf_walk.specs.Walks.{IsWalk, document_of, nodes_left};

use crate::marks::mark;
use crate::step::Step;
use gltf_rules::Records;
use gltf_scene::scene::Scene;
use gltf_scene::scene::iter::{Children, Nodes};
use std::alloc::{AllocError, Global};

/// Siblings that are left, the index of their parent, and how many ancestors they have.
type Level<'a, D> = (Children<'a, D>, Option<usize>, usize);

/// The nodes of a list and those below them, depth first, parents before children, siblings in
/// stored order (glTF 2.0, section 3.5.1, "Nodes and Hierarchy"). A node that is reached a second
/// time, as a child of two nodes or from below itself, is given again with `again`, and what is
/// below it is not. So the walk ends for every document, with one step for each of the nodes in the
/// list and for each child of a node that is reached. It takes time and memory in proportion to
/// that and to the number of nodes.
///
/// Fails where there is no memory.
pub fn walk<'a, D: Records>(
    alloc: Global,
    roots: Nodes<'a, D>,
) -> Result<Vec<Step<'a, D>>, AllocError>
    ensures { IfOk result (λ steps. IsWalk (document_of (position roots.entry))
        (nodes_left (position roots.entry)) steps.items) }
{
    let mut steps = Vec::new(alloc);
    let mut reached = Vec::new(alloc);
    let mut open: Vec<Level<'a, D>> = Vec::new(alloc);
    open.push((roots, None, 0))?;
    'levels: while let Some((mut siblings, parent, depth)) = open.pop() {
        let Some(node) = siblings.next() else {
            continue
        };
        open.push((siblings, parent, depth))?;
        let again = mark(&mut reached, node.index())?;
        steps.push(Step {
            node,
            parent,
            depth,
            again,
        })?;
        if again {
            continue;
        }
        open.push((node.children(), Some(node.index()), depth + 1))?;
    }
    Ok(steps)
}

/// The nodes of a scene and those below them, as `walk` gives them.
pub fn walk_scene<'a, D: Records>(
    alloc: Global,
    scene: &Scene<'a, D>,
) -> Result<Vec<Step<'a, D>>, AllocError>
    ensures { IfOk result (λ steps. IsWalk (scene_handle scene.now).document
        (scene_handle scene.now).json.nodes.items steps.items) }
{
    walk(alloc, scene.nodes())
}
