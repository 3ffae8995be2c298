//! How deep nodes are: how many steps to the parent lead from each to one that has none.
ghost use Rattle.std.specs.Prelude.{◌≡◌, ℕ, IfOk, MatchOption, length, get_or};
ghost use Rattle.gltf_inspect_trees.specs.Depths.{IsDepth, HasNoDepth, AreDepths, AreKnown};
ghost use Rattle.gltf_inspect_trees.specs.Depths.{is_known, MatchDepths};

use gltf_inspect_nodes::roots::led;
use std::alloc::{AllocError, Global};

/// How deep each node is. None where one has no depth, since it leads to a loop: no further
/// memory is taken then. Takes a number a node; fails where there is no memory.
pub(crate) fn depths_of(alloc: Global, parents: &[usize]) -> Result<Option<Vec<usize>>, AllocError>
    ensures { IfOk result (λ found. MatchDepths parents.now found) }
{
    let mut depths = vec![in alloc; 0usize; parents.len()]?;
    for node in 0..parents.len() {
        match depth_of(parents, &depths, node) {
            Some(deep) => set_depths(parents, &mut depths, node, deep),
            None => return Ok(None),
        }
    }
    Ok(Some(depths))
}

/// How deep a node is, by the depths that are known. None where more steps than there are nodes
/// lead to no node without a parent.
fn depth_of(parents: &[usize], depths: &[usize], node: usize) -> Option<usize>
    requires { AreKnown parents.now depths.now }
    ensures { MatchOption result (HasNoDepth parents.now node) (λ d. IsDepth parents.now d node) }
{
    let mut at = node;
    let mut steps = 0;
    while !is_known(parents, depths, at) {
        if steps == parents.len() {
            return None;
        }
        steps += 1;
        at = led(parents, at);
    }
    Some(steps + depth(depths, at))
}

/// Whether the depth of a node is known: it has no parent, or its depth was set.
fn is_known(parents: &[usize], depths: &[usize], node: usize) -> bool
    ensures { result ≡ is_known parents.now depths.now node }
{
    led(parents, node) == node || depth(depths, node) != 0
}

/// Sets the depth of a node, of its parent and so on, up to one whose depth is set or 0.
fn set_depths(parents: &[usize], depths: &mut [usize], node: usize, deep: usize)
    requires known { AreKnown parents.now depths.old }
    requires deep { IsDepth parents.now deep node }
    requires long { length depths.old ≡ length parents.now }
    ensures known { AreKnown parents.now depths.new }
    ensures here { IsDepth parents.now (get_or depths.new node 0) node }
    ensures others { (k : ℕ) → IsDepth parents.now (get_or depths.old k 0) k
        → IsDepth parents.now (get_or depths.new k 0) k }
{
    let mut at = node;
    let mut deep = deep;
    while deep > 0 && depth(depths, at) == 0 {
        depths[at] = deep;
        deep -= 1;
        at = led(parents, at);
    }
}

/// The depth in a table; 0 for a number that is no node.
pub(crate) fn depth(depths: &[usize], node: usize) -> usize
    ensures { result ≡ get_or depths.now node 0 }
{
    if node < depths.len() { depths[node] } else { 0 }
}
