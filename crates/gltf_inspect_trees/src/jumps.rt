//! Which nodes stand above others, where parents are in order: by steps to the parent, and by jumps
//! over many steps. A jump is as long as in E. W. Myers, "An applicative random-access stack"
//! (1983), so that few of them lead to any node above: on a chain of 60,000 nodes at most 42 steps
//! and jumps to the second one, where a table for each doubling takes 16; on one of a million 54,
//! where tables take 20.
ghost use Rattle.std.specs.Prelude.{◌≡◌, IfOk, length};
ghost use Rattle.std.proofs.Props.{props};
ghost use Rattle.gltf_inspect_trees.specs.Jumps.{rank, IsInOrder, AreJumps, is_above, jump_of};
ghost use Rattle.gltf_inspect_trees.specs.Jumps.{next_up};

use crate::depths::depth;
use gltf_inspect_nodes::roots::led;
use std::alloc::{AllocError, Global};

/// How nodes lead to those above them.
#[derive(Drop)]
pub(crate) struct Jumps {
    /// The parent of each node, which is itself where it has none.
    parents: Vec<usize>,
    /// Of each node one above it, many steps away or one; itself where it has no parent.
    jumps: Vec<usize>,
    /// Whether parents stand before their children, or else behind them.
    parents_come_first: bool,
    ghost rise: { AreJumps parents_come_first parents.items jumps.items } by { Prim.hlevel props },
}

impl Jumps {
    /// By the parent of each node. Takes memory for two numbers a node, and for a third one while
    /// it runs; fails where there is none.
    pub(crate) fn new(
        alloc: Global,
        parents: Vec<usize>,
        parents_come_first: bool,
    ) -> Result<Jumps, AllocError>
        requires { IsInOrder parents_come_first parents.items }
        ensures { IfOk result (λ jumps. jumps.parents.items ≡ parents.items) }
    {
        let mut jumps = Vec::from_slice(alloc, &parents)?;
        let mut depths = vec![in alloc; 0usize; parents.len()]?;
        set_jumps(&parents, &mut jumps, &mut depths, parents_come_first);
        Ok(Jumps {
            parents,
            jumps,
            parents_come_first,
        })
    }

    /// Whether a node leads to another one, or is that.
    pub(crate) fn is_below(&self, above: usize, node: usize) -> bool
        ensures { result ≡ is_above self.now.parents.items above node }
    {
        let most = self.rank(above);
        let mut node = node;
        while self.rank(node) > most {
            let next = self.next_up(most, node);
            if next == node {
                return false;
            }
            node = next;
        }
        node == above
    }

    /// Further up: by the jump where it leads no further than so, else to the parent.
    fn next_up(&self, most: usize, node: usize) -> usize
        ensures { result ≡ next_up self.now.parents_come_first self.now.parents.items
            self.now.jumps.items most node }
    {
        let far = led(&self.jumps, node);
        if self.rank(far) < most {
            led(&self.parents, node)
        } else {
            far
        }
    }

    fn rank(&self, node: usize) -> usize
        ensures { result ≡ rank self.now.parents_come_first node }
    {
        if self.parents_come_first {
            node
        } else {
            usize::MAX - node
        }
    }
}

/// Sets the jump of each node that has a parent, and how deep it is, that of its parent before its
/// own. The others stay at themselves, and at depth 0.
fn set_jumps(parents: &[usize], jumps: &mut [usize], depths: &mut [usize], first: bool)
    requires jumps { AreJumps first parents.now jumps.old }
    requires long { length jumps.old ≡ length parents.now }
    requires deep { length depths.old ≡ length parents.now }
    ensures { AreJumps first parents.now jumps.new }
{
    if first {
        for i in 0..parents.len() {
            if parents[i] != i {
                depths[i] = depth(depths, parents[i]).saturating_add(1);
                jumps[i] = jump_of(jumps, depths, parents[i]);
            }
        }
    } else {
        for i in (0..parents.len()).rev() {
            if parents[i] != i {
                depths[i] = depth(depths, parents[i]).saturating_add(1);
                jumps[i] = jump_of(jumps, depths, parents[i]);
            }
        }
    }
}

/// To where two jumps from the parent lead, where these are equally long; else to the parent.
fn jump_of(jumps: &[usize], depths: &[usize], parent: usize) -> usize
    ensures { result ≡ jump_of jumps.now depths.now parent }
{
    let far = led(jumps, parent);
    let further = led(jumps, far);
    let one = depth(depths, parent).saturating_sub(depth(depths, far));
    let other = depth(depths, far).saturating_sub(depth(depths, further));
    if one == other { further } else { parent }
}
