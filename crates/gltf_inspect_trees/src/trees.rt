//! Which nodes stand above others.
ghost use Rattle.std.specs.Prelude.{◌≡◌, ℕ, IfOk};
ghost use Rattle.gltf_inspect_trees.specs.Trees.{is_below_in, is_below_from};

use crate::climb::Climbs;
use crate::depths::depths_of;
use crate::jumps::Jumps;
use gltf_inspect_nodes::order::{parents_come_first, parents_come_last};
use std::alloc::{AllocError, Global};

/// The trees of nodes, by tables of where each leads to.
#[derive(Drop)]
pub(crate) enum Trees {
    /// Where parents are in order.
    InOrder(Jumps),
    /// Where they are not, and each node leads to one that has no parent but itself.
    Rooted(Climbs),
    /// Where a node leads to a loop: each node counts as below each.
    Looped,
}

impl Trees {
    /// By the parent of each node. Takes memory for three numbers a node where parents are in
    /// order, for two where a node leads to a loop, and as `Climbs` elsewhere; fails where there
    /// is none.
    pub(crate) fn new(alloc: Global, parents: Vec<usize>) -> Result<Trees, AllocError>
        ensures { IfOk result (λ trees. (s k : ℕ)
            → is_below_in trees s k ≡ is_below_from parents.items s k) }
    {
        if parents_come_first(&parents) {
            let jumps = Jumps::new(alloc, parents, true)?;
            Ok(Trees::InOrder(jumps))
        } else if parents_come_last(&parents) {
            let jumps = Jumps::new(alloc, parents, false)?;
            Ok(Trees::InOrder(jumps))
        } else {
            Trees::in_no_order(alloc, parents)
        }
    }

    fn in_no_order(alloc: Global, parents: Vec<usize>) -> Result<Trees, AllocError>
        ensures { IfOk result (λ trees. (s k : ℕ)
            → is_below_in trees s k ≡ is_below_from parents.items s k) }
    {
        match depths_of(alloc, &parents)? {
            Some(depths) => {
                let climbs = Climbs::new(alloc, parents, depths)?;
                Ok(Trees::Rooted(climbs))
            }
            None => Ok(Trees::Looped),
        }
    }

    /// Whether a node leads to another one, or is that.
    pub(crate) fn is_below(&self, above: usize, node: usize) -> bool
        ensures { result ≡ is_below_in self.now above node }
    {
        match self {
            Trees::InOrder(jumps) => jumps.is_below(above, node),
            Trees::Rooted(climbs) => climbs.reaches(above, node),
            Trees::Looped => true,
        }
    }
}
