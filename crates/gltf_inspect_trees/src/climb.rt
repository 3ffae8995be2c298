//! Many steps to the parent at once.
ghost use Rattle.std.specs.Prelude.{◌≡◌, ◌/◌, OnOk, IfOk, [], ◌∷◌, ◌++◌, map};
ghost use Rattle.gltf_inspect_nodes.specs.Roots.{led, are_fixed};
ghost use Rattle.gltf_inspect_trees.specs.Climbs.{Climb, climb_of, first_climb, raised, AreTables};
ghost use Rattle.gltf_inspect_trees.specs.Climbs.{climbed, reaches, moved};
ghost use Rattle.gltf_inspect_trees.specs.Depths.{AreDepths};

use crate::depths::depth;
use gltf_inspect_nodes::roots::{are_fixed, led, mapped};
use std::alloc::{AllocError, Global};
use std::mem;

/// How nodes lead to others by steps to the parent.
#[derive(Drop)]
pub(crate) struct Climbs {
    /// Where each node leads to by one step, by two, by four and so on.
    levels: Vec<Vec<usize>>,
    /// Where each leads to by twice as many steps as by the last of them.
    top: Vec<usize>,
    /// How many of these steps lead to another node.
    depths: Vec<usize>,
}

impl Climbs {
    /// By the parent of each node, which is itself where it has none, and how deep each is. Takes
    /// memory for a number a node for each doubling, of which there are as many as the greatest
    /// depth has digits in base two; fails where there is none.
    pub(crate) fn new(
        alloc: Global,
        parents: Vec<usize>,
        depths: Vec<usize>,
    ) -> Result<Climbs, AllocError>
        requires { AreDepths parents.items depths.items }
        ensures { IfOk result (λ climbs. climb_of climbs
            ≡ raised 64 (first_climb parents.items)) }
    {
        let mut climbs = Climbs {
            levels: Vec::new(alloc),
            top: parents,
            depths,
        };
        climbs.climb_up(alloc)?;
        Ok(climbs)
    }

    fn climb_up(&mut self, alloc: Global) -> Result<(), AllocError>
        ensures tables { OnOk result ((c : Climb) → AreTables c self.old
            → AreTables (raised 64 c) self.new) }
        ensures depths { OnOk result (self.new.depths ≡ self.old.depths) }
    {
        for round in 0..64_usize {
            if self.is_done() {
                return Ok(());
            }
            self.double(alloc)?;
        }
        Ok(())
    }

    /// Whether more steps lead nowhere else.
    fn is_done(&self) -> bool
        ensures { result ≡ are_fixed self.now.top.items self.now.top.items }
    {
        are_fixed(&self.top, &self.top)
    }

    /// Twice as many steps.
    fn double(&mut self, alloc: Global) -> Result<(), AllocError>
        ensures levels { OnOk result (map (λ t. t.items) self.new.levels.items
            ≡ map (λ t. t.items) self.old.levels.items ++ self.old.top.items ∷ []) }
        ensures top { OnOk result (self.new.top.items
            ≡ map (led self.old.top.items) self.old.top.items) }
        ensures depths { OnOk result (self.new.depths ≡ self.old.depths) }
    {
        let next = mapped(alloc, &self.top)?;
        let before = mem::replace(&mut self.top, next);
        self.levels.push(before)?;
        Ok(())
    }

    /// Whether a node leads to another one, or is that.
    pub(crate) fn reaches(&self, above: usize, node: usize) -> bool
        ensures { result ≡ reaches (climb_of self.now) above node }
    {
        let steps = depth(&self.depths, node).saturating_sub(depth(&self.depths, above));
        climbed(self.levels.as_slice(), &self.top, steps, node) == above
    }
}

/// Where a node leads to by so many steps.
fn climbed(levels: &[Vec<usize>], top: &[usize], steps: usize, node: usize) -> usize
    ensures { result ≡ climbed (map (λ t. t.items) levels.now) top.now steps node }
{
    let mut steps = steps;
    let mut node = node;
    for table in levels {
        node = moved(table, steps % 2, node);
        steps = steps / 2;
    }
    if steps == 0 { node } else { led(top, node) }
}

fn moved(table: &[usize], digit: usize, node: usize) -> usize
    ensures { result ≡ moved table.now digit node }
{
    if digit == 1 { led(table, node) } else { node }
}
