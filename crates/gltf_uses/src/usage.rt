//! Which elements of the lists of a document some member names.
ghost use Rattle.std.specs.Prelude.{◌≡◌, IfOk, slice_set, true};
ghost use Rattle.gltf_uses.specs.declared.kind.Kind.{Kind};
ghost use Rattle.gltf_uses.specs.References.{unused_of};
ghost use Rattle.gltf_uses.specs.Usage.{marks_of, no_marks, unused_in, usage_after, used_of};

use crate::kind::Kind;
use crate::sink::Sink;
use crate::visit::Visit;
use gltf_json::root::Root;
use gltf_validation::counts::Counts;
use gltf_validation::location::Location;
use std::alloc::{AllocError, Global};
use std::marker::Model;

/// Which elements of each list of a document some member names. The elements that none names are
/// those that `unused` returns. Contracts see a mark for each element, list by list, in the order
/// of the lists' numbers.
#[derive(Drop)]
pub struct Usage {
    lists: Vec<Vec<bool>>,
}

impl Model for Usage {
    ghost use Rattle.std.specs.Prelude.{◌≡◌, List, Bool, map, length};

    ghost Value = { List (List Bool) };

    ghost view = { λ u. map (λ marks. marks.items) u.lists.items };

    ghost invariant = { λ u. length u.lists.items ≡ 13 };
}

impl Usage {
    /// Of a document, by one walk over it. Takes a byte for each element of each list. Fails where
    /// there is no memory.
    pub fn of(alloc: Global, root: &Root) -> Result<Usage, AllocError>
        ensures used { IfOk result (λ usage. (kind : Kind)
            → marks_of kind usage ≡ used_of root.now kind) }
        ensures unused { IfOk result (λ usage. (kind : Kind)
            → unused_in usage kind ≡ unused_of root.now kind) }
    {
        let mut usage = Usage::none(alloc, &Counts::of(root))?;
        root.visit(&Location::Whole, &mut usage)?;
        Ok(usage)
    }

    // No element of lists of these lengths.
    fn none(alloc: Global, counts: &Counts) -> Result<Usage, AllocError>
        ensures { IfOk result (λ usage. usage ≡ no_marks counts.now) }
    {
        let mut lists = Vec::with_capacity(alloc, Kind::ALL.len())?;
        for kind in &Kind::ALL {
            lists.push(vec![in alloc; false; kind.count(counts)]?)?;
        }
        Ok(Usage { lists })
    }

    /// For each element of the list, in order, whether some member names it.
    pub fn of_list(&self, kind: Kind) -> &[bool]
        ensures { result.now ≡ marks_of kind self.now }
    {
        self.lists[kind.number()].as_slice()
    }
}

impl Sink for Usage {
    ghost after = { λ lists path kind i. usage_after lists path kind i };

    fn add(
        &mut self,
        _location: &Location<'_>,
        kind: Kind,
        index: usize,
    ) -> Result<(), AllocError> {
        mark(&mut self.lists[kind.number()], index);
        Ok(())
    }
}

// Sets the mark of one element, where there is one.
fn mark(marks: &mut Vec<bool>, index: usize)
    ensures { marks.new.items ≡ slice_set marks.old.items index true }
{
    if index < marks.len() {
        marks[index] = true;
    }
}
