//! What is found in the items of accessors, kept for others that read the same.
ghost use Rattle.std.specs.Prelude.{◌≡◌, Some, IfOk, IfSome, OnOk, OnErr, slice_get};
ghost use Rattle.std.specs.Prelude.{ℕ, slice_set};
ghost use Rattle.gltf_shared.specs.Shown.{lent_bytes};
ghost use Rattle.gltf_inspect_values.specs.Items.{item_bytes};
ghost use Rattle.gltf_inspect_values.specs.Plans.{AreSummaries};
ghost use Rattle.gltf_inspect_values.specs.Summaries.{IsSummaryOf};
ghost use Rattle.gltf_inspect_values.specs.declared.summary.Summary.{Summary};
ghost use Rattle.gltf_ranges.specs.Alike.{AreFirsts};

use crate::summary::Summary;
use crate::walk::{Place, summary_of};
use gltf_inspect_items::plan::first_of;
use gltf_json_geometry::accessor::Accessor;
use gltf_json_record::boxed::{Boxed, lent};
use std::alloc::{AllocError, Global};

/// What was found before at an index.
fn found_before(table: &[Option<Boxed<Summary>>], index: usize) -> Option<Summary>
    ensures { IfSome result (λ found. slice_get table.now index ≡ Some (Some found)) }
{
    match table.get(index) {
        None => None,
        Some(found) => lent(found).copied(),
    }
}

/// Keeps what is found at an index, where the table has it. Fails where there is no memory.
#[tactic(auto, using(std::proofs::lemmas::List::set_past))]
fn keep(
    alloc: Global,
    table: &mut [Option<Boxed<Summary>>],
    index: usize,
    found: Summary,
) -> Result<(), AllocError>
    ensures kept { OnOk result (table.new ≡ slice_set table.old index (Some found)) }
    ensures same { OnErr result (table.new ≡ table.old) }
{
    if index < table.len() {
        table[index] = Some(Boxed::new(alloc, found)?);
    }
    Ok(())
}

/// A table of so many in which nothing is kept. Fails where there is no memory.
pub(crate) fn nothing_kept(
    alloc: Global,
    len: usize,
) -> Result<Vec<Option<Boxed<Summary>>>, AllocError>
    ensures { IfOk result (λ table. (i : ℕ) (found : Summary)
        → slice_get table.items i ≡ Some (Some found) → ⊥) }
{
    let mut table = Vec::new(alloc);
    for _ in 0..len {
        table.push(None)?;
    }
    Ok(table)
}

/// So few items, a thousand bytes at most, are gone over again by each accessor: that takes no longer
/// than its record took to be read.
const FEW: u64 = 16;

/// What is found in the items of an accessor. Where others read the same, these are gone over once,
/// but for few: the table keeps what is found. Fails where there is no memory.
pub(crate) fn summary_once(
    alloc: Global,
    place: Place<'_>,
    accessor: &Accessor,
    firsts: &[usize],
    table: &mut [Option<Boxed<Summary>>],
) -> Result<Summary, AllocError>
    requires here { let p = place in
        slice_get p.document.now.accessors.items p.index ≡ Some accessor.now }
    requires firsts { AreFirsts place.document.now.accessors.items firsts.now }
    requires kept { let p = place in
        AreSummaries p.document.now (slice_get (lent_bytes p.buffers.now)) table.old }
    ensures found { let p = place.entry in
        IfOk result (λ found. IsSummaryOf accessor.now.component_type
        (item_bytes p.document.now (slice_get (lent_bytes p.buffers.now)) p.index accessor.now)
        found) }
    ensures kept { let p = place.entry in
        OnOk result (AreSummaries p.document.now (slice_get (lent_bytes p.buffers.now))
        table.new) }
{
    let first = first_of(firsts, place.index);
    if let Some(found) = found_before(&*table, first) {
        return Ok(found);
    }
    let found = summary_of(place, accessor);
    if FEW < accessor.count {
        keep(alloc, table, first, found)?;
    }
    Ok(found)
}
