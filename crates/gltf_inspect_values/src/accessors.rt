//! What is found in the values of accessors.
ghost use Rattle.std.specs.Prelude.{◌≡◌, OnOk, Some, slice_get};
ghost use Rattle.gltf_shared.specs.Shown.{lent_bytes};
ghost use Rattle.gltf_validation.specs.Locations.{places_of};
ghost use Rattle.gltf_findings.specs.Checks.{told_after};
ghost use Rattle.gltf_inspect_values.specs.Accessors.{infinite_checks, are_floats, are_asked_for};
ghost use Rattle.gltf_inspect_values.specs.Accessors.{items_checks};
ghost use Rattle.gltf_inspect_values.specs.Bounds.{each_checks};
ghost use Rattle.gltf_inspect_values.specs.Items.{item_bytes};
ghost use Rattle.gltf_inspect_values.specs.Plans.{accessor_checks_but, AreSummaries};
ghost use Rattle.gltf_inspect_items.specs.Plans.{is_out};
ghost use Rattle.gltf_ranges.specs.Alike.{AreFirsts};

use crate::bounds::tell_bounds;
use crate::kept::{nothing_kept, summary_once};
use crate::stored::tell_sparse;
use crate::summary::Summary;
use crate::walk::Place;
use gltf::Document;
use gltf_findings::code::Code;
use gltf_findings::findings::Findings;
use gltf_inspect_items::plan::{Plan, is_out};
use gltf_json_geometry::accessor::{Accessor, ComponentType};
use gltf_json_record::boxed::Boxed;
use gltf_json_record::validation::Checked;
use gltf_validation::location::Location;
use std::alloc::{AllocError, Global};

/// Reports whether floats are infinite or not a number.
fn tell_floats(
    kind: Checked<ComponentType>,
    infinite: bool,
    location: &Location<'_>,
    findings: &mut Findings,
) -> Result<(), AllocError>
    ensures { OnOk result (findings.new ≡ told_after findings.old (places_of location.now)
        (infinite_checks kind infinite)) }
{
    match kind {
        Checked::Valid(ComponentType::F32) => {
            findings.tell(!infinite, Code::InvalidFloat, location)
        }
        _ => Ok(()),
    }
}

fn are_floats(kind: Checked<ComponentType>) -> bool
    ensures { result ≡ are_floats kind }
{
    matches!(kind, Checked::Valid(ComponentType::F32))
}

/// Whether checks ask for the items of an accessor.
fn are_asked_for(accessor: &Accessor) -> bool
    ensures { result ≡ are_asked_for accessor.now }
{
    are_floats(accessor.component_type) || accessor.min.is_some() || accessor.max.is_some()
}

/// Reports what is found in the items of an accessor, which are passed over once.
fn tell_items(
    alloc: Global,
    place: Place<'_>,
    accessor: &Accessor,
    firsts: &[usize],
    table: &mut [Option<Boxed<Summary>>],
    location: &Location<'_>,
    findings: &mut Findings,
) -> Result<(), AllocError>
    requires here { let p = place in
        slice_get p.document.now.accessors.items p.index ≡ Some accessor.now }
    requires firsts { AreFirsts place.document.now.accessors.items firsts.now }
    requires kept { let p = place in
        AreSummaries p.document.now (slice_get (lent_bytes p.buffers.now)) table.old }
    ensures told { let p = place.entry in
        OnOk result (findings.new ≡ told_after findings.old (places_of location.now)
        (items_checks accessor.now
        (item_bytes p.document.now (slice_get (lent_bytes p.buffers.now)) p.index
        accessor.now))) }
    ensures kept { let p = place.entry in
        OnOk result (AreSummaries p.document.now (slice_get (lent_bytes p.buffers.now))
        table.new) }
{
    if !are_asked_for(accessor) {
        return Ok(());
    }
    let found = summary_once(alloc, place, accessor, firsts, table)?;
    tell_floats(accessor.component_type, found.infinite, location, findings)?;
    tell_bounds(accessor, &found, location, findings)
}

/// Reports what is found in the values of an accessor; of one that is left out, that it is.
fn tell_accessor(
    alloc: Global,
    place: Place<'_>,
    accessor: &Accessor,
    plan: Plan<'_>,
    table: &mut [Option<Boxed<Summary>>],
    location: &Location<'_>,
    findings: &mut Findings,
) -> Result<(), AllocError>
    requires here { let p = place in
        slice_get p.document.now.accessors.items p.index ≡ Some accessor.now }
    requires firsts { AreFirsts place.document.now.accessors.items plan.firsts.now }
    requires kept { let p = place in
        AreSummaries p.document.now (slice_get (lent_bytes p.buffers.now)) table.old }
    ensures told { let p = place.entry in
        OnOk result (findings.new ≡ told_after findings.old (places_of location.now)
        (accessor_checks_but (is_out plan.entry.left_out.now) p.document.now
        (slice_get (lent_bytes p.buffers.now)) p.index accessor.now)) }
    ensures kept { let p = place.entry in
        OnOk result (AreSummaries p.document.now (slice_get (lent_bytes p.buffers.now))
        table.new) }
{
    if is_out(plan.left_out, place.index) {
        return findings.tell(false, Code::ItemsNotLookedAt, location);
    }
    tell_items(
        alloc,
        place,
        accessor,
        plan.firsts,
        table,
        location,
        findings,
    )?;
    tell_sparse(place, accessor, location, findings)
}

/// Reports what is found in the values of each accessor, with a table of what is found so far.
fn tell_each<'a>(
    alloc: Global,
    document: &'a Document,
    buffers: &'a [&'a [u8]],
    plan: Plan<'_>,
    accessors: &[Accessor],
    table: &mut [Option<Boxed<Summary>>],
    location: &Location<'_>,
    findings: &mut Findings,
) -> Result<(), AllocError>
    requires these { accessors.now ≡ document.now.accessors.items }
    requires firsts { AreFirsts document.now.accessors.items plan.firsts.now }
    requires kept { AreSummaries document.now (slice_get (lent_bytes buffers.now)) table.old }
    ensures { OnOk result (findings.new ≡ told_after findings.old (places_of location.now)
        (each_checks (accessor_checks_but (is_out plan.entry.left_out.now) document.now
        (slice_get (lent_bytes buffers.now))) 0 accessors.now)) }
{
    for (index, accessor) in accessors.iter().enumerate() {
        let at = Location::Item(&*location, index);
        let place = Place {
            document,
            buffers,
            index,
        };
        tell_accessor(alloc, place, accessor, plan, &mut *table, &at, findings)?;
    }
    Ok(())
}

/// Reports what is found in the values of each accessor.
pub(crate) fn tell_accessors<'a>(
    alloc: Global,
    document: &'a Document,
    buffers: &'a [&'a [u8]],
    plan: Plan<'_>,
    location: &Location<'_>,
    findings: &mut Findings,
) -> Result<(), AllocError>
    requires { AreFirsts document.now.accessors.items plan.firsts.now }
    ensures { OnOk result (findings.new ≡ told_after findings.old (places_of location.now)
        (each_checks (accessor_checks_but (is_out plan.entry.left_out.now) document.now
        (slice_get (lent_bytes buffers.now))) 0 document.now.accessors.items)) }
{
    let accessors = document.as_json().accessors.as_slice();
    let mut table = nothing_kept(alloc, accessors.len())?;
    tell_each(
        alloc, document, buffers, plan, accessors, &mut table, location, findings,
    )
}
