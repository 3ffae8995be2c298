//! All that is found in the items of a document.
ghost use Rattle.std.specs.Prelude.{◌≡◌, IfOk, OnOk, slice_get, []};
ghost use Rattle.gltf.specs.Shown.{bytes_of_each};
ghost use Rattle.gltf_shared.specs.Shown.{lent_bytes};
ghost use Rattle.gltf_validation.specs.Locations.{places_of};
ghost use Rattle.gltf_findings.specs.Checks.{findings_of, told_after};
ghost use Rattle.gltf_inspect_items.specs.Documents.{items_checks};
ghost use Rattle.gltf_inspect_items.specs.Plans.{is_out, items_checks_but};
ghost use Rattle.gltf_ranges.specs.Alike.{AreFirsts};

use crate::indices::tell_meshes;
use crate::plan::Plan;
use gltf::Document;
use gltf::buffer::Data;
use gltf_findings::findings::Findings;
use gltf_findings::laws::a_walk_adds_what_is_found;
use gltf_findings::report::Report;
use gltf_ranges::firsts::firsts;
use gltf_shared::lent;
use gltf_validation::location::Location;
use std::alloc::{AllocError, Global};

/// All that is found in the items of a document's accessors, over the bytes of its buffers. The
/// report has a code at a path exactly where the condition of that code stands at that path and is
/// false. Only accessors that can be read are looked at: what is wrong with the others is found by
/// `gltf_inspect`.
///
/// It takes time in proportion to the items, of which each is passed over twice at most, however
/// many primitives name its accessor, and however many accessors read the same; of a sparse accessor
/// without a view to its values. It takes memory for the findings, and some bytes for each accessor.
/// Fails where there is no memory.
pub fn inspect_items(
    alloc: Global,
    document: &Document,
    buffers: &[Data],
) -> Result<Report, AllocError>
    ensures { IfOk result (λ report. report ≡ findings_of []
        (items_checks document.now (slice_get (bytes_of_each buffers.now)))) }
{
    let firsts = firsts(alloc, document.as_json().accessors.as_slice())?;
    let none = Vec::new(alloc);
    let plan = Plan {
        firsts: &firsts,
        left_out: none.as_slice(),
    };
    let lent = lent(alloc, buffers)?;
    inspect_items_but(alloc, document, &lent, plan)
}

/// The same over bytes of buffers that are lent, where some accessors are left out: of the indices
/// at these nothing is said.
pub fn inspect_items_but(
    alloc: Global,
    document: &Document,
    buffers: &[&[u8]],
    plan: Plan<'_>,
) -> Result<Report, AllocError>
    requires { AreFirsts document.now.accessors.items plan.firsts.now }
    ensures { IfOk result (λ report. report ≡ findings_of []
        (items_checks_but (is_out plan.entry.left_out.now) document.now
        (slice_get (lent_bytes buffers.now)))) }
{
    // A law that the proof stands on; the call does nothing.
    a_walk_adds_what_is_found();
    let mut findings = Findings::new(alloc);
    tell_items(
        alloc,
        document,
        buffers,
        plan,
        &Location::Whole,
        &mut findings,
    )?;
    Ok(Report::new(findings))
}

fn tell_items(
    alloc: Global,
    document: &Document,
    buffers: &[&[u8]],
    plan: Plan<'_>,
    location: &Location<'_>,
    findings: &mut Findings,
) -> Result<(), AllocError>
    requires { AreFirsts document.now.accessors.items plan.firsts.now }
    ensures { OnOk result (findings.new ≡ told_after findings.old (places_of location.now)
        (items_checks_but (is_out plan.entry.left_out.now) document.now
        (slice_get (lent_bytes buffers.now)))) }
{
    let root = document.as_json();
    let location = Location::Member(location, "meshes");
    let mut table = vec![in alloc; None; root.accessors.len()]?;
    tell_meshes(
        document,
        buffers,
        plan,
        root.meshes.as_slice(),
        &mut table,
        &location,
        findings,
    )
}
