//! All that is found in the values of a document's accessors.
ghost use Rattle.std.specs.Prelude.{◌≡◌, IfOk, OnOk, slice_get, []};
ghost use Rattle.gltf.specs.Shown.{bytes_of_each};
ghost use Rattle.gltf_shared.specs.Shown.{lent_bytes};
ghost use Rattle.gltf_validation.specs.Locations.{places_of};
ghost use Rattle.gltf_findings.specs.Checks.{findings_of, told_after};
ghost use Rattle.gltf_inspect_values.specs.Documents.{values_checks};
ghost use Rattle.gltf_inspect_values.specs.Plans.{values_checks_but};
ghost use Rattle.gltf_inspect_items.specs.Plans.{is_out};
ghost use Rattle.gltf_ranges.specs.Alike.{AreFirsts};

use crate::accessors::tell_accessors;
use crate::times::tell_animations;
use gltf::Document;
use gltf::buffer::Data;
use gltf_findings::findings::Findings;
use gltf_findings::laws::a_walk_adds_what_is_found;
use gltf_findings::report::Report;
use gltf_inspect_items::plan::Plan;
use gltf_ranges::firsts::firsts;
use gltf_shared::lent;
use gltf_validation::location::Location;
use std::alloc::{AllocError, Global};

/// All that is found in the values of a document's accessors, over the bytes of its buffers: floats
/// that are infinite or not a number, minima and maxima that are not those of the items, sparse
/// indices and times of animations that do not rise. The report has a code at a path exactly where
/// the condition of that code stands at that path and is false. Items are looked at where the
/// accessor can be read, and stored indices where these can be read. A sparse accessor without a
/// view is zeros under its values.
///
/// It takes time in proportion to the items of all accessors that read different ones: these are
/// passed over once at most, but for sixteen and fewer, and times that samplers name twice more at
/// most; of a sparse accessor without a view, in proportion to its values. It takes memory for the
/// findings, and some three hundred bytes for each accessor. Fails where there is no memory.
pub fn inspect_values(
    alloc: Global,
    document: &Document,
    buffers: &[Data],
) -> Result<Report, AllocError>
    ensures { IfOk result (λ report. report ≡ findings_of []
        (values_checks document.now (slice_get (bytes_of_each buffers.now)))) }
{
    let firsts = firsts(alloc, document.as_json().accessors.as_slice())?;
    let none = Vec::new(alloc);
    let plan = Plan {
        firsts: &firsts,
        left_out: none.as_slice(),
    };
    let lent = lent(alloc, buffers)?;
    inspect_values_but(alloc, document, &lent, plan)
}

/// The same over bytes of buffers that are lent, where some accessors are left out: of each of these
/// the report says that its items were not looked at, and it says nothing of times at these.
pub fn inspect_values_but(
    alloc: Global,
    document: &Document,
    buffers: &[&[u8]],
    plan: Plan<'_>,
) -> Result<Report, AllocError>
    requires { AreFirsts document.now.accessors.items plan.firsts.now }
    ensures { IfOk result (λ report. report ≡ findings_of []
        (values_checks_but (is_out plan.entry.left_out.now) document.now
        (slice_get (lent_bytes buffers.now)))) }
{
    // A law that the proof stands on; the call does nothing.
    a_walk_adds_what_is_found();
    let mut findings = Findings::new(alloc);
    tell_values(
        alloc,
        document,
        buffers,
        plan,
        &Location::Whole,
        &mut findings,
    )?;
    Ok(Report::new(findings))
}

fn tell_values(
    alloc: Global,
    document: &Document,
    buffers: &[&[u8]],
    plan: Plan<'_>,
    location: &Location<'_>,
    findings: &mut Findings,
) -> Result<(), AllocError>
    requires { AreFirsts document.now.accessors.items plan.firsts.now }
    ensures { OnOk result (findings.new ≡ told_after findings.old (places_of location.now)
        (values_checks_but (is_out plan.entry.left_out.now) document.now
        (slice_get (lent_bytes buffers.now)))) }
{
    let root = document.as_json();
    let at = Location::Member(location, "accessors");
    tell_accessors(alloc, document, buffers, plan, &at, findings)?;
    let at = Location::Member(location, "animations");
    let mut table = vec![in alloc; None; root.accessors.len()]?;
    tell_animations(
        document,
        buffers,
        plan,
        root.animations.as_slice(),
        &mut table,
        &at,
        findings,
    )
}
