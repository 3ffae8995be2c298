//! What is found in the items of a document, and in the values of its accessors.
ghost use Rattle.std.specs.Prelude.{◌≡◌, ℕ, List, [], IfOk, length, slice_get};
ghost use Rattle.std.specs.Prelude.{unwrap_or};
ghost use Rattle.gltf_buffers.specs.Names.{Names};
ghost use Rattle.gltf_findings.specs.Checks.{findings_of};
ghost use Rattle.gltf_shared.specs.Shown.{bytes_of_each as shared_bytes};
ghost use Rattle.gltf_shared.specs.Shown.{lent_bytes};
ghost use Rattle.gltf_inspect_items.specs.Plans.{is_out};
ghost use Rattle.gltf_ranges.specs.Alike.{AreFirsts};
ghost use Rattle.gltf_inspect_files.specs.Contents.{IsWholeOf};
ghost use Rattle.gltf_inspect_files.specs.Layers.{IsOfLayers};
ghost use Rattle.gltf_inspect_files.specs.Reports.{contents_checks, IsFound, lent_of};
ghost use Rattle.gltf_inspect_files.specs.Within.{budget, AreContents};
ghost use Rattle.gltf_inspect_files.specs.Within.{AreContentsWithin, contents_checks_but, said_by};

use crate::join::joined;
use crate::lent::Lent;
use gltf::Document;
use gltf::buffer::Data;
use gltf_findings::report::Report;
use gltf_inspect_items::inspect::inspect_items_but;
use gltf_inspect_items::plan::Plan;
use gltf_inspect_values::inspect::inspect_values_but;
use gltf_ranges::budget::left_out;
use gltf_ranges::firsts::firsts;
use gltf_shared::{shared_len, slices};
use std::alloc::{AllocError, Global};
use std::rc::Rc;

/// Both, one after the other, by a plan.
fn contents_but(
    alloc: Global,
    document: &Document,
    buffers: &[&[u8]],
    plan: Plan<'_>,
) -> Result<Report, AllocError>
    requires { AreFirsts document.now.accessors.items plan.firsts.now }
    ensures { IfOk result (λ report. report ≡ findings_of []
        (contents_checks_but (is_out plan.entry.left_out.now) document.now
        (slice_get (lent_bytes buffers.now)))) }
{
    let items = inspect_items_but(alloc, document, buffers, plan)?;
    let values = inspect_values_but(alloc, document, buffers, plan)?;
    joined(alloc, &items, &values)
}

/// Both, of all that there is. Fails where there is no memory.
pub(crate) fn inspect_contents(
    alloc: Global,
    document: &Document,
    buffers: &[&[u8]],
) -> Result<Report, AllocError>
    ensures { IfOk result (λ report. report ≡ findings_of []
        (contents_checks document.now (slice_get (lent_bytes buffers.now)))) }
{
    let firsts = firsts(alloc, document.as_json().accessors.as_slice())?;
    let none = Vec::new(alloc);
    let plan = Plan {
        firsts: &firsts,
        left_out: none.as_slice(),
    };
    contents_but(alloc, document, buffers, plan)
}

/// Both, as far as a budget goes.
fn contents_within(
    alloc: Global,
    document: &Document,
    buffers: &[&[u8]],
    budget: u64,
) -> Result<Report, AllocError>
    ensures { IfOk result (AreContentsWithin budget document.now (lent_bytes buffers.now)) }
{
    let firsts = firsts(alloc, document.as_json().accessors.as_slice())?;
    let left_out = left_out(alloc, document.as_json(), &firsts, budget)?;
    let plan = Plan {
        firsts: &firsts,
        left_out: &left_out,
    };
    contents_but(alloc, document, buffers, plan)
}

/// So many bytes of items for each byte of a file of this length and of its buffers. Fails where
/// there is no memory for the names of these.
fn budget(
    alloc: Global,
    share: u32,
    len: usize,
    document: &Document,
    buffers: &[Rc<Data>],
) -> Result<u64, AllocError>
    ensures { IfOk result
        (λ bytes. bytes ≡ budget share len document.now (shared_bytes buffers.now)) }
{
    let shared = shared_len(alloc, &document.as_json().buffers, buffers)?;
    Ok((share as u64).saturating_mul((len as u64).saturating_add(shared)))
}

/// Both, by the share and the length of the file; of all items, where there is no share.
fn contents_of(
    alloc: Global,
    document: &Document,
    buffers: &[Rc<Data>],
    share: Option<u32>,
    len: usize,
) -> Result<Report, AllocError>
    ensures { IfOk result (AreContents share len document.now (shared_bytes buffers.now)) }
{
    let lent = slices(alloc, buffers)?;
    match share {
        None => inspect_contents(alloc, document, &lent),
        Some(share) => {
            let budget = budget(alloc, share, len, document, buffers)?;
            contents_within(alloc, document, &lent, budget)
        }
    }
}

/// The report of an accepted file, whole; none of a refused one.
fn whole_report(
    alloc: Global,
    file: &Lent,
    share: Option<u32>,
    len: usize,
) -> Result<Option<Report>, AllocError>
    ensures { IfOk result (IsWholeOf share len file.now) }
{
    match &file.imported {
        None => Ok(None),
        Some((document, buffers)) => {
            let contents = contents_of(alloc, document, buffers.as_slice(), share, len)?;
            Ok(Some(joined(alloc, &file.report, &contents)?))
        }
    }
}

/// A file with another report, where there is one.
fn with_report(file: Lent, report: Option<Report>) -> Lent
    ensures report { result.report ≡ unwrap_or report file.report }
    ensures cause { result.cause ≡ file.cause }
    ensures imported { result.imported ≡ file.imported }
{
    let Lent {
        report: before,
        cause,
        imported,
    } = file;
    let report = match report {
        Some(report) => report,
        None => before,
    };
    Lent {
        report,
        cause,
        imported,
    }
}

/// A file whose layers were looked at, with what is found in its items. Fails where there is no
/// memory.
pub(crate) fn with_contents(
    alloc: Global,
    file: Lent,
    share: Option<u32>,
    len: usize,
) -> Result<Lent, AllocError>
    ensures whole { IfOk result (λ whole. (names : Names) (bytes : List ℕ)
        → length bytes ≡ len
        → IsOfLayers names bytes file
        → IsFound (said_by share) names bytes whole.cause (lent_of whole.imported) whole.report) }
    ensures imported { IfOk result (λ whole. whole.imported ≡ file.imported) }
{
    let report = whole_report(alloc, &file, share, len)?;
    Ok(with_report(file, report))
}
