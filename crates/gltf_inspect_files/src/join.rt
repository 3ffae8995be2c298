//! Reports, one after the other.
ghost use Rattle.std.specs.Prelude.{◌≡◌, ◌++◌, IfOk, OnOk};

use gltf_findings::findings::Findings;
use gltf_findings::report::Report;
use std::alloc::{AllocError, Global};

/// Adds all that is in a report. Fails where there is no memory.
pub(crate) fn add_all(
    alloc: Global,
    report: &Report,
    findings: &mut Findings,
) -> Result<(), AllocError>
    ensures { OnOk result (findings.new ≡ findings.old ++ report.now) }
{
    let found = report.findings();
    for finding in found {
        let (path, code) = finding;
        findings.add(path.clone(alloc)?, *code)?;
    }
    Ok(())
}

/// Both reports, one after the other.
pub(crate) fn joined(alloc: Global, first: &Report, second: &Report) -> Result<Report, AllocError>
    ensures { IfOk result (λ report. report ≡ first.now ++ second.now) }
{
    let mut findings = Findings::new(alloc);
    add_all(alloc, first, &mut findings)?;
    add_all(alloc, second, &mut findings)?;
    Ok(Report::new(findings))
}
