//! A report as text.
use crate::printable::push_printable;
use crate::tables::{PARTS, table};
use gltf::Error;
use gltf_findings::code::Severity;
use gltf_findings::report::Report;
use gltf_json::root::Root;
use gltf_messages::told::Told;
use serde_json::Value;
use std::alloc::Global;
use std::io::{self, Write};

/// Writes a report as text: a line with the name of the file; the number of findings of each
/// severity; a line for each error, then for each warning and each info (hints are counted alone);
/// why the file holds no document, in the loader's words, where it holds none; and the tables of
/// what the document holds, where it is loaded. `value` is the JSON value of the file, where the
/// messages are to say which kinds it has. In all texts of the file, in its name and in the cause,
/// control characters stand as `\uXXXX`, so that none of them begins a line.
pub fn write_text<O: Write>(
    alloc: Global,
    name: &str,
    report: &Report,
    cause: Option<&Error>,
    root: Option<&Root>,
    value: Option<&Value>,
    out: &mut O,
) -> io::Result<()> {
    let mut room = String::new(alloc);
    push_printable(name, &mut room)?;
    writeln!(out, "{room}")?;
    write_counts(report, out)?;
    write_findings(alloc, report, root, value, Severity::Error, out)?;
    write_findings(alloc, report, root, value, Severity::Warning, out)?;
    write_findings(alloc, report, root, value, Severity::Information, out)?;
    if let Some(cause) = cause {
        let cause = format!(in alloc; "{cause}")?;
        room.clear();
        push_printable(cause.as_str(), &mut room)?;
        writeln!(out, "refused: {room}")?;
    }
    if let Some(root) = root {
        writeln!(out)?;
        for part in &PARTS {
            table(alloc, root, *part)?.write_text(out)?;
        }
    }
    Ok(())
}

fn write_counts<O: Write>(report: &Report, out: &mut O) -> io::Result<()> {
    let errors = report.count(Severity::Error);
    let warnings = report.count(Severity::Warning);
    let infos = report.count(Severity::Information);
    let hints = report.count(Severity::Hint);
    writeln!(
        out,
        "FINDINGS  errors: {errors}, warnings: {warnings}, infos: {infos}, hints: {hints}"
    )
}

fn write_findings<O: Write>(
    alloc: Global,
    report: &Report,
    root: Option<&Root>,
    value: Option<&Value>,
    severity: Severity,
    out: &mut O,
) -> io::Result<()> {
    let mut told = Told::new(alloc);
    let mut pointer = String::new(alloc);
    for finding in report.findings() {
        let code = finding.1;
        if code.severity().is(severity) {
            told.tell(alloc, root, value, finding)?;
            let grave = severity.name();
            let name = code.name();
            pointer.clear();
            push_printable(told.shown_pointer(), &mut pointer)?;
            let says = told.says();
            writeln!(out, "{grave} {name} {pointer} {says}")?;
        }
    }
    Ok(())
}
