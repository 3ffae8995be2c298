//! A report as JSON, with what the document holds.
ghost use Rattle.std.specs.Prelude.{IfOk, option_map, string_bytes};
ghost use Rattle.gltf_report_json.specs.Reported.{IsReportText};

use gltf_findings::report::Report;
use gltf_json::root::Root;
use gltf_report_json::text::report_text;
use serde_json::Value;
use std::alloc::{AllocError, Global};

/// The report as JSON, in the layout of the Khronos validator, and under `info` what the document
/// holds, where there is one. On one line, or on several where it is to be pretty. `value` is the
/// JSON value of the file, where the messages are to say which kinds it has.
pub fn json_text(
    alloc: Global,
    name: &str,
    report: &Report,
    root: Option<&Root>,
    value: Option<&Value>,
    is_pretty: bool,
) -> Result<String, AllocError>
    ensures { IfOk result (λ text. IsReportText is_pretty name.now report.now
        (option_map (λ r. r.now) root.entry) (string_bytes text)) }
{
    report_text(alloc, name, report, root, value, is_pretty)
}
