//! The report as JSON.
ghost use Rattle.std.specs.Prelude.{◌≡◌, IfOk, Some, string_bytes};
ghost use Rattle.serde_json.specs.Data.{array};
ghost use Rattle.serde_json.specs.Read.{read};
ghost use Rattle.serde_json.specs.View.{view};
ghost use Rattle.gltf_findings.specs.Reports.{message_data, messages_items, issues_data};
ghost use Rattle.gltf_findings.specs.Reports.{report_data};

use crate::code::{Code, Severity};
use crate::report::Report;
use gltf_json_record::path::Path;
use serde_json::{Value, json};
use std::alloc::{AllocError, Global};

fn message(alloc: Global, finding: &(Path, Code)) -> Result<Value, AllocError>
    ensures { IfOk result (λ v. view v ≡ message_data finding.now) }
{
    let (path, code) = finding;
    let pointer = path.pointer(alloc)?;
    let name = code.name();
    let sentence = code.sentence();
    let severity = code.severity().number();
    json!(in alloc; {
        "code": name,
        "message": sentence,
        "pointer": pointer,
        "severity": severity
    })
}

fn messages(alloc: Global, findings: &[(Path, Code)]) -> Result<Value, AllocError>
    ensures { IfOk result (λ v. view v ≡ array (messages_items findings.now)) }
{
    let mut messages = Vec::new(alloc);
    for finding in findings {
        messages.push(message(alloc, finding)?)?;
    }
    Ok(Value::Array(messages))
}

fn issues(alloc: Global, report: &Report) -> Result<Value, AllocError>
    ensures { IfOk result (λ v. view v ≡ issues_data report.now) }
{
    let messages = messages(alloc, report.findings())?;
    let errors = report.count(Severity::Error) as u64;
    let hints = report.count(Severity::Hint) as u64;
    let infos = report.count(Severity::Information) as u64;
    let warnings = report.count(Severity::Warning) as u64;
    json!(in alloc; {
        "messages": messages,
        "numErrors": errors,
        "numHints": hints,
        "numInfos": infos,
        "numWarnings": warnings,
        "truncated": false
    })
}

impl Report {
    /// The report as JSON, in the layout of the Khronos validator, for the file of this name: under
    /// `issues` the messages and the number of those of each severity.
    pub fn to_json(&self, alloc: Global, uri: &str) -> Result<Value, AllocError>
        ensures { IfOk result (λ v. view v ≡ report_data uri.now self.now) }
    {
        let issues = issues(alloc, self)?;
        json!(in alloc; {
            "issues": issues,
            "uri": uri,
            "validatorVersion": "gltf_inspect 1"
        })
    }

    /// The text of that JSON, on one line. Read back, it is the report again.
    pub fn json_text(&self, alloc: Global, uri: &str) -> Result<String, AllocError>
        ensures { IfOk result (λ s. read (string_bytes s)
            ≡ Some (report_data uri.now self.now)) }
    {
        let value = self.to_json(alloc, uri)?;
        let text = value.to_string(alloc)?;
        Ok(text)
    }
}
