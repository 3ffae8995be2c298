//! The report of a document.
ghost use Rattle.std.specs.Prelude.{◌≡◌, ◌==◌};
ghost use Rattle.gltf_findings.specs.Reports.{count_of, refusal_count};
ghost use Rattle.gltf_findings.specs.declared.code.Severity.TheVariants.{Error};

use crate::code::{Code, Severity};
use crate::findings::Findings;
use gltf_json_record::path::Path;
use std::marker::Model;

/// All that is found in a document, in order. Contracts see the list of it: the path of each
/// finding, and its code.
#[derive(Debug, Drop)]
pub struct Report {
    found: Vec<(Path, Code)>,
}

impl Model for Report {
    ghost use Rattle.std.specs.Prelude.{List};
    ghost use Rattle.gltf_json_record.specs.Place.{Place};
    ghost use Rattle.gltf_findings.specs.declared.code.Code.{Code};

    ghost Value = { List (List Place × Code) };

    ghost view = { λ r. r.found.items };
}

impl Report {
    /// The report of what a walk has found.
    pub fn new(findings: Findings) -> Report
        ensures { result ≡ findings }
    {
        Report {
            found: findings.into_found(),
        }
    }

    /// The findings, each with the path where it stands, in the order of the checks.
    pub fn findings(&self) -> &[(Path, Code)]
        ensures { result.now ≡ self.now }
    {
        self.found.as_slice()
    }

    /// How many findings are of this severity.
    pub fn count(&self, severity: Severity) -> usize
        ensures { result ≡ count_of severity self.now }
    {
        let mut count = 0;
        for (i, finding) in self.found.iter().enumerate() {
            if finding.1.severity().is(severity) {
                count += 1;
            }
        }
        count
    }

    /// How many findings say that a file may be one that is not loaded: the errors, and the members
    /// that this reader alone needs ([`Code::NeededByReader`]). Where there are none, the file of a
    /// report of `gltf_inspect_files` is loaded.
    pub fn refusals(&self) -> usize
        ensures { result ≡ refusal_count self.now }
    {
        let mut count = 0;
        for (i, finding) in self.found.iter().enumerate() {
            if finding.1.may_refuse() {
                count += 1;
            }
        }
        count
    }

    /// Whether none of the findings is an error. A file that is not loaded may have such a report:
    /// one with [`Code::NeededByReader`] alone.
    pub fn is_without_errors(&self) -> bool
        ensures { result ≡ (count_of Error self.now == 0) }
    {
        self.count(Severity::Error) == 0
    }
}
