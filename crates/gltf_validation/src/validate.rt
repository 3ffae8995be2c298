//! One walk over a document.
ghost use Rattle.std.specs.Prelude.{◌≡◌, ◌↔◌, [], OnOk, IfOk};
ghost use Rattle.gltf_validation.specs.Rules.{Rules, checks_at, broken, report_after, Hold};
ghost use Rattle.gltf_validation.specs.Locations.{places_of};

use crate::counts::Counts;
use crate::error::Error;
use crate::location::Location;
use crate::report::Report;
use gltf_json_record::path::Path;
use std::alloc::{AllocError, Global};

/// What has rules.
pub trait Validate {
    ghost use Rattle.gltf_validation.specs.declared.counts.Counts.{Counts};

    /// The rules of a value, in a document whose lists have these lengths.
    ghost rules: { Counts → Self → Rules };

    /// Reports each broken rule, in order. Takes memory only for a broken one.
    fn validate(
        &self,
        counts: &Counts,
        location: &Location<'_>,
        report: &mut Report,
    ) -> Result<(), AllocError>
        ensures { OnOk result (report.new
            ≡ report_after report.old (places_of location.now) (rules counts.now self.now)) };
}

/// Every broken rule of a value that is the whole of a document, in order.
pub fn faults_of<T: Validate>(
    alloc: Global,
    value: &T,
    counts: &Counts,
) -> Result<Vec<(Path, Error)>, AllocError>
    ensures whole { IfOk result (λ faults. faults.items
        ≡ broken (checks_at [] (T.rules counts.now value.now))) }
    ensures none { IfOk result (λ faults. (faults.items ≡ []) ↔ Hold
        (T.rules counts.now value.now)) }
{
    let mut report = Report::new(alloc);
    value.validate(counts, &Location::Whole, &mut report)?;
    Ok(report.into_faults())
}
