//! The rules of the members of a record.
ghost use Rattle.std.specs.Prelude.{◌≡◌, OnOk};
ghost use Rattle.gltf_validation.specs.Locations.{places_of};
ghost use Rattle.gltf_validation.specs.Members.{member};
ghost use Rattle.gltf_validation.specs.Rules.{report_after};

use gltf_validation::counts::Counts;
use gltf_validation::location::Location;
use gltf_validation::report::Report;
use gltf_validation::validate::Validate;
use std::alloc::AllocError;

/// The rules of what stands at a member.
pub fn member<T: Validate>(
    value: &T,
    name: &'static str,
    counts: &Counts,
    location: &Location<'_>,
    report: &mut Report,
) -> Result<(), AllocError>
    ensures { OnOk result (report.new ≡ report_after report.old (places_of location.now)
        (member name.now (T.rules counts.now value.now))) }
{
    value.validate(counts, &Location::Member(location, name), report)
}

/// Reports the rules of several members of a record, in order: a line `field: "name",` a member.
#[macro_export]
macro_rules! members {
    ($record:ident, $counts:ident, $location:ident, $report:ident; {
        $field:ident: $name:expr,
    }) => {
        $crate::members::member(&$record.$field, $name, $counts, $location, $report)
    };
    ($record:ident, $counts:ident, $location:ident, $report:ident; {
        $field:ident: $name:expr, $($rest:tt)+
    }) => {{
        $crate::members::member(&$record.$field, $name, $counts, $location, $report)?;
        $crate::members!($record, $counts, $location, $report; { $($rest)+ })
    }};
}
