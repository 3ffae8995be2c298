//! The rules of indices, codes, sizes, members that may be absent, and lists.
ghost use Rattle.std.specs.Prelude.{◌≡◌, OnOk};
ghost use Rattle.gltf_validation.specs.Locations.{places_of};
ghost use Rattle.gltf_validation.specs.Rules.{report_after};
ghost use Rattle.gltf_validation.specs.Members.{member, index_rules, code_rules, size_rules};
ghost use Rattle.gltf_validation.specs.Members.{optional_rules, list_rules, needed_rules};

use crate::counts::{Counted, Counts};
use crate::error::Error;
use crate::location::Location;
use crate::report::Report;
use crate::validate::Validate;
use gltf_json_record::boxed::Boxed;
use gltf_json_record::index::Index;
use gltf_json_record::validation::Checked;
use std::alloc::AllocError;

impl<T: Counted> Validate for Index<T> {
    ghost rules = { λ c i. index_rules (T.count c) i };

    fn validate(
        &self,
        counts: &Counts,
        location: &Location<'_>,
        report: &mut Report,
    ) -> Result<(), AllocError> {
        if self.value() < T::count(counts) {
            Ok(())
        } else {
            report.add(location, Error::IndexOutOfBounds)
        }
    }
}

impl<T> Validate for Checked<T> {
    ghost rules = { λ _ code. code_rules code };

    fn validate(
        &self,
        _counts: &Counts,
        location: &Location<'_>,
        report: &mut Report,
    ) -> Result<(), AllocError> {
        match self {
            Checked::Invalid => report.add(location, Error::Invalid),
            Checked::Valid(_) => Ok(()),
        }
    }
}

// With 64 bits every size fits; the rule stands for the sake of machines that have fewer.
impl Validate for u64 {
    ghost rules = { λ _ size. size_rules size };

    fn validate(
        &self,
        _counts: &Counts,
        location: &Location<'_>,
        report: &mut Report,
    ) -> Result<(), AllocError> {
        match usize::try_from(*self) {
            Ok(_) => Ok(()),
            Err(_) => report.add(location, Error::Oversize),
        }
    }
}

impl<T: Validate> Validate for Option<T> {
    ghost rules = { λ c o. optional_rules (T.rules c) o };

    fn validate(
        &self,
        counts: &Counts,
        location: &Location<'_>,
        report: &mut Report,
    ) -> Result<(), AllocError> {
        match self {
            None => Ok(()),
            Some(value) => value.validate(counts, location, report),
        }
    }
}

impl<T: Validate> Validate for Boxed<T> {
    ghost rules = { λ c b. T.rules c b };

    fn validate(
        &self,
        counts: &Counts,
        location: &Location<'_>,
        report: &mut Report,
    ) -> Result<(), AllocError> {
        self.get().validate(counts, location, report)
    }
}

impl<T: Validate> Validate for Vec<T> {
    ghost rules = { λ c v. list_rules (T.rules c) v.items };

    fn validate(
        &self,
        counts: &Counts,
        location: &Location<'_>,
        report: &mut Report,
    ) -> Result<(), AllocError> {
        for (i, value) in self.iter().enumerate() {
            value.validate(counts, &Location::Item(&*location, i), report)?;
        }
        Ok(())
    }
}

/// The rules of what stands at a member.
pub(crate) fn member<T: Validate>(
    value: &T,
    name: &'static str,
    counts: &Counts,
    location: &Location<'_>,
    report: &mut Report,
) -> Result<(), AllocError>
    ensures { OnOk result (report.new ≡ report_after report.old (places_of location.now)
        (member name.now (T.rules counts.now value.now))) }
{
    value.validate(counts, &Location::Member(location, name), report)
}

/// Reports the rules of several members of a record, in order: a line `field: "name",` a member.
macro_rules! members {
    ($record:ident, $counts:ident, $location:ident, $report:ident; {
        $field:ident: $name:expr,
    }) => {
        $crate::members::member(&$record.$field, $name, $counts, $location, $report)
    };
    ($record:ident, $counts:ident, $location:ident, $report:ident; {
        $field:ident: $name:expr, $($rest:tt)+
    }) => {{
        $crate::members::member(&$record.$field, $name, $counts, $location, $report)?;
        members!($record, $counts, $location, $report; { $($rest)+ })
    }};
}

pub(crate) use members;

/// A member that has to be there in some cases.
pub(crate) fn needed<T>(
    is_needed: bool,
    value: &Option<T>,
    name: &'static str,
    location: &Location<'_>,
    report: &mut Report,
) -> Result<(), AllocError>
    ensures { OnOk result (report.new ≡ report_after report.old (places_of location.now)
        (member name.now (needed_rules is_needed value.now))) }
{
    if is_needed && value.is_none() {
        report.add(&Location::Member(location, name), Error::Missing)
    } else {
        Ok(())
    }
}
