//! Lists of records, and the checks of each.
ghost use Rattle.std.specs.Prelude.{◌≡◌, OnOk};
ghost use Rattle.gltf_validation.specs.Locations.{places_of};
ghost use Rattle.gltf_findings.specs.Checks.{told_after, list_checks, member};

use gltf_findings::findings::Findings;
use gltf_json::root::Root;
use gltf_validation::location::Location;
use std::alloc::AllocError;

/// What has checks of its own, in a document.
pub(crate) trait Inspect {
    ghost use Rattle.gltf_json.specs.declared.root.Root.{Root};
    ghost use Rattle.gltf_findings.specs.Checks.{Checks};

    /// The checks of a value, in this document.
    ghost checks: { Root → Self → Checks };

    /// Reports what is found in a value, in order. Takes memory only for a finding.
    fn inspect(
        &self,
        root: &Root,
        location: &Location<'_>,
        findings: &mut Findings,
    ) -> Result<(), AllocError>
        ensures { OnOk result (findings.new
            ≡ told_after findings.old (places_of location.now) (checks root.now self.now)) };
}

/// Reports what is found in each element of a list.
pub(crate) fn inspect_each<T: Inspect>(
    values: &[T],
    root: &Root,
    location: &Location<'_>,
    findings: &mut Findings,
) -> Result<(), AllocError>
    ensures { OnOk result (findings.new ≡ told_after findings.old (places_of location.now)
        (list_checks (T.checks root.now) values.now)) }
{
    for (i, value) in values.iter().enumerate() {
        value.inspect(root, &Location::Item(&*location, i), findings)?;
    }
    Ok(())
}

/// Reports what is found in each element of the list at a member.
pub(crate) fn inspect_list<T: Inspect>(
    values: &[T],
    name: &'static str,
    root: &Root,
    location: &Location<'_>,
    findings: &mut Findings,
) -> Result<(), AllocError>
    ensures { OnOk result (findings.new ≡ told_after findings.old (places_of location.now)
        (member name.now (list_checks (T.checks root.now) values.now))) }
{
    inspect_each(values, root, &Location::Member(location, name), findings)
}
