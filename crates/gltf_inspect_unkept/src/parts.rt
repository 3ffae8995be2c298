//! Checks of JSON values, made of smaller ones.
ghost use Rattle.std.specs.Prelude.{◌≡◌, OnOk};
ghost use Rattle.serde_json.specs.View.{view, items_view, members_view};
ghost use Rattle.gltf_validation.specs.Locations.{places_of};
ghost use Rattle.gltf_inspect_meshes.specs.Names.{has_name};
ghost use Rattle.gltf_findings.specs.Checks.{told_after};
ghost use Rattle.gltf_inspect_unkept.specs.Parts.{at_checks, each_checks, declared_checks, extended};
ghost use Rattle.gltf_inspect_unkept.specs.Parts.{items_checks, names_checks};

use gltf_findings::code::Code;
use gltf_findings::findings::Findings;
use gltf_inspect_meshes::names::NameSet;
use gltf_json_record::read::member;
use gltf_validation::location::Location;
use serde_json::{Map, Value};
use std::alloc::AllocError;

/// Checks of a value.
pub(crate) trait Part {
    ghost use Rattle.std.specs.Prelude.{◌≡◌, OnOk};
    ghost use Rattle.serde_json.specs.View.{view};
    ghost use Rattle.gltf_validation.specs.Locations.{places_of};
    ghost use Rattle.gltf_inspect_meshes.specs.Names.{has_name};
    ghost use Rattle.gltf_findings.specs.Checks.{told_after};
    ghost use Rattle.gltf_inspect_unkept.specs.Parts.{ChecksOf};

    /// The checks of a value, where some names are declared.
    ghost checks: { ChecksOf };

    /// Reports each extension that is used in a value and not among the declared ones, in order.
    fn tell(
        value: &Value,
        used: &NameSet,
        location: &Location<'_>,
        findings: &mut Findings,
    ) -> Result<(), AllocError>
        ensures { OnOk result (findings.new
            ≡ told_after findings.old (places_of location.now)
            (checks (has_name used.now) (view value.now))) };
}

/// The same of the member of a name, where it is there.
pub(crate) fn tell_member<P: Part>(
    value: &Value,
    name: &'static str,
    used: &NameSet,
    location: &Location<'_>,
    findings: &mut Findings,
) -> Result<(), AllocError>
    ensures { OnOk result (findings.new
        ≡ told_after findings.old (places_of location.now)
        (at_checks name.now P.checks (has_name used.now) (view value.now))) }
{
    match member(value, name) {
        Some(found) => P::tell(found, used, &Location::Member(location, name), findings),
        None => Ok(()),
    }
}

/// The same of each element of a list, the member of a name, where it is there.
pub(crate) fn tell_list<P: Part>(
    value: &Value,
    name: &'static str,
    used: &NameSet,
    location: &Location<'_>,
    findings: &mut Findings,
) -> Result<(), AllocError>
    ensures { OnOk result (findings.new
        ≡ told_after findings.old (places_of location.now)
        (at_checks name.now (each_checks P.checks) (has_name used.now) (view value.now))) }
{
    match member(value, name) {
        Some(Value::Array(list)) => {
            tell_each::<P>(list, used, &Location::Member(location, name), findings)
        }
        _ => Ok(()),
    }
}

fn tell_each<P: Part>(
    list: &[Value],
    used: &NameSet,
    location: &Location<'_>,
    findings: &mut Findings,
) -> Result<(), AllocError>
    ensures { OnOk result (findings.new
        ≡ told_after findings.old (places_of location.now)
        (items_checks (P.checks (has_name used.now)) 0 (items_view list.now))) }
{
    for (i, item) in list.iter().enumerate() {
        P::tell(item, used, &Location::Item(&*location, i), findings)?;
    }
    Ok(())
}

/// The names of the members of an object.
struct Declared;

impl Part for Declared {
    ghost checks = { declared_checks };

    fn tell(
        value: &Value,
        used: &NameSet,
        location: &Location<'_>,
        findings: &mut Findings,
    ) -> Result<(), AllocError> {
        match value {
            Value::Object(members) => tell_names(members, used, location, findings),
            _ => Ok(()),
        }
    }
}

fn tell_names(
    members: &Map<String, Value>,
    used: &NameSet,
    location: &Location<'_>,
    findings: &mut Findings,
) -> Result<(), AllocError>
    ensures { OnOk result (findings.new ≡ told_after findings.old (places_of location.now)
        (names_checks (has_name used.now) (members_view members.now.entries))) }
{
    for (name, _value) in members {
        let at = Location::UnknownAttribute(&*location, name.as_str());
        let is_declared = used.has(name.as_str());
        findings.tell(is_declared, Code::UndeclaredExtension, &at)?;
    }
    Ok(())
}

/// The extensions of an object.
pub(crate) struct Extended;

impl Part for Extended {
    ghost checks = { extended };

    fn tell(
        value: &Value,
        used: &NameSet,
        location: &Location<'_>,
        findings: &mut Findings,
    ) -> Result<(), AllocError> {
        tell_member::<Declared>(value, "extensions", used, location, findings)
    }
}
