//! What has extensions, and what is reported of them.
ghost use Rattle.std.specs.Prelude.{◌≡◌, OnOk, codes};
ghost use Rattle.std.specs.Option.{option_copied};
ghost use Rattle.gltf_validation.specs.Locations.{places_of};
ghost use Rattle.gltf_inspect_meshes.specs.Names.{has_name};
ghost use Rattle.gltf_findings.specs.Checks.{told_after, member, optional_checks, list_checks};
ghost use Rattle.gltf_inspect_extensions.specs.Extended.{entries_checks, known_checks};
ghost use Rattle.gltf_inspect_extensions.specs.Extended.{extensions_checks};

use gltf_findings::code::Code;
use gltf_findings::findings::Findings;
use gltf_inspect_meshes::names::NameSet;
use gltf_json_record::extensions::Others;
use gltf_validation::location::Location;
use serde_json::{Map, Value};
use std::alloc::AllocError;

/// A record that may have extensions, or records with some.
pub(crate) trait Extended {
    ghost use Rattle.gltf_findings.specs.Checks.{Checks};
    ghost use Rattle.gltf_inspect_extensions.specs.Extended.{Names};

    /// The checks of a value, where these names are declared.
    ghost checks: { Names → Self → Checks };

    /// Reports each extension that is used in a value and not among the declared ones, in order.
    fn tell(
        &self,
        used: &NameSet,
        location: &Location<'_>,
        findings: &mut Findings,
    ) -> Result<(), AllocError>
        ensures { OnOk result (findings.new
            ≡ told_after findings.old (places_of location.now)
            (checks (has_name used.now) self.now)) };
}

/// The same of the members of `extensions` of which no record is made.
pub(crate) fn tell_others(
    others: &Map<String, Value>,
    used: &NameSet,
    location: &Location<'_>,
    findings: &mut Findings,
) -> Result<(), AllocError>
    ensures { OnOk result (findings.new ≡ told_after findings.old (places_of location.now)
        (entries_checks (has_name used.now) others.now.entries)) }
{
    for (name, _value) in others {
        let at = Location::UnknownAttribute(&*location, name.as_str());
        let is_declared = used.has(name.as_str());
        findings.tell(is_declared, Code::UndeclaredExtension, &at)?;
    }
    Ok(())
}

/// The same of the extension of this name, where a record is made of it.
pub(crate) fn tell_known<T>(
    extension: &Option<T>,
    name: &'static str,
    used: &NameSet,
    location: &Location<'_>,
    findings: &mut Findings,
) -> Result<(), AllocError>
    ensures { OnOk result (findings.new ≡ told_after findings.old (places_of location.now)
        (known_checks (has_name used.now) name.now extension.now)) }
{
    if extension.is_none() {
        return Ok(());
    }
    let is_declared = used.has(name);
    findings.tell_member(is_declared, Code::UndeclaredExtension, name, location)
}

/// The same of the member of this name.
pub(crate) fn tell_optional<T: Extended>(
    value: Option<&T>,
    name: &'static str,
    used: &NameSet,
    location: &Location<'_>,
    findings: &mut Findings,
) -> Result<(), AllocError>
    ensures { OnOk result (findings.new ≡ told_after findings.old (places_of location.now)
        (member name.now (optional_checks (T.checks (has_name used.now))
        (option_copied value.entry)))) }
{
    match value {
        Some(value) => value.tell(used, &Location::Member(location, name), findings),
        None => Ok(()),
    }
}

/// The same of the member `extensions`.
pub(crate) fn tell_extensions<T: Extended>(
    extensions: Option<&T>,
    used: &NameSet,
    location: &Location<'_>,
    findings: &mut Findings,
) -> Result<(), AllocError>
    ensures { OnOk result (findings.new ≡ told_after findings.old (places_of location.now)
        (extensions_checks (T.checks (has_name used.now)) (option_copied extensions.entry))) }
{
    tell_optional(extensions, "extensions", used, location, findings)
}

fn tell_each<T: Extended>(
    values: &[T],
    used: &NameSet,
    location: &Location<'_>,
    findings: &mut Findings,
) -> Result<(), AllocError>
    ensures { OnOk result (findings.new ≡ told_after findings.old (places_of location.now)
        (list_checks (T.checks (has_name used.now)) values.now)) }
{
    for (i, value) in values.iter().enumerate() {
        value.tell(used, &Location::Item(&*location, i), findings)?;
    }
    Ok(())
}

/// The same of each element of the list at the member of this name.
pub(crate) fn tell_list<T: Extended>(
    values: &[T],
    name: &'static str,
    used: &NameSet,
    location: &Location<'_>,
    findings: &mut Findings,
) -> Result<(), AllocError>
    ensures { OnOk result (findings.new ≡ told_after findings.old (places_of location.now)
        (member name.now (list_checks (T.checks (has_name used.now)) values.now))) }
{
    tell_each(values, used, &Location::Member(location, name), findings)
}

impl Extended for Others {
    ghost use Rattle.gltf_inspect_extensions.specs.Extended.{others_checks};

    ghost checks = { λ used r. others_checks used r };

    fn tell(
        &self,
        used: &NameSet,
        location: &Location<'_>,
        findings: &mut Findings,
    ) -> Result<(), AllocError> {
        tell_others(&self.others, used, location, findings)
    }
}
