//! The objects that no member of the document names.
ghost use Rattle.std.specs.Prelude.{◌≡◌, OnOk};
ghost use Rattle.gltf_validation.specs.Locations.{places_of};
ghost use Rattle.gltf_uses.specs.Usage.{unset, unused_in};
ghost use Rattle.gltf_findings.specs.Checks.{told_after, member};
ghost use Rattle.gltf_inspect.specs.Unused.{unused_checks, first_unused_checks};
ghost use Rattle.gltf_inspect.specs.Unused.{later_unused_checks, root_unused_checks};

use gltf_findings::code::Code;
use gltf_findings::findings::Findings;
use gltf_json::root::Root;
use gltf_uses::{Kind, Usage};
use gltf_validation::location::Location;
use std::alloc::{AllocError, Global};

/// Reports each object that no member names. Takes a byte an object.
pub(crate) fn tell_unused(
    alloc: Global,
    root: &Root,
    location: &Location<'_>,
    findings: &mut Findings,
) -> Result<(), AllocError>
    ensures { OnOk result (findings.new ≡ told_after findings.old (places_of location.now)
        (root_unused_checks root.now)) }
{
    let usage = Usage::of(alloc, root)?;
    tell_first(&usage, location, findings)?;
    tell_later(&usage, location, findings)
}

fn tell_first(
    usage: &Usage,
    location: &Location<'_>,
    findings: &mut Findings,
) -> Result<(), AllocError>
    ensures { OnOk result (findings.new ≡ told_after findings.old (places_of location.now)
        (first_unused_checks (unused_in usage.now))) }
{
    tell_list(usage, Kind::Accessor, "accessors", location, findings)?;
    tell_list(usage, Kind::Buffer, "buffers", location, findings)?;
    tell_list(usage, Kind::View, "bufferViews", location, findings)?;
    tell_list(usage, Kind::Camera, "cameras", location, findings)?;
    tell_list(usage, Kind::Image, "images", location, findings)?;
    tell_list(usage, Kind::Material, "materials", location, findings)
}

fn tell_later(
    usage: &Usage,
    location: &Location<'_>,
    findings: &mut Findings,
) -> Result<(), AllocError>
    ensures { OnOk result (findings.new ≡ told_after findings.old (places_of location.now)
        (later_unused_checks (unused_in usage.now))) }
{
    tell_list(usage, Kind::Mesh, "meshes", location, findings)?;
    tell_list(usage, Kind::Node, "nodes", location, findings)?;
    tell_list(usage, Kind::Sampler, "samplers", location, findings)?;
    tell_list(usage, Kind::Skin, "skins", location, findings)?;
    tell_list(usage, Kind::Texture, "textures", location, findings)?;
    let extensions = Location::Member(location, "extensions");
    let extension = Location::Member(&extensions, "KHR_lights_punctual");
    tell_list(usage, Kind::Light, "lights", &extension, findings)
}

/// Reports the objects of one list, which stands at the member of this name.
fn tell_list(
    usage: &Usage,
    kind: Kind,
    name: &'static str,
    location: &Location<'_>,
    findings: &mut Findings,
) -> Result<(), AllocError>
    ensures { OnOk result (findings.new ≡ told_after findings.old (places_of location.now)
        (member name.now (unused_checks (unused_in usage.now kind)))) }
{
    tell_unmarked(
        usage.of_list(kind),
        &Location::Member(location, name),
        findings,
    )
}

fn tell_unmarked(
    marks: &[bool],
    location: &Location<'_>,
    findings: &mut Findings,
) -> Result<(), AllocError>
    ensures { OnOk result (findings.new ≡ told_after findings.old (places_of location.now)
        (unused_checks (unset marks.now))) }
{
    for (i, is_used) in marks.iter().enumerate() {
        if !*is_used {
            findings.tell(false, Code::UnusedObject, &Location::Item(&*location, i))?;
        }
    }
    Ok(())
}
