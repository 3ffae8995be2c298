//! The extensions that a document names (glTF 2.0, section 3.12).
ghost use Rattle.std.specs.Prelude.{◌≡◌, OnOk, []};
ghost use Rattle.gltf_validation.specs.Locations.{places_of};
ghost use Rattle.gltf_findings.specs.Checks.{told_after};
ghost use Rattle.gltf_json_record.specs.Member.{is_one_of};
ghost use Rattle.gltf_inspect_meshes.specs.Names.{has_name};
ghost use Rattle.gltf_inspect.specs.Extensions.{used_checks, required_checks, unique_checks};
ghost use Rattle.gltf_inspect.specs.Extensions.{unseen_checks, other_extensions, is_read};

use gltf_findings::code::Code;
use gltf_findings::findings::Findings;
use gltf_inspect_meshes::names::NameSet;
use gltf_validation::location::Location;
use gltf_validation::root::is_supported;
use std::alloc::{AllocError, Global};

/// Reports each used extension that is not known.
pub(crate) fn tell_used(
    used: &[String],
    location: &Location<'_>,
    findings: &mut Findings,
) -> Result<(), AllocError>
    ensures { OnOk result (findings.new ≡ told_after findings.old (places_of location.now)
        (used_checks used.now)) }
{
    for (i, name) in used.iter().enumerate() {
        let at = Location::Item(&*location, i);
        findings.tell(is_read(name), Code::UnsupportedExtension, &at)?;
    }
    Ok(())
}

/// Whether an extension is read, with the document or by `gltf_extensions`.
fn is_read(name: &str) -> bool
    ensures { result ≡ is_read name.now }
{
    is_supported(name) || is_other(name)
}

fn is_other(name: &str) -> bool
    ensures { result ≡ is_one_of other_extensions name.now }
{
    match name {
        "EXT_mesh_gpu_instancing"
        | "EXT_meshopt_compression"
        | "EXT_texture_webp"
        | "KHR_animation_pointer"
        | "KHR_materials_anisotropy"
        | "KHR_materials_clearcoat"
        | "KHR_materials_diffuse_transmission"
        | "KHR_materials_dispersion"
        | "KHR_materials_iridescence"
        | "KHR_materials_sheen"
        | "KHR_mesh_quantization"
        | "KHR_node_visibility"
        | "KHR_texture_basisu"
        | "KHR_xmp_json_ld" => true,
        _ => false,
    }
}

/// Reports each name that stands in front of itself in a list. Takes a copy of each name.
pub(crate) fn tell_repeated(
    alloc: Global,
    names: &[String],
    location: &Location<'_>,
    findings: &mut Findings,
) -> Result<(), AllocError>
    ensures { OnOk result (findings.new ≡ told_after findings.old (places_of location.now)
        (unique_checks [] 0 names.now)) }
{
    let mut seen = NameSet::new(alloc);
    tell_seen(&mut seen, names, location, findings)
}

/// The same, where some names were seen before.
fn tell_seen(
    seen: &mut NameSet,
    names: &[String],
    location: &Location<'_>,
    findings: &mut Findings,
) -> Result<(), AllocError>
    ensures { OnOk result (findings.new ≡ told_after findings.old (places_of location.now)
        (unseen_checks (has_name seen.old) 0 names.now)) }
{
    for (i, name) in names.iter().enumerate() {
        let was_seen = seen.add(name)?;
        let at = Location::Item(&*location, i);
        findings.tell(!was_seen, Code::DuplicateElements, &at)?;
    }
    Ok(())
}

/// Reports each required extension that is not among the used ones.
pub(crate) fn tell_required(
    alloc: Global,
    used: &[String],
    required: &[String],
    location: &Location<'_>,
    findings: &mut Findings,
) -> Result<(), AllocError>
    ensures { OnOk result (findings.new ≡ told_after findings.old (places_of location.now)
        (required_checks used.now required.now)) }
{
    let declared = NameSet::of(alloc, used)?;
    for (i, name) in required.iter().enumerate() {
        let at = Location::Item(&*location, i);
        findings.tell(declared.has(name), Code::UnusedExtensionRequired, &at)?;
    }
    Ok(())
}
