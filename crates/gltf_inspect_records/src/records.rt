//! What is found in all records of a document.
ghost use Rattle.std.specs.Prelude.{◌≡◌, OnOk};
ghost use Rattle.gltf_validation.specs.Locations.{places_of};
ghost use Rattle.gltf_findings.specs.Checks.{told_after};
ghost use Rattle.gltf_inspect_records.specs.Records.{record_checks};

use crate::list::inspect_list;
use gltf_findings::findings::Findings;
use gltf_json::root::Root;
use gltf_validation::location::Location;
use std::alloc::AllocError;

/// Reports what is found in each record of a document by itself, and in what it names, in order:
/// accessors, animations, buffers, views, cameras, images, materials, meshes, nodes and skins.
/// Takes memory only for a finding, and fails where there is none.
pub fn inspect_records(
    root: &Root,
    location: &Location<'_>,
    findings: &mut Findings,
) -> Result<(), AllocError>
    ensures { OnOk result (findings.new ≡ told_after findings.old (places_of location.now)
        (record_checks root.now)) }
{
    inspect_list(
        root.accessors.as_slice(),
        "accessors",
        root,
        location,
        findings,
    )?;
    inspect_list(
        root.animations.as_slice(),
        "animations",
        root,
        location,
        findings,
    )?;
    inspect_list(root.buffers.as_slice(), "buffers", root, location, findings)?;
    inspect_list(
        root.buffer_views.as_slice(),
        "bufferViews",
        root,
        location,
        findings,
    )?;
    inspect_list(root.cameras.as_slice(), "cameras", root, location, findings)?;
    inspect_list(root.images.as_slice(), "images", root, location, findings)?;
    inspect_list(
        root.materials.as_slice(),
        "materials",
        root,
        location,
        findings,
    )?;
    inspect_list(root.meshes.as_slice(), "meshes", root, location, findings)?;
    inspect_list(root.nodes.as_slice(), "nodes", root, location, findings)?;
    inspect_list(root.skins.as_slice(), "skins", root, location, findings)
}
