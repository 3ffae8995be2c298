//! All that is found here of the nodes and animations of a document.
ghost use Rattle.std.specs.Prelude.{◌≡◌, OnOk};
ghost use Rattle.gltf_validation.specs.Locations.{places_of};
ghost use Rattle.gltf_findings.specs.Checks.{told_after};
ghost use Rattle.gltf_inspect_scenes.specs.Scenes.{scenes_checks};

use crate::list::inspect_list;
use crate::node::{skinned_meshes, tell_nodes};
use gltf_findings::findings::Findings;
use gltf_json::root::Root;
use gltf_validation::location::Location;
use std::alloc::{AllocError, Global};

/// Reports what is found in the nodes and animations of a document, in order: skins of nodes and
/// their weights, animated weights, and the outputs of samplers. Takes a byte a mesh, and memory
/// for a finding; fails where there is none.
pub fn inspect_scenes(
    alloc: Global,
    root: &Root,
    location: &Location<'_>,
    findings: &mut Findings,
) -> Result<(), AllocError>
    ensures { OnOk result (findings.new ≡ told_after findings.old (places_of location.now)
        (scenes_checks root.now)) }
{
    let skinned = skinned_meshes(alloc, root)?;
    let nodes = Location::Member(location, "nodes");
    tell_nodes(root, skinned.as_slice(), &nodes, findings)?;
    inspect_list(
        root.animations.as_slice(),
        "animations",
        root,
        location,
        findings,
    )
}
