//! All that is found here of the meshes of a document.
ghost use Rattle.std.specs.Prelude.{◌≡◌, OnOk};
ghost use Rattle.gltf_validation.specs.Locations.{places_of};
ghost use Rattle.gltf_findings.specs.Checks.{told_after};
ghost use Rattle.gltf_inspect_meshes.specs.Meshes.{meshes_checks};

use crate::format::declares_quantization;
use crate::list::inspect_list;
use gltf_findings::findings::Findings;
use gltf_json::root::Root;
use gltf_validation::location::Location;
use std::alloc::AllocError;

/// Reports what is found in the meshes of a document, in order: the sets and formats of attributes,
/// what is drawn, texture coordinates, morph targets and weights. Takes memory only for a finding,
/// and fails where there is none.
pub fn inspect_meshes(
    root: &Root,
    location: &Location<'_>,
    findings: &mut Findings,
) -> Result<(), AllocError>
    ensures { OnOk result (findings.new ≡ told_after findings.old (places_of location.now)
        (meshes_checks root.now)) }
{
    let is_quantized = declares_quantization(root);
    inspect_list(
        root.meshes.as_slice(),
        "meshes",
        root,
        is_quantized,
        location,
        findings,
    )
}
