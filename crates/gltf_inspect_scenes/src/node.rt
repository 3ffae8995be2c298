//! Nodes with meshes, skins and weights (glTF 2.0, sections 3.7.2.2 and 3.7.3.3).
ghost use Rattle.std.specs.Prelude.{◌≡◌, OnOk, IfOk};
ghost use Rattle.gltf_validation.specs.Locations.{places_of};
ghost use Rattle.gltf_findings.specs.Checks.{told_after, optional_checks};
ghost use Rattle.gltf_inspect_scenes.specs.Nodes.{has_joints, some_skinned, skinned_meshes};
ghost use Rattle.gltf_inspect_scenes.specs.Nodes.{skin_checks, mesh_weights_checks, node_checks};
ghost use Rattle.gltf_inspect_scenes.specs.Nodes.{nodes_checks, mesh_index_checks};

use gltf_findings::code::Code;
use gltf_findings::findings::Findings;
use gltf_inspect_meshes::meaning::{JOINTS, meaning_number, set_number};
use gltf_inspect_meshes::target::target_count;
use gltf_inspect_meshes::weights::is_list_of;
use gltf_json::root::Root;
use gltf_json_geometry::mesh::{Mesh, Primitive};
use gltf_json_geometry::semantic::Semantic;
use gltf_json_record::index::Index;
use gltf_json_record::kinds;
use gltf_json_scene::scene::Node;
use gltf_validation::location::Location;
use std::alloc::{AllocError, Global};
use std::collections::BTreeMap;

/// Of each mesh, whether it is skinned.
pub(crate) fn skinned_meshes(alloc: Global, root: &Root) -> Result<Vec<bool>, AllocError>
    ensures { IfOk result (λ skinned. skinned.items ≡ skinned_meshes root.now) }
{
    let mut skinned = Vec::new(alloc);
    for mesh in root.meshes.as_slice() {
        skinned.push(some_skinned(mesh.primitives.as_slice()))?;
    }
    Ok(skinned)
}

fn some_skinned(primitives: &[Primitive]) -> bool
    ensures { result ≡ some_skinned primitives.now }
{
    for primitive in primitives {
        if has_joints(&primitive.attributes) {
            return true;
        }
    }
    false
}

fn has_joints(attributes: &BTreeMap<Semantic, Index<kinds::Accessor>>) -> bool
    ensures { result ≡ has_joints attributes.now.entries }
{
    for (semantic, _index) in attributes {
        if meaning_number(semantic) == JOINTS && set_number(semantic) == 0 {
            return true;
        }
    }
    false
}

/// Reports what is found in each node, of its skin and of its weights.
pub(crate) fn tell_nodes(
    root: &Root,
    skinned: &[bool],
    location: &Location<'_>,
    findings: &mut Findings,
) -> Result<(), AllocError>
    ensures { OnOk result (findings.new ≡ told_after findings.old (places_of location.now)
        (nodes_checks root.now skinned.now)) }
{
    let meshes = root.meshes.as_slice();
    for (i, node) in root.nodes.iter().enumerate() {
        tell_node(
            meshes,
            skinned,
            node,
            &Location::Item(&*location, i),
            findings,
        )?;
    }
    Ok(())
}

fn tell_node(
    meshes: &[Mesh],
    skinned: &[bool],
    node: &Node,
    location: &Location<'_>,
    findings: &mut Findings,
) -> Result<(), AllocError>
    ensures { OnOk result (findings.new ≡ told_after findings.old (places_of location.now)
        (node_checks meshes.now skinned.now node.now)) }
{
    let Some(index) = node.mesh else {
        return Ok(());
    };
    if let Some(is_skinned) = skinned.get(index.value()) {
        tell_skin(node.skin.is_some(), *is_skinned, location, findings)?;
    }
    match meshes.get(index.value()) {
        None => Ok(()),
        Some(mesh) => tell_weights(node, mesh, location, findings),
    }
}

fn tell_skin(
    has_skin: bool,
    is_skinned: bool,
    location: &Location<'_>,
    findings: &mut Findings,
) -> Result<(), AllocError>
    ensures { OnOk result (findings.new ≡ told_after findings.old (places_of location.now)
        (skin_checks has_skin is_skinned)) }
{
    findings.tell(
        !has_skin || is_skinned,
        Code::SkinWithNonSkinnedMesh,
        location,
    )?;
    findings.tell(
        has_skin || !is_skinned,
        Code::SkinnedMeshWithoutSkin,
        location,
    )
}

fn tell_weights(
    node: &Node,
    mesh: &Mesh,
    location: &Location<'_>,
    findings: &mut Findings,
) -> Result<(), AllocError>
    ensures { OnOk result (findings.new ≡ told_after findings.old (places_of location.now)
        (mesh_weights_checks node.now mesh.now)) }
{
    match &node.weights {
        None => Ok(()),
        Some(weights) => {
            let fits = is_list_of(target_count(mesh.primitives.as_slice()), weights);
            findings.tell_member(fits, Code::NodeWeightsInvalid, "weights", location)
        }
    }
}
