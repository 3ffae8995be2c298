//! All that is found here of the scenes, nodes and skins of a document.
ghost use Rattle.std.specs.Prelude.{◌≡◌, ◌*◌, OnOk, length, [], codes};
ghost use Rattle.gltf_validation.specs.Locations.{places_of};
ghost use Rattle.gltf_findings.specs.Checks.{told_after, list_checks};
ghost use Rattle.gltf_inspect_nodes.specs.Graphs.{graph_checks, repeats_checks, empty_checks};
ghost use Rattle.gltf_inspect_nodes.specs.Graphs.{is_child_in, is_joint_in, node_count};
ghost use Rattle.gltf_inspect_nodes.specs.Graphs.{animation_checks};
ghost use Rattle.gltf_inspect_nodes.specs.Graphs.{scene_checks, root_checks, is_empty};
ghost use Rattle.gltf_inspect_nodes.specs.Graphs.{uniques_checks};
ghost use Rattle.gltf_inspect_nodes.specs.Hierarchies.{IsHierarchyOf};
ghost use Rattle.gltf_inspect_nodes.specs.Marks.{is_marked, AreMarks};
ghost use Rattle.gltf_inspect_nodes.specs.Named.{children_of};

use crate::hierarchy::Hierarchy;
use crate::marks::{is_marked, marks_of, no_marks};
use crate::repeats::{tell_each, tell_targets};
use gltf_findings::code::Code;
use gltf_findings::findings::Findings;
use gltf_json::root::Root;
use gltf_json_record::index::Index;
use gltf_json_record::kinds;
use gltf_json_scene::scene::{Node, Scene};
use gltf_validation::location::Location;
use std::alloc::{AllocError, Global};

/// Reports what is found in the graph of nodes, in order: nodes of scenes that are children, empty
/// nodes, lists that name a node twice, and channels whose target an earlier channel has. Takes 13
/// bytes a node, and memory for a finding; fails where there is none.
pub fn inspect_graph(
    alloc: Global,
    root: &Root,
    location: &Location<'_>,
    findings: &mut Findings,
) -> Result<(), AllocError>
    ensures { OnOk result (findings.new ≡ told_after findings.old (places_of location.now)
        (graph_checks root.now)) }
{
    let hierarchy = Hierarchy::of(alloc, root.nodes.as_slice())?;
    inspect_graph_in(alloc, root, &hierarchy, location, findings)
}

/// The same by the hierarchy of the document's nodes, which may have been made before. Takes four
/// bytes a node beside it.
pub fn inspect_graph_in(
    alloc: Global,
    root: &Root,
    hierarchy: &Hierarchy,
    location: &Location<'_>,
    findings: &mut Findings,
) -> Result<(), AllocError>
    requires { IsHierarchyOf root.now.nodes.items hierarchy.now }
    ensures { OnOk result (findings.new ≡ told_after findings.old (places_of location.now)
        (graph_checks root.now)) }
{
    let scenes = Location::Member(location, "scenes");
    tell_non_roots(root, hierarchy, &scenes, findings)?;
    tell_all_empty(alloc, root, &Location::Member(location, "nodes"), findings)?;
    tell_all_repeats(alloc, root, hierarchy, location, findings)?;
    let animations = Location::Member(location, "animations");
    tell_all_targets(alloc, root, &animations, findings)
}

fn tell_all_repeats(
    alloc: Global,
    root: &Root,
    hierarchy: &Hierarchy,
    location: &Location<'_>,
    findings: &mut Findings,
) -> Result<(), AllocError>
    requires { IsHierarchyOf root.now.nodes.items hierarchy.now }
    ensures { OnOk result (findings.new ≡ told_after findings.old (places_of location.now)
        (repeats_checks root.now)) }
{
    let mut marks = no_marks(alloc, root.nodes.len())?;
    tell_lists(&mut marks, root, hierarchy, location, findings)
}

fn tell_all_targets(
    alloc: Global,
    root: &Root,
    location: &Location<'_>,
    findings: &mut Findings,
) -> Result<(), AllocError>
    ensures { OnOk result (findings.new ≡ told_after findings.old (places_of location.now)
        (list_checks (animation_checks (4 * node_count root.now)) root.now.animations.items)) }
{
    let Some(count) = root.nodes.len().checked_mul(4) else {
        return Err(AllocError);
    };
    let mut marks = no_marks(alloc, count)?;
    tell_targets(&mut marks, root.animations.as_slice(), location, findings)
}

fn tell_non_roots(
    root: &Root,
    hierarchy: &Hierarchy,
    location: &Location<'_>,
    findings: &mut Findings,
) -> Result<(), AllocError>
    requires { IsHierarchyOf root.now.nodes.items hierarchy.now }
    ensures { OnOk result (findings.new ≡ told_after findings.old (places_of location.now)
        (list_checks (scene_checks (is_child_in root.now)) root.now.scenes.items)) }
{
    tell_scenes(
        &hierarchy.are_children,
        root.scenes.as_slice(),
        location,
        findings,
    )
}

fn tell_all_empty(
    alloc: Global,
    root: &Root,
    location: &Location<'_>,
    findings: &mut Findings,
) -> Result<(), AllocError>
    ensures { OnOk result (findings.new ≡ told_after findings.old (places_of location.now)
        (empty_checks (is_joint_in root.now) 0 root.now.nodes.items)) }
{
    let nodes = root.nodes.as_slice();
    let joints = marks_of(alloc, nodes.len(), root.skins.as_slice())?;
    tell_empty(&joints, nodes, location, findings)
}

fn tell_scenes(
    children: &[bool],
    scenes: &[Scene],
    location: &Location<'_>,
    findings: &mut Findings,
) -> Result<(), AllocError>
    ensures { OnOk result (findings.new ≡ told_after findings.old (places_of location.now)
        (list_checks (scene_checks (is_marked children.now)) scenes.now)) }
{
    for (i, scene) in scenes.iter().enumerate() {
        let at = Location::Item(&*location, i);
        let nodes = Location::Member(&at, "nodes");
        tell_roots(children, scene.nodes.as_slice(), &nodes, findings)?;
    }
    Ok(())
}

fn tell_roots(
    children: &[bool],
    nodes: &[Index<kinds::Node>],
    location: &Location<'_>,
    findings: &mut Findings,
) -> Result<(), AllocError>
    ensures { OnOk result (findings.new ≡ told_after findings.old (places_of location.now)
        (list_checks (root_checks (is_marked children.now)) nodes.now)) }
{
    for (k, node) in nodes.iter().enumerate() {
        let is_root = !is_marked(children, node.value());
        let at = Location::Item(&*location, k);
        findings.tell(is_root, Code::SceneNonRootNode, &at)?;
    }
    Ok(())
}

fn tell_empty(
    joints: &[bool],
    nodes: &[Node],
    location: &Location<'_>,
    findings: &mut Findings,
) -> Result<(), AllocError>
    ensures { OnOk result (findings.new ≡ told_after findings.old (places_of location.now)
        (empty_checks (is_marked joints.now) 0 nodes.now)) }
{
    for (i, node) in nodes.iter().enumerate() {
        let is_used = is_marked(joints, i) || !is_empty(node);
        let at = Location::Item(&*location, i);
        findings.tell(is_used, Code::NodeEmpty, &at)?;
    }
    Ok(())
}

fn is_empty(node: &Node) -> bool
    ensures { result ≡ is_empty node.now }
{
    node.children.is_empty()
        && node.mesh.is_none()
        && node.camera.is_none()
        && node.skin.is_none()
        && node.extensions.is_none()
        && node.extras.is_none()
}

fn tell_lists(
    marks: &mut Vec<bool>,
    root: &Root,
    hierarchy: &Hierarchy,
    location: &Location<'_>,
    findings: &mut Findings,
) -> Result<(), AllocError>
    requires marks { AreMarks (length root.now.nodes.items) [] marks.old.items }
    requires hierarchy { IsHierarchyOf root.now.nodes.items hierarchy.now }
    ensures { OnOk result (findings.new ≡ told_after findings.old (places_of location.now)
        (repeats_checks root.now)) }
{
    let nodes = Location::Member(location, "nodes");
    tell_children(marks, root.nodes.as_slice(), hierarchy, &nodes, findings)?;
    let scenes = Location::Member(location, "scenes");
    tell_each(marks, root.scenes.as_slice(), "nodes", &scenes, findings)?;
    let skins = Location::Member(location, "skins");
    tell_each(marks, root.skins.as_slice(), "joints", &skins, findings)
}

/// Reports each child that a node names twice. Where it was found that no node is a child twice,
/// there is none, and the lists are left out.
fn tell_children(
    marks: &mut Vec<bool>,
    nodes: &[Node],
    hierarchy: &Hierarchy,
    location: &Location<'_>,
    findings: &mut Findings,
) -> Result<(), AllocError>
    requires marks { AreMarks (length nodes.now) [] marks.old.items }
    requires hierarchy { IsHierarchyOf nodes.now hierarchy.now }
    ensures told { OnOk result (findings.new ≡ told_after findings.old (places_of location.now)
        (uniques_checks children_of (codes "children") (length nodes.now) nodes.now)) }
    ensures marks { OnOk result (AreMarks (length nodes.now) [] marks.new.items) }
{
    if hierarchy.are_named_once {
        return Ok(());
    }
    tell_each(marks, nodes, "children", location, findings)
}
