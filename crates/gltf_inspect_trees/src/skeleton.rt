//! The skeletons of skins (glTF 2.0, section 3.7.3.2).
ghost use Rattle.std.specs.Prelude.{◌≡◌, OnOk};
ghost use Rattle.gltf_validation.specs.Locations.{places_of};
ghost use Rattle.gltf_findings.specs.Checks.{told_after, list_checks};
ghost use Rattle.gltf_inspect_nodes.specs.Hierarchies.{IsHierarchyOf};
ghost use Rattle.gltf_inspect_nodes.specs.Roots.{parents_of};
ghost use Rattle.gltf_inspect_trees.specs.Skeletons.{skeletons_checks, skeleton_checks, all_below};
ghost use Rattle.gltf_inspect_trees.specs.Skeletons.{fits_at, node_checks, have_skeleton};
ghost use Rattle.gltf_inspect_trees.specs.Trees.{is_below_in};

use crate::trees::Trees;
use gltf_findings::code::Code;
use gltf_findings::findings::Findings;
use gltf_inspect_nodes::hierarchy::Hierarchy;
use gltf_inspect_nodes::roots::parents_of;
use gltf_json::root::Root;
use gltf_json_record::index::Index;
use gltf_json_record::kinds;
use gltf_json_scene::scene::Node;
use gltf_json_scene::skin::Skin;
use gltf_validation::location::Location;
use std::alloc::{AllocError, Global};

/// Reports each skin with a joint that is neither its skeleton nor below it, where no node is on a
/// loop. Takes time n log d for n nodes and joints at a depth up to d, and memory for as many
/// numbers where a skin has a skeleton (for three numbers a node where each parent stands before
/// its children, or each behind them; for two, and time n, where a node is on a loop); and memory
/// for a finding. Fails where there is none.
pub fn inspect_skeletons(
    alloc: Global,
    root: &Root,
    location: &Location<'_>,
    findings: &mut Findings,
) -> Result<(), AllocError>
    ensures { OnOk result (findings.new ≡ told_after findings.old (places_of location.now)
        (skeletons_checks root.now)) }
{
    let skins = root.skins.as_slice();
    if have_skeleton(skins) {
        let nodes = root.nodes.as_slice();
        let parents = parents_of(alloc, nodes)?;
        let at = Location::Member(location, "skins");
        tell_skeletons(alloc, nodes, parents, skins, &at, findings)
    } else {
        Ok(())
    }
}

/// The same by the hierarchy of the document's nodes, which may have been made before. Takes as
/// much beside it: its table of parents is copied where a skin has a skeleton.
pub fn inspect_skeletons_in(
    alloc: Global,
    root: &Root,
    hierarchy: &Hierarchy,
    location: &Location<'_>,
    findings: &mut Findings,
) -> Result<(), AllocError>
    requires { IsHierarchyOf root.now.nodes.items hierarchy.now }
    ensures { OnOk result (findings.new ≡ told_after findings.old (places_of location.now)
        (skeletons_checks root.now)) }
{
    let skins = root.skins.as_slice();
    if have_skeleton(skins) {
        let parents = Vec::from_slice(alloc, &hierarchy.parents)?;
        let at = Location::Member(location, "skins");
        tell_skeletons(alloc, root.nodes.as_slice(), parents, skins, &at, findings)
    } else {
        Ok(())
    }
}

/// Whether a skin names its skeleton.
fn have_skeleton(skins: &[Skin]) -> bool
    ensures { result ≡ have_skeleton skins.now }
{
    for skin in skins {
        if skin.skeleton.is_some() {
            return true;
        }
    }
    false
}

fn tell_skeletons(
    alloc: Global,
    nodes: &[Node],
    parents: Vec<usize>,
    skins: &[Skin],
    location: &Location<'_>,
    findings: &mut Findings,
) -> Result<(), AllocError>
    requires { parents.items ≡ parents_of nodes.now }
    ensures { OnOk result (findings.new ≡ told_after findings.old (places_of location.now)
        (node_checks nodes.now skins.now)) }
{
    let trees = Trees::new(alloc, parents)?;
    tell_each(&trees, nodes.len(), skins, location, findings)
}

fn tell_each(
    trees: &Trees,
    count: usize,
    skins: &[Skin],
    location: &Location<'_>,
    findings: &mut Findings,
) -> Result<(), AllocError>
    ensures { OnOk result (findings.new ≡ told_after findings.old (places_of location.now)
        (list_checks (skeleton_checks (is_below_in trees.now) count) skins.now)) }
{
    for (i, skin) in skins.iter().enumerate() {
        let at = Location::Item(&*location, i);
        let is_fit = fits(trees, count, skin);
        findings.tell_member(is_fit, Code::SkinSkeletonInvalid, "skeleton", &at)?;
    }
    Ok(())
}

fn fits(trees: &Trees, count: usize, skin: &Skin) -> bool
    ensures { result ≡ fits_at (is_below_in trees.now) count skin.now.joints.items
        skin.now.skeleton }
{
    match skin.skeleton {
        Some(skeleton) => {
            let joints = skin.joints.as_slice();
            skeleton.value() >= count || all_below(trees, count, skeleton.value(), joints)
        }
        None => true,
    }
}

fn all_below(trees: &Trees, count: usize, above: usize, joints: &[Index<kinds::Node>]) -> bool
    ensures { result ≡ all_below (is_below_in trees.now above) count joints.now }
{
    for joint in joints {
        let joint = joint.value();
        if joint < count && !trees.is_below(above, joint) {
            return false;
        }
    }
    true
}
