//! What is found in the node hierarchy (glTF 2.0, section 3.5).
ghost use Rattle.std.specs.Prelude.{◌≡◌, OnOk, length, set, true, []};
ghost use Rattle.gltf_validation.specs.Locations.{places_of};
ghost use Rattle.gltf_findings.specs.Checks.{told_after};
ghost use Rattle.gltf_inspect_nodes.specs.Hierarchies.{IsHierarchyOf};
ghost use Rattle.gltf_inspect.specs.Marks.{is_marked, marked, marked_children_checks};
ghost use Rattle.gltf_inspect.specs.Marks.{marked_parents_checks};
ghost use Rattle.gltf_inspect.specs.Parents.{parents_checks};

use gltf_findings::code::Code;
use gltf_findings::findings::Findings;
use gltf_inspect_nodes::hierarchy::Hierarchy;
use gltf_json_record::index::Index;
use gltf_json_record::kinds;
use gltf_json_scene::scene::Node;
use gltf_validation::location::Location;
use std::alloc::{AllocError, Global};

/// Reports each child that an earlier child is too. Where it was found that no node is a child
/// twice, there is none, and no list is gone over. Elsewhere it takes a byte a node.
pub(crate) fn tell_parents(
    alloc: Global,
    nodes: &[Node],
    hierarchy: &Hierarchy,
    location: &Location<'_>,
    findings: &mut Findings,
) -> Result<(), AllocError>
    requires { IsHierarchyOf nodes.now hierarchy.now }
    ensures { OnOk result (findings.new ≡ told_after findings.old (places_of location.now)
        (parents_checks (length nodes.now) [] 0 nodes.now)) }
{
    if hierarchy.are_named_once {
        return Ok(());
    }
    let mut marks = vec![in alloc; false; nodes.len()]?;
    tell_marked(&mut marks, nodes, location, findings)
}

fn tell_marked(
    marks: &mut Vec<bool>,
    nodes: &[Node],
    location: &Location<'_>,
    findings: &mut Findings,
) -> Result<(), AllocError>
    ensures { OnOk result (findings.new ≡ told_after findings.old (places_of location.now)
        (marked_parents_checks marks.old.items 0 nodes.now)) }
{
    for (i, node) in nodes.iter().enumerate() {
        let at = Location::Item(&*location, i);
        let children = Location::Member(&at, "children");
        tell_children(marks, node.children.as_slice(), &children, findings)?;
    }
    Ok(())
}

fn tell_children(
    marks: &mut Vec<bool>,
    children: &[Index<kinds::Node>],
    location: &Location<'_>,
    findings: &mut Findings,
) -> Result<(), AllocError>
    ensures told { OnOk result (findings.new ≡ told_after findings.old (places_of location.now)
        (marked_children_checks marks.old.items 0 children.now)) }
    ensures marks { OnOk result (marks.new.items ≡ marked marks.old.items children.now) }
{
    for (k, child) in children.iter().enumerate() {
        if mark(marks, child.value()) {
            let at = Location::Item(&*location, k);
            findings.tell(false, Code::NodeParentOverride, &at)?;
        }
    }
    Ok(())
}

/// Marks a node, and answers whether it was.
fn mark(marks: &mut Vec<bool>, child: usize) -> bool
    ensures was { result ≡ is_marked marks.old.items child }
    ensures now { marks.new.items ≡ set marks.old.items child true }
{
    if child < marks.len() {
        let was = marks[child];
        marks[child] = true;
        was
    } else {
        false
    }
}
