//! Where nodes lead to by steps to their parents: loops among nodes, and the common roots of joints
//! (glTF 2.0, sections 3.5.2 and 3.7.3.2).
ghost use Rattle.std.specs.Prelude.{◌≡◌, OnOk, IfOk, map};
ghost use Rattle.gltf_validation.specs.Locations.{places_of};
ghost use Rattle.gltf_findings.specs.Checks.{told_after};
ghost use Rattle.gltf_inspect_nodes.specs.Marks.{is_marked, marked, AreMarks};
ghost use Rattle.gltf_inspect_nodes.specs.Roots.{parents_of};
ghost use Rattle.gltf_inspect_nodes.specs.Roots.{led, are_fixed, twice, times_16, times_65536};
ghost use Rattle.gltf_inspect_nodes.specs.Roots.{ends_of, loop_checks, lead_to, first_end};
ghost use Rattle.gltf_inspect_nodes.specs.Roots.{lead_together, skins_checks, roots_checks};
ghost use Rattle.gltf_inspect_nodes.specs.Roots.{have_root, leads_to_loop};
ghost use Rattle.gltf_inspect_nodes.specs.Roots.{is_end_in, is_child_of};
ghost use Rattle.gltf_inspect_nodes.specs.Orders.{ends_by};
ghost use Rattle.gltf_inspect_nodes.specs.Hierarchies.{IsHierarchyOf};

use crate::hierarchy::Hierarchy;
use crate::marks::{is_marked, mark, no_marks};
use crate::order::{end_backwards, end_forwards, parents_come_first, parents_come_last};
use gltf_findings::code::Code;
use gltf_findings::findings::Findings;
use gltf_json::root::Root;
use gltf_json_record::index::Index;
use gltf_json_record::kinds;
use gltf_json_scene::scene::Node;
use gltf_json_scene::skin::Skin;
use gltf_validation::location::Location;
use std::alloc::{AllocError, Global};

/// Reports each node that stands on a loop, and each skin whose joints have no common root, but for
/// those with joints that lead to a loop, of which nothing is said. Takes time n for so many nodes
/// where each parent stands before its children, or each behind them, and n log n elsewhere; 25
/// bytes a node, and memory for a finding; fails where there is none.
pub fn inspect_roots(
    alloc: Global,
    root: &Root,
    location: &Location<'_>,
    findings: &mut Findings,
) -> Result<(), AllocError>
    ensures { OnOk result (findings.new ≡ told_after findings.old (places_of location.now)
        (roots_checks root.now)) }
{
    let hierarchy = Hierarchy::of(alloc, root.nodes.as_slice())?;
    inspect_roots_in(alloc, root, &hierarchy, location, findings)
}

/// The same by the hierarchy of the document's nodes, which may have been made before. Takes 16
/// bytes a node beside it.
pub fn inspect_roots_in(
    alloc: Global,
    root: &Root,
    hierarchy: &Hierarchy,
    location: &Location<'_>,
    findings: &mut Findings,
) -> Result<(), AllocError>
    requires { IsHierarchyOf root.now.nodes.items hierarchy.now }
    ensures { OnOk result (findings.new ≡ told_after findings.old (places_of location.now)
        (roots_checks root.now)) }
{
    let nodes = root.nodes.as_slice();
    let ends = ends_in(alloc, nodes, hierarchy)?;
    let at = Location::Member(location, "nodes");
    tell_loops(alloc, &ends, hierarchy, nodes, &at, findings)?;
    let at = Location::Member(location, "skins");
    tell_joints(
        &ends,
        hierarchy,
        nodes,
        root.skins.as_slice(),
        &at,
        findings,
    )
}

/// Reports each skin whose joints lead to several roots.
fn tell_joints(
    ends: &[usize],
    hierarchy: &Hierarchy,
    nodes: &[Node],
    skins: &[Skin],
    location: &Location<'_>,
    findings: &mut Findings,
) -> Result<(), AllocError>
    requires { IsHierarchyOf nodes.now hierarchy.now }
    ensures { OnOk result (findings.new ≡ told_after findings.old (places_of location.now)
        (skins_checks (is_child_of nodes.now) ends.now skins.now)) }
{
    tell_skins(ends, &hierarchy.are_children, skins, location, findings)
}

fn tell_loops(
    alloc: Global,
    ends: &[usize],
    hierarchy: &Hierarchy,
    nodes: &[Node],
    location: &Location<'_>,
    findings: &mut Findings,
) -> Result<(), AllocError>
    requires { IsHierarchyOf nodes.now hierarchy.now }
    ensures { OnOk result (findings.new ≡ told_after findings.old (places_of location.now)
        (loop_checks (is_end_in nodes.now ends.now) (is_child_of nodes.now) 0 nodes.now)) }
{
    let are_ends = marks_at(alloc, nodes.len(), ends)?;
    tell_marked(
        &are_ends,
        &hierarchy.are_children,
        nodes,
        location,
        findings,
    )
}

/// The marks of these numbers, of so many.
fn marks_at(alloc: Global, count: usize, numbers: &[usize]) -> Result<Vec<bool>, AllocError>
    ensures { IfOk result (λ marks. AreMarks count numbers.now marks.items) }
{
    let mut marks = no_marks(alloc, count)?;
    mark_numbers(&mut marks, numbers);
    Ok(marks)
}

fn mark_numbers(marks: &mut Vec<bool>, numbers: &[usize])
    ensures { marks.new.items ≡ marked marks.old.items numbers.now }
{
    for number in numbers {
        let _was = mark(marks, *number);
    }
}

fn tell_marked(
    are_ends: &[bool],
    are_children: &[bool],
    nodes: &[Node],
    location: &Location<'_>,
    findings: &mut Findings,
) -> Result<(), AllocError>
    ensures { OnOk result (findings.new ≡ told_after findings.old (places_of location.now)
        (loop_checks (is_marked are_ends.now) (is_marked are_children.now) 0 nodes.now)) }
{
    for (i, _node) in nodes.iter().enumerate() {
        let is_on_loop = is_marked(are_ends, i) && is_marked(are_children, i);
        let at = Location::Item(&*location, i);
        findings.tell(!is_on_loop, Code::NodeLoop, &at)?;
    }
    Ok(())
}

/// The same by the marks of the nodes that are children.
fn tell_skins(
    ends: &[usize],
    are_children: &[bool],
    skins: &[Skin],
    location: &Location<'_>,
    findings: &mut Findings,
) -> Result<(), AllocError>
    ensures { OnOk result (findings.new ≡ told_after findings.old (places_of location.now)
        (skins_checks (is_marked are_children.now) ends.now skins.now)) }
{
    for (i, skin) in skins.iter().enumerate() {
        let at = Location::Item(&*location, i);
        let have_root = have_root(are_children, ends, skin.joints.as_slice());
        findings.tell_member(have_root, Code::SkinNoCommonRoot, "joints", &at)?;
    }
    Ok(())
}

/// Whether joints lead to one end, or one of them to a loop, which has no root.
fn have_root(are_children: &[bool], ends: &[usize], joints: &[Index<kinds::Node>]) -> bool
    ensures { result ≡ have_root (is_marked are_children.now) ends.now joints.now }
{
    lead_together(ends, joints) || leads_to_loop(are_children, ends, joints)
}

fn leads_to_loop(are_children: &[bool], ends: &[usize], joints: &[Index<kinds::Node>]) -> bool
    ensures { result ≡ leads_to_loop (is_marked are_children.now) ends.now joints.now }
{
    for joint in joints {
        if joint.value() < ends.len() && is_marked(are_children, led(ends, joint.value())) {
            return true;
        }
    }
    false
}

fn lead_together(ends: &[usize], joints: &[Index<kinds::Node>]) -> bool
    ensures { result ≡ lead_together ends.now joints.now }
{
    match first_end(ends, joints) {
        Some(end) => lead_to(ends, end, joints),
        None => true,
    }
}

fn first_end(ends: &[usize], joints: &[Index<kinds::Node>]) -> Option<usize>
    ensures { result ≡ first_end ends.now joints.now }
{
    for joint in joints {
        if joint.value() < ends.len() {
            return Some(led(ends, joint.value()));
        }
    }
    None
}

fn lead_to(ends: &[usize], end: usize, joints: &[Index<kinds::Node>]) -> bool
    ensures { result ≡ lead_to ends.now end joints.now }
{
    for joint in joints {
        if joint.value() < ends.len() && led(ends, joint.value()) != end {
            return false;
        }
    }
    true
}

/// Where a node leads to by a table of all nodes; a number that is no node leads to itself.
pub fn led(table: &[usize], node: usize) -> usize
    ensures { result ≡ led table.now node }
{
    if node < table.len() {
        table[node]
    } else {
        node
    }
}

/// Where each of these nodes leads to, by their hierarchy.
fn ends_in(alloc: Global, nodes: &[Node], hierarchy: &Hierarchy) -> Result<Vec<usize>, AllocError>
    requires { IsHierarchyOf nodes.now hierarchy.now }
    ensures { IfOk result (λ ends. ends.items ≡ ends_of nodes.now) }
{
    let parents = Vec::from_slice(alloc, &hierarchy.parents)?;
    ends_by(alloc, parents)
}

/// Where each leads to by 2^64 steps, by a table of one step: in one pass where parents are in
/// order, since each leads to its end in fewer steps there; by doublings elsewhere.
fn ends_by(alloc: Global, table: Vec<usize>) -> Result<Vec<usize>, AllocError>
    ensures { IfOk result (λ ends. ends.items ≡ ends_by table.items) }
{
    let mut table = table;
    if parents_come_first(&table) {
        end_forwards(&mut table);
    } else if parents_come_last(&table) {
        end_backwards(&mut table);
    } else {
        times_2_64(alloc, &mut table)?;
    }
    Ok(table)
}

fn times_2_64(alloc: Global, table: &mut Vec<usize>) -> Result<(), AllocError>
    ensures { OnOk result (table.new.items ≡ ends_by table.old.items) }
{
    times_65536(alloc, table)?;
    times_65536(alloc, table)?;
    times_65536(alloc, table)?;
    times_65536(alloc, table)
}

/// Takes no time for steps that lead nowhere else: most tables are done after few doublings.
#[tactic(auto, using(crate::proofs::Fixed::times_65536_fixed))]
fn times_65536(alloc: Global, table: &mut Vec<usize>) -> Result<(), AllocError>
    ensures { OnOk result (table.new.items ≡ times_65536 table.old.items) }
{
    if are_fixed(table, table) {
        return Ok(());
    }
    times_16(alloc, table)?;
    times_16(alloc, table)?;
    times_16(alloc, table)?;
    times_16(alloc, table)
}

#[tactic(auto, using(crate::proofs::Fixed::times_16_fixed))]
fn times_16(alloc: Global, table: &mut Vec<usize>) -> Result<(), AllocError>
    ensures { OnOk result (table.new.items ≡ times_16 table.old.items) }
{
    if are_fixed(table, table) {
        return Ok(());
    }
    twice(alloc, table)?;
    twice(alloc, table)?;
    twice(alloc, table)?;
    twice(alloc, table)
}

/// Twice as many steps. Takes no memory where that changes nothing.
fn twice(alloc: Global, table: &mut Vec<usize>) -> Result<(), AllocError>
    ensures { OnOk result (table.new.items ≡ twice table.old.items) }
{
    if are_fixed(table, table) {
        return Ok(());
    }
    let next = mapped(alloc, table)?;
    *table = next;
    Ok(())
}

/// Whether each of these leads to itself by a table of all nodes.
pub fn are_fixed(table: &[usize], nodes: &[usize]) -> bool
    ensures { result ≡ are_fixed table.now nodes.now }
{
    for node in nodes {
        if led(table, *node) != *node {
            return false;
        }
    }
    true
}

/// Where a table leads to, taken twice.
pub fn mapped(alloc: Global, table: &[usize]) -> Result<Vec<usize>, AllocError>
    ensures { IfOk result (λ next. next.items ≡ map (led table.now) table.now) }
{
    let mut next = Vec::with_capacity(alloc, table.len())?;
    for node in table {
        next.push(led(table, *node))?;
    }
    Ok(next)
}

/// Of each node its parent: the last one that has it as a child, and itself where there is none.
pub fn parents_of(alloc: Global, nodes: &[Node]) -> Result<Vec<usize>, AllocError>
    ensures { IfOk result (λ parents. parents.items ≡ parents_of nodes.now) }
{
    let hierarchy = Hierarchy::of(alloc, nodes)?;
    Ok(hierarchy.parents)
}
