//! All that is found in a document.
ghost use Rattle.std.specs.Prelude.{◌≡◌, [], IfOk, OnOk};
ghost use Rattle.gltf_validation.specs.Locations.{places_of};
ghost use Rattle.gltf_validation.specs.Documents.{counts_of, root_rules};
ghost use Rattle.gltf_validation.specs.Rules.{broken, checks_at};
ghost use Rattle.gltf_findings.specs.Checks.{told_after, findings_of};
ghost use Rattle.gltf_inspect_nodes.specs.Hierarchies.{IsHierarchyOf};
ghost use Rattle.gltf_inspect.specs.Documents.{document_checks, root_checks};
ghost use Rattle.gltf_inspect.specs.Refusals.{root_refusals};

use crate::asset::tell_asset;
use crate::extensions::{tell_repeated, tell_required, tell_used};
use crate::parents::tell_parents;
use crate::refusal::tell_refusals;
use crate::unused::tell_unused;
use gltf_findings::findings::Findings;
use gltf_findings::laws::a_walk_adds_what_is_found;
use gltf_findings::report::Report;
use gltf_inspect_extensions::root::inspect_extensions;
use gltf_inspect_meshes::meshes::inspect_meshes;
use gltf_inspect_nodes::graph::inspect_graph_in;
use gltf_inspect_nodes::hierarchy::Hierarchy;
use gltf_inspect_nodes::roots::inspect_roots_in;
use gltf_inspect_nodes::view::inspect_views;
use gltf_inspect_records::records::inspect_records;
use gltf_inspect_scenes::scenes::inspect_scenes;
use gltf_inspect_trees::skeleton::inspect_skeletons_in;
use gltf_json::root::Root;
use gltf_json_record::path::Path;
use gltf_validation::counts::Counts;
use gltf_validation::error::Error;
use gltf_validation::location::Location;
use gltf_validation::validate::faults_of;
use std::alloc::{AllocError, Global};

/// All that is found in a document, whether the rules of loading hold or not: first the broken
/// rules, then what is found in each record, then in several at once, the objects that nothing
/// names, what is found in meshes, nodes and animations by what they name, in the graph of nodes,
/// in views of vertices, in names of extensions, and last in the versions. The report has a code at
/// a path exactly where the condition of that code stands at that path and is false.
///
/// It takes time in proportion to the document, but n log n for its nodes and for the names of its
/// extensions; and memory for the findings, for these names, a byte for each object, and 25 bytes
/// for each node: nine for the hierarchy, which is made once and lent to all that asks for it, and
/// 16 beside it. Skins that name their skeleton take more (see `inspect_skeletons_in`). Fails where
/// there is no memory.
pub fn inspect(alloc: Global, root: &Root) -> Result<Report, AllocError>
    ensures { IfOk result (λ report. report ≡ findings_of [] (root_checks root.now)) }
{
    // A law that the proof stands on; the call does nothing.
    a_walk_adds_what_is_found();
    let mut findings = Findings::new(alloc);
    inspect_rules(alloc, root, &mut findings)?;
    inspect_records(root, &Location::Whole, &mut findings)?;
    let hierarchy = Hierarchy::of(alloc, root.nodes.as_slice())?;
    inspect_document(alloc, root, &hierarchy, &Location::Whole, &mut findings)?;
    tell_unused(alloc, root, &Location::Whole, &mut findings)?;
    inspect_meshes(root, &Location::Whole, &mut findings)?;
    inspect_scenes(alloc, root, &Location::Whole, &mut findings)?;
    inspect_graph_in(alloc, root, &hierarchy, &Location::Whole, &mut findings)?;
    inspect_roots_in(alloc, root, &hierarchy, &Location::Whole, &mut findings)?;
    inspect_skeletons_in(alloc, root, &hierarchy, &Location::Whole, &mut findings)?;
    inspect_views(alloc, root, &Location::Whole, &mut findings)?;
    inspect_extensions(alloc, root, &Location::Whole, &mut findings)?;
    let asset = Location::Member(&Location::Whole, "asset");
    tell_asset(&root.asset, &asset, &mut findings)?;
    Ok(Report::new(findings))
}

fn inspect_rules(alloc: Global, root: &Root, findings: &mut Findings) -> Result<(), AllocError>
    ensures { OnOk result (findings.new ≡ told_after findings.old [] (root_refusals root.now)) }
{
    // The same law.
    a_walk_adds_what_is_found();
    let faults = broken_rules(alloc, root)?;
    tell_refusals(alloc, faults.as_slice(), findings)
}

fn broken_rules(alloc: Global, root: &Root) -> Result<Vec<(Path, Error)>, AllocError>
    ensures { IfOk result (λ faults. faults.items
        ≡ broken (checks_at [] (root_rules (counts_of root.now) root.now))) }
{
    faults_of(alloc, root, &Counts::of(root))
}

fn inspect_document(
    alloc: Global,
    root: &Root,
    hierarchy: &Hierarchy,
    location: &Location<'_>,
    findings: &mut Findings,
) -> Result<(), AllocError>
    requires { IsHierarchyOf root.now.nodes.items hierarchy.now }
    ensures { OnOk result (findings.new ≡ told_after findings.old (places_of location.now)
        (document_checks root.now)) }
{
    let used = root.extensions_used.as_slice();
    let names = Location::Member(location, "extensionsRequired");
    let required = root.extensions_required.as_slice();
    tell_required(alloc, used, required, &names, findings)?;
    tell_repeated(alloc, required, &names, findings)?;
    let names = Location::Member(location, "extensionsUsed");
    tell_used(used, &names, findings)?;
    tell_repeated(alloc, used, &names, findings)?;
    let nodes = Location::Member(location, "nodes");
    tell_parents(alloc, root.nodes.as_slice(), hierarchy, &nodes, findings)
}
