//! The targets of views (glTF 2.0, section 3.6.1).
ghost use Rattle.std.specs.Prelude.{◌≡◌, OnOk, IfOk};
ghost use Rattle.gltf_validation.specs.Locations.{places_of};
ghost use Rattle.gltf_findings.specs.Checks.{told_after};
ghost use Rattle.gltf_inspect_nodes.specs.Marks.{is_marked, marked, AreMarks};
ghost use Rattle.gltf_inspect_nodes.specs.ViewMarks.{optional_marked, entries_marked};
ghost use Rattle.gltf_inspect_nodes.specs.ViewMarks.{target_marked, targets_marked};
ghost use Rattle.gltf_inspect_nodes.specs.ViewMarks.{primitive_marked, primitives_marked};
ghost use Rattle.gltf_inspect_nodes.specs.ViewMarks.{meshes_marked};
ghost use Rattle.gltf_inspect_nodes.specs.ViewTargets.{view_at, vertex_views, view_count};
ghost use Rattle.gltf_inspect_nodes.specs.ViewTargets.{views_checks, is_vertex_view};
ghost use Rattle.gltf_inspect_nodes.specs.ViewTargets.{view_targets_checks};

use crate::marks::{is_marked, mark, no_marks};
use gltf_findings::code::Code;
use gltf_findings::findings::Findings;
use gltf_json::root::Root;
use gltf_json_geometry::accessor::Accessor;
use gltf_json_geometry::buffer::View;
use gltf_json_geometry::mesh::{Mesh, MorphTarget, Primitive};
use gltf_json_geometry::semantic::Semantic;
use gltf_json_record::index::Index;
use gltf_json_record::kinds;
use gltf_validation::location::Location;
use std::alloc::{AllocError, Global};
use std::collections::BTreeMap;

/// Reports each view of vertices or of their indices that has no target. Takes a byte a view, and
/// memory for a finding; fails where there is none.
pub fn inspect_views(
    alloc: Global,
    root: &Root,
    location: &Location<'_>,
    findings: &mut Findings,
) -> Result<(), AllocError>
    ensures { OnOk result (findings.new ≡ told_after findings.old (places_of location.now)
        (view_targets_checks root.now)) }
{
    let views = Location::Member(location, "bufferViews");
    tell_targets(alloc, root, &views, findings)
}

fn tell_targets(
    alloc: Global,
    root: &Root,
    location: &Location<'_>,
    findings: &mut Findings,
) -> Result<(), AllocError>
    ensures { OnOk result (findings.new ≡ told_after findings.old (places_of location.now)
        (views_checks (is_vertex_view root.now) 0 root.now.buffer_views.items)) }
{
    let marks = vertex_views(alloc, root)?;
    tell_views(&marks, root.buffer_views.as_slice(), location, findings)
}

fn vertex_views(alloc: Global, root: &Root) -> Result<Vec<bool>, AllocError>
    ensures { IfOk result (λ marks.
        AreMarks (view_count root.now) (vertex_views root.now) marks.items) }
{
    let accessors = root.accessors.as_slice();
    let meshes = root.meshes.as_slice();
    let views = root.buffer_views.as_slice();
    let mut marks = no_marks(alloc, views.len())?;
    mark_meshes(&mut marks, accessors, meshes);
    Ok(marks)
}

fn mark_meshes(marks: &mut Vec<bool>, accessors: &[Accessor], meshes: &[Mesh])
    ensures { marks.new.items ≡ meshes_marked accessors.now marks.old.items meshes.now }
{
    for mesh in meshes {
        mark_primitives(marks, accessors, mesh.primitives.as_slice());
    }
}

fn mark_primitives(marks: &mut Vec<bool>, accessors: &[Accessor], primitives: &[Primitive])
    ensures { marks.new.items ≡ primitives_marked accessors.now marks.old.items primitives.now }
{
    for primitive in primitives {
        mark_primitive(marks, accessors, primitive);
    }
}

fn mark_primitive(marks: &mut Vec<bool>, accessors: &[Accessor], primitive: &Primitive)
    ensures { marks.new.items ≡ primitive_marked accessors.now marks.old.items primitive.now }
{
    mark_optional(marks, accessors, primitive.indices);
    mark_attributes(marks, accessors, &primitive.attributes);
    mark_targets(marks, accessors, primitive.targets.as_slice());
}

fn mark_attributes(
    marks: &mut Vec<bool>,
    accessors: &[Accessor],
    attributes: &BTreeMap<Semantic, Index<kinds::Accessor>>,
)
    ensures { marks.new.items
        ≡ entries_marked accessors.now marks.old.items attributes.now.entries }
{
    for (semantic, index) in attributes {
        let _meaning = semantic;
        mark_view(marks, accessors, index.value());
    }
}

fn mark_targets(marks: &mut Vec<bool>, accessors: &[Accessor], targets: &[MorphTarget])
    ensures { marks.new.items ≡ targets_marked accessors.now marks.old.items targets.now }
{
    for target in targets {
        mark_target(marks, accessors, target);
    }
}

fn mark_target(marks: &mut Vec<bool>, accessors: &[Accessor], target: &MorphTarget)
    ensures { marks.new.items ≡ target_marked accessors.now marks.old.items target.now }
{
    mark_optional(marks, accessors, target.positions);
    mark_optional(marks, accessors, target.normals);
    mark_optional(marks, accessors, target.tangents);
}

fn mark_optional(
    marks: &mut Vec<bool>,
    accessors: &[Accessor],
    index: Option<Index<kinds::Accessor>>,
)
    ensures { marks.new.items ≡ optional_marked accessors.now marks.old.items index }
{
    if let Some(index) = index {
        mark_view(marks, accessors, index.value());
    }
}

fn mark_view(marks: &mut Vec<bool>, accessors: &[Accessor], index: usize)
    ensures { marks.new.items ≡ marked marks.old.items (view_at accessors.now index) }
{
    if let Some(accessor) = accessors.get(index) {
        if let Some(view) = accessor.buffer_view {
            let _was = mark(marks, view.value());
        }
    }
}

fn tell_views(
    marks: &[bool],
    views: &[View],
    location: &Location<'_>,
    findings: &mut Findings,
) -> Result<(), AllocError>
    ensures { OnOk result (findings.new ≡ told_after findings.old (places_of location.now)
        (views_checks (is_marked marks.now) 0 views.now)) }
{
    for (i, view) in views.iter().enumerate() {
        let is_told = view.target.is_some() || !is_marked(marks, i);
        let at = Location::Item(&*location, i);
        findings.tell(is_told, Code::ViewTargetMissing, &at)?;
    }
    Ok(())
}
