//! What is found in the indices of primitives (glTF 2.0, section 3.7.2.1).
ghost use Rattle.std.specs.Prelude.{◌≡◌, false, Some, OnOk, slice_get, unwrap_or};
ghost use Rattle.gltf_shared.specs.Shown.{lent_bytes};
ghost use Rattle.gltf_data.specs.Iter.{counted_items};
ghost use Rattle.gltf_validation.specs.Locations.{places_of};
ghost use Rattle.gltf_findings.specs.Checks.{told_after, list_checks};
ghost use Rattle.gltf_inspect_items.specs.Found.{past_by, found_checks, AreFound};
ghost use Rattle.gltf_inspect_items.specs.Indices.{has_equal, any_degenerate, are_triangles};
ghost use Rattle.gltf_inspect_items.specs.Indices.{typed_checks};
ghost use Rattle.gltf_inspect_items.specs.Plans.{is_out, index_checks_but, primitive_checks_but};
ghost use Rattle.gltf_inspect_items.specs.Plans.{mesh_checks_but};
ghost use Rattle.gltf_inspect_items.specs.Reading.{items_left};
ghost use Rattle.gltf_ranges.specs.Alike.{AreFirsts};

use crate::attribute::vertex_count;
use crate::found::{Found, are_indices, found_once};
use crate::number::Number;
use crate::plan::{Plan, first_of, is_out};
use crate::read::take;
use gltf::Document;
use gltf::accessor::Iter;
use gltf_findings::code::Code;
use gltf_findings::findings::Findings;
use gltf_json_geometry::accessor::Accessor;
use gltf_json_geometry::mesh::{Mesh, Mode, Primitive};
use gltf_json_record::validation::Checked;
use gltf_validation::location::Location;
use std::alloc::AllocError;

/// Whether an index names no vertex, where this is the greatest one.
fn past_by(vertices: Option<u64>, greatest: Option<u64>) -> bool
    ensures { result ≡ past_by vertices greatest }
{
    match vertices {
        None => false,
        Some(vertices) => match greatest {
            None => false,
            Some(greatest) => vertices <= greatest,
        },
    }
}

fn or_false(found: Option<bool>) -> bool
    ensures { result ≡ unwrap_or found false }
{
    match found {
        None => false,
        Some(found) => found,
    }
}

fn has_equal(i: u64, j: u64, k: u64) -> bool
    ensures { result ≡ has_equal i j k }
{
    i == j || j == k || i == k
}

fn are_triangles(mode: Checked<Mode>) -> bool
    ensures { result ≡ are_triangles mode }
{
    matches!(mode, Checked::Valid(Mode::Triangles))
}

/// Whether two of three items are the same number, three by three.
fn any_degenerate<T: Number>(items: &mut Iter<'_, T>) -> bool
    ensures { result ≡ any_degenerate T.number (counted_items items.old).items }
{
    while let Some(first) = take(items) {
        let Some(second) = take(items) else {
            return false;
        };
        let Some(third) = take(items) else {
            return false;
        };
        if has_equal(first.number(), second.number(), third.number()) {
            return true;
        }
    }
    false
}

/// Whether three of these indices, that are a triangle, name a vertex twice. Of a sparse accessor
/// without a view it takes no more triangles than there are values, and one, since a triangle with
/// two zeros is one.
pub(crate) fn are_degenerate<T: Number>(items: Option<Iter<'_, T>>) -> bool
    ensures { result ≡ any_degenerate T.number (items_left items.entry) }
{
    match items {
        Some(mut items) => any_degenerate(&mut items),
        None => false,
    }
}

/// What is drawn by indices.
#[derive(Clone, Copy)]
struct Drawn {
    /// How many vertices there are, where it is known.
    vertices: Option<u64>,
    /// Whether each three indices are a triangle of their own.
    triangles: bool,
}

/// Reports what is found in the indices at an accessor.
fn tell_found(
    found: Found,
    drawn: Drawn,
    location: &Location<'_>,
    findings: &mut Findings,
) -> Result<(), AllocError>
    ensures { OnOk result (findings.new ≡ told_after findings.old (places_of location.now)
        (found_checks drawn.vertices drawn.triangles found)) }
{
    let past = past_by(drawn.vertices, found.greatest);
    findings.tell(!past, Code::IndexOob, location)?;
    findings.tell(!found.restarts, Code::IndexPrimitiveRestart, location)?;
    let degenerate = drawn.triangles && or_false(found.degenerate);
    findings.tell(!degenerate, Code::IndexTriangleDegenerate, location)
}

/// The same, where the accessor is one of indices. They are gone over once, however many primitives
/// name the accessor.
fn tell_indices(
    document: &Document,
    buffers: &[&[u8]],
    index: usize,
    accessor: &Accessor,
    drawn: Drawn,
    table: &mut [Option<Found>],
    location: &Location<'_>,
    findings: &mut Findings,
) -> Result<(), AllocError>
    requires here { slice_get document.now.accessors.items index ≡ Some accessor.now }
    requires kept { AreFound document.now (slice_get (lent_bytes buffers.now)) table.old }
    ensures told { OnOk result (findings.new ≡ told_after findings.old (places_of location.now)
        (typed_checks document.now (slice_get (lent_bytes buffers.now)) drawn.vertices
        drawn.triangles index accessor.now.component_type)) }
    ensures kept { AreFound document.now (slice_get (lent_bytes buffers.now)) table.new }
{
    if !are_indices(accessor.component_type) {
        return Ok(());
    }
    let found = found_once(document, buffers, index, accessor, drawn.triangles, table);
    tell_found(found, drawn, location, findings)
}

/// Reports what is found in the indices at an accessor, where it is not left out. Those of the
/// first accessor that reads the same are gone over for both.
fn tell_index(
    document: &Document,
    buffers: &[&[u8]],
    plan: Plan<'_>,
    index: usize,
    drawn: Drawn,
    table: &mut [Option<Found>],
    location: &Location<'_>,
    findings: &mut Findings,
) -> Result<(), AllocError>
    requires firsts { AreFirsts document.now.accessors.items plan.firsts.now }
    requires kept { AreFound document.now (slice_get (lent_bytes buffers.now)) table.old }
    ensures told { OnOk result (findings.new ≡ told_after findings.old (places_of location.now)
        (index_checks_but (is_out plan.entry.left_out.now) document.now
        (slice_get (lent_bytes buffers.now)) drawn.vertices drawn.triangles index)) }
    ensures kept { AreFound document.now (slice_get (lent_bytes buffers.now)) table.new }
{
    if is_out(plan.left_out, index) {
        return Ok(());
    }
    let first = first_of(plan.firsts, index);
    let Some(accessor) = document.as_json().accessors.as_slice().get(first) else {
        return Ok(());
    };
    tell_indices(
        document, buffers, first, accessor, drawn, table, location, findings,
    )
}

fn tell_primitive(
    document: &Document,
    buffers: &[&[u8]],
    plan: Plan<'_>,
    primitive: &Primitive,
    table: &mut [Option<Found>],
    location: &Location<'_>,
    findings: &mut Findings,
) -> Result<(), AllocError>
    requires firsts { AreFirsts document.now.accessors.items plan.firsts.now }
    requires kept { AreFound document.now (slice_get (lent_bytes buffers.now)) table.old }
    ensures told { OnOk result (findings.new ≡ told_after findings.old (places_of location.now)
        (primitive_checks_but (is_out plan.entry.left_out.now) document.now
        (slice_get (lent_bytes buffers.now)) primitive.now)) }
    ensures kept { AreFound document.now (slice_get (lent_bytes buffers.now)) table.new }
{
    let Some(index) = primitive.indices else {
        return Ok(());
    };
    let drawn = Drawn {
        vertices: vertex_count(
            document.as_json().accessors.as_slice(),
            &primitive.attributes,
        ),
        triangles: are_triangles(primitive.mode),
    };
    let at = Location::Member(location, "indices");
    tell_index(
        document,
        buffers,
        plan,
        index.value(),
        drawn,
        table,
        &at,
        findings,
    )
}

fn tell_primitives(
    document: &Document,
    buffers: &[&[u8]],
    plan: Plan<'_>,
    primitives: &[Primitive],
    table: &mut [Option<Found>],
    location: &Location<'_>,
    findings: &mut Findings,
) -> Result<(), AllocError>
    requires firsts { AreFirsts document.now.accessors.items plan.firsts.now }
    requires kept { AreFound document.now (slice_get (lent_bytes buffers.now)) table.old }
    ensures told { OnOk result (findings.new ≡ told_after findings.old (places_of location.now)
        (list_checks (primitive_checks_but (is_out plan.entry.left_out.now) document.now
        (slice_get (lent_bytes buffers.now))) primitives.now)) }
    ensures kept { AreFound document.now (slice_get (lent_bytes buffers.now)) table.new }
{
    for (i, primitive) in primitives.iter().enumerate() {
        let at = Location::Item(&*location, i);
        tell_primitive(
            document,
            buffers,
            plan,
            primitive,
            &mut *table,
            &at,
            findings,
        )?;
    }
    Ok(())
}

/// Reports what is found in the indices of each mesh.
pub(crate) fn tell_meshes(
    document: &Document,
    buffers: &[&[u8]],
    plan: Plan<'_>,
    meshes: &[Mesh],
    table: &mut [Option<Found>],
    location: &Location<'_>,
    findings: &mut Findings,
) -> Result<(), AllocError>
    requires firsts { AreFirsts document.now.accessors.items plan.firsts.now }
    requires kept { AreFound document.now (slice_get (lent_bytes buffers.now)) table.old }
    ensures told { OnOk result (findings.new ≡ told_after findings.old (places_of location.now)
        (list_checks (mesh_checks_but (is_out plan.entry.left_out.now) document.now
        (slice_get (lent_bytes buffers.now))) meshes.now)) }
    ensures kept { AreFound document.now (slice_get (lent_bytes buffers.now)) table.new }
{
    for (i, mesh) in meshes.iter().enumerate() {
        let at = Location::Item(&*location, i);
        let primitives = Location::Member(&at, "primitives");
        tell_primitives(
            document,
            buffers,
            plan,
            mesh.primitives.as_slice(),
            &mut *table,
            &primitives,
            findings,
        )?;
    }
    Ok(())
}
