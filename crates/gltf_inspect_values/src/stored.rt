//! The indices that sparse accessors store (glTF 2.0, sections 5.2 and 5.3).
ghost use Rattle.std.specs.Prelude.{◌≡◌, ◌≤◌, nat_le, map, OnOk, None, slice_get};
ghost use Rattle.std.specs.List.{list_any};
ghost use Rattle.gltf_shared.specs.Shown.{lent_bytes};
ghost use Rattle.gltf_items.specs.ItemIter.{items_left};
ghost use Rattle.gltf_validation.specs.Locations.{places_of};
ghost use Rattle.gltf_findings.specs.Checks.{told_after};
ghost use Rattle.gltf_inspect_values.specs.Falls.{after, falls};
ghost use Rattle.gltf_inspect_values.specs.Stored.{stored, left, is_not_above};
ghost use Rattle.gltf_inspect_values.specs.Stored.{stored_checks, typed_checks, sparse_checks};

use crate::walk::Place;
use gltf::Document;
use gltf_findings::code::Code;
use gltf_findings::findings::Findings;
use gltf_inspect_items::number::Number;
use gltf_inspect_items::part::part_at;
use gltf_items::{Item, ItemIter};
use gltf_json_geometry::accessor::sparse::Sparse;
use gltf_json_geometry::accessor::{Accessor, ComponentType};
use gltf_json_record::boxed::lent;
use gltf_json_record::validation::Checked;
use gltf_validation::location::Location;
use std::alloc::AllocError;

/// The indices that a sparse accessor stores, where they can be read as numbers of this type.
fn stored<'s, T: Item>(
    document: &Document,
    buffers: &[&'s [u8]],
    sparse: &Sparse,
) -> Option<ItemIter<'s, T>>
    requires { T.size ≤ 64 }
    ensures { left result ≡ stored T.size T.value document.now
        (slice_get (lent_bytes buffers.now)) sparse.now }
{
    let view = sparse.indices.buffer_view.value();
    let (offset, count) = (sparse.indices.byte_offset as usize, sparse.count as usize);
    part_at(document, buffers, view, offset, count)
}

fn is_after(before: Option<u64>, index: u64) -> bool
    ensures { result ≡ after is_not_above before index }
{
    match before {
        None => false,
        Some(before) => index <= before,
    }
}

/// Whether an index is not above the one before it.
fn any_not_above<T: Number>(mut items: ItemIter<'_, T>) -> bool
    ensures { result ≡ falls is_not_above None (map T.number (items_left items.entry)) }
{
    let mut before = None;
    while let Some(item) = items.next() {
        let index = item.number();
        if is_after(before, index) {
            return true;
        }
        before = Some(index);
    }
    false
}

/// Whether an index is at or above the number of items.
fn any_past<T: Number>(mut items: ItemIter<'_, T>, count: u64) -> bool
    ensures { result ≡ list_any (λ x. nat_le count (T.number x)) (items_left items.entry) }
{
    while let Some(item) = items.next() {
        if count <= item.number() {
            return true;
        }
    }
    false
}

/// Reports what is found in the stored indices of an accessor of so many items.
fn tell_stored<T: Number>(
    items: Option<ItemIter<'_, T>>,
    count: u64,
    location: &Location<'_>,
    findings: &mut Findings,
) -> Result<(), AllocError>
    ensures { OnOk result (findings.new ≡ told_after findings.old (places_of location.now)
        (stored_checks T.number count (left items.entry))) }
{
    let Some(items) = items else {
        return Ok(());
    };
    let rises = !any_not_above(items);
    findings.tell(rises, Code::SparseIndicesNonIncreasing, location)?;
    let is_within = !any_past(items, count);
    findings.tell(is_within, Code::SparseIndexOob, location)
}

/// The same, by the type of indices.
fn tell_typed(
    place: Place<'_>,
    count: u64,
    sparse: &Sparse,
    location: &Location<'_>,
    findings: &mut Findings,
) -> Result<(), AllocError>
    ensures { let p = place.entry in
        OnOk result (findings.new ≡ told_after findings.old (places_of location.now)
        (typed_checks p.document.now (slice_get (lent_bytes p.buffers.now)) count
        sparse.now sparse.now.indices.component_type)) }
{
    let (document, buffers) = (place.document, place.buffers);
    match sparse.indices.component_type {
        Checked::Valid(ComponentType::U8) => {
            tell_stored::<u8>(stored(document, buffers, sparse), count, location, findings)
        }
        Checked::Valid(ComponentType::U16) => {
            tell_stored::<u16>(stored(document, buffers, sparse), count, location, findings)
        }
        Checked::Valid(ComponentType::U32) => {
            tell_stored::<u32>(stored(document, buffers, sparse), count, location, findings)
        }
        _ => Ok(()),
    }
}

/// Reports what is found in the stored indices of an accessor, where it has some.
pub(crate) fn tell_sparse(
    place: Place<'_>,
    accessor: &Accessor,
    location: &Location<'_>,
    findings: &mut Findings,
) -> Result<(), AllocError>
    ensures { let p = place.entry in
        OnOk result (findings.new ≡ told_after findings.old (places_of location.now)
        (sparse_checks p.document.now (slice_get (lent_bytes p.buffers.now))
        accessor.now)) }
{
    let Some(sparse) = lent(&accessor.sparse) else {
        return Ok(());
    };
    let at = Location::Member(location, "sparse");
    let at = Location::Member(&at, "indices");
    tell_typed(place, accessor.count, sparse, &at, findings)
}
