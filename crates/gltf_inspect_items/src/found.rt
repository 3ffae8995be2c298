//! What is found in the indices at an accessor, whatever is drawn by them: so that indices which
//! several primitives share are gone over once.
ghost use Rattle.std.specs.Prelude.{◌≡◌, ◌≤◌, Some, IsTrue, is_some, map, slice_get, true};
ghost use Rattle.gltf_shared.specs.Shown.{lent_bytes};
ghost use Rattle.gltf_data.specs.Iter.{counted_items};
ghost use Rattle.gltf_inspect_items.specs.Found.{wider, nothing, with_index, with_indices};
ghost use Rattle.gltf_inspect_items.specs.Found.{IsFound, IsFoundIn, AreFound};
ghost use Rattle.gltf_inspect_items.specs.Found.{are_indices, degenerate_in};
ghost use Rattle.gltf_inspect_items.specs.Members.{members_left};
ghost use Rattle.gltf_inspect_items.specs.Reading.{items_at};

use crate::indices::are_degenerate;
use crate::kept::{found_before, keep};
use crate::members::{Members, members_at};
use crate::number::Number;
use crate::read::{items_at, take};
use gltf::Document;
use gltf::accessor::Iter;
use gltf_json_geometry::accessor::{Accessor, ComponentType};
use gltf_json_record::validation::Checked;

/// What is found in indices.
#[derive(Clone, Copy)]
pub(crate) struct Found {
    /// The greatest one, but for the greatest number of their type.
    pub(crate) greatest: Option<u64>,
    /// Whether one is the greatest number of their type.
    pub(crate) restarts: bool,
    /// Whether three of them, that are a triangle, name a vertex twice, where that was looked at.
    pub(crate) degenerate: Option<bool>,
}

/// What is found in no indices.
fn nothing() -> Found
    ensures { result ≡ nothing }
{
    Found {
        greatest: None,
        restarts: false,
        degenerate: None,
    }
}

fn wider(greatest: Option<u64>, index: u64) -> Option<u64>
    ensures { result ≡ wider greatest index }
{
    match greatest {
        None => Some(index),
        Some(before) => {
            if index <= before {
                Some(before)
            } else {
                Some(index)
            }
        }
    }
}

/// What is found in one more index, of a type with this greatest number.
fn with_index(most: u64, found: Found, index: u64) -> Found
    ensures { result ≡ with_index most found index }
{
    if index == most {
        Found {
            restarts: true,
            ..found
        }
    } else {
        Found {
            greatest: wider(found.greatest, index),
            ..found
        }
    }
}

/// What is found in the indices that are left too.
fn with_left<T: Number>(before: Found, items: &mut Iter<'_, T>) -> Found
    ensures { result
        ≡ with_indices T.most before (map T.number (counted_items items.old).items) }
{
    let mut found = before;
    while let Some(item) = take(items) {
        found = with_index(T::most(), found, item.number());
    }
    found
}

/// What is found in these indices; not of triangles.
fn found_in<T: Number>(members: Members<'_, T>) -> Found
    ensures { result ≡ with_indices T.most nothing (map T.number (members_left members.entry)) }
{
    let Members { zero, others } = members;
    let first = if zero {
        with_index(T::most(), nothing(), T::zero().number())
    } else {
        nothing()
    };
    match others {
        None => first,
        Some(mut items) => with_left::<T>(first, &mut items),
    }
}

/// What is found in the indices at an accessor, read as numbers of this type; not of triangles.
fn found_as<T: Number>(document: &Document, buffers: &[&[u8]], index: usize) -> Found
    requires { T.size ≤ 64 }
    ensures { IsFound T.number T.most
        (items_at T.Item document.now (slice_get (lent_bytes buffers.now)) index) result }
{
    found_in::<T>(members_at(document, buffers, index))
}

/// The same, by the type of components.
fn found_at(
    document: &Document,
    buffers: &[&[u8]],
    index: usize,
    component: Checked<ComponentType>,
) -> Found
    ensures { IsFoundIn document.now (slice_get (lent_bytes buffers.now)) index component
        result }
{
    match component {
        Checked::Invalid => nothing(),
        Checked::Valid(component) => match component {
            ComponentType::U8 => found_as::<u8>(document, buffers, index),
            ComponentType::U16 => found_as::<u16>(document, buffers, index),
            ComponentType::U32 => found_as::<u32>(document, buffers, index),
            _ => nothing(),
        },
    }
}

/// Whether three of the indices at an accessor, that are a triangle, name a vertex twice.
fn degenerate_at(
    document: &Document,
    buffers: &[&[u8]],
    index: usize,
    component: Checked<ComponentType>,
) -> bool
    ensures { result ≡ degenerate_in document.now (slice_get (lent_bytes buffers.now)) index
        component }
{
    match component {
        Checked::Invalid => false,
        Checked::Valid(component) => match component {
            ComponentType::U8 => are_degenerate::<u8>(items_at(document, buffers, index)),
            ComponentType::U16 => are_degenerate::<u16>(items_at(document, buffers, index)),
            ComponentType::U32 => are_degenerate::<u32>(items_at(document, buffers, index)),
            _ => false,
        },
    }
}

pub(crate) fn are_indices(component: Checked<ComponentType>) -> bool
    ensures { result ≡ are_indices component }
{
    match component {
        Checked::Invalid => false,
        Checked::Valid(component) => match component {
            ComponentType::U8 | ComponentType::U16 | ComponentType::U32 => true,
            _ => false,
        },
    }
}

/// What is found in the indices at an accessor, but that triangles may not have been looked at.
fn found_so_far(
    document: &Document,
    buffers: &[&[u8]],
    index: usize,
    accessor: &Accessor,
    table: &[Option<Found>],
) -> Found
    requires here { slice_get document.now.accessors.items index ≡ Some accessor.now }
    requires kept { AreFound document.now (slice_get (lent_bytes buffers.now)) table.now }
    ensures { IsFoundIn document.now (slice_get (lent_bytes buffers.now)) index
        accessor.now.component_type result }
{
    match found_before(table, index) {
        Some(found) => found,
        None => found_at(document, buffers, index, accessor.component_type),
    }
}

/// The same with triangles.
fn with_triangles(
    document: &Document,
    buffers: &[&[u8]],
    index: usize,
    component: Checked<ComponentType>,
    found: Found,
) -> Found
    requires { IsFoundIn document.now (slice_get (lent_bytes buffers.now)) index component
        found }
    ensures found { IsFoundIn document.now (slice_get (lent_bytes buffers.now)) index
        component result }
    ensures whole { is_some result.degenerate ≡ true }
{
    if found.degenerate.is_some() {
        return found;
    }
    let degenerate = Some(degenerate_at(document, buffers, index, component));
    Found {
        degenerate,
        ..found
    }
}

/// What is found in the indices at an accessor, with triangles where they are asked for. The table
/// keeps it, so that they are gone over once.
pub(crate) fn found_once(
    document: &Document,
    buffers: &[&[u8]],
    index: usize,
    accessor: &Accessor,
    triangles: bool,
    table: &mut [Option<Found>],
) -> Found
    requires here { slice_get document.now.accessors.items index ≡ Some accessor.now }
    requires kept { AreFound document.now (slice_get (lent_bytes buffers.now)) table.old }
    ensures found { IsFoundIn document.now (slice_get (lent_bytes buffers.now)) index
        accessor.now.component_type result }
    ensures whole { IsTrue triangles → is_some result.degenerate ≡ true }
    ensures kept { AreFound document.now (slice_get (lent_bytes buffers.now)) table.new }
{
    let component = accessor.component_type;
    let before = found_so_far(document, buffers, index, accessor, &*table);
    let found = if triangles {
        with_triangles(document, buffers, index, component, before)
    } else {
        before
    };
    keep(table, index, found);
    found
}
