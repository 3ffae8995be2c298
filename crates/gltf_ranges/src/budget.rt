//! Which items are left out where those of all accessors together are too many.
ghost use Rattle.std.specs.Prelude.{◌≡◌, ◌*◌, ◌<◌, ◌^◌, ◌==◌, if◌then◌else◌, IfOk, SomeIff};
ghost use Rattle.std.specs.Prelude.{get_or, false};
ghost use Rattle.gltf_handles.specs.Sizes.{item_size, stored_size, component_size, data_type};
ghost use Rattle.gltf_handles.specs.Sizes.{code_of, multiplicity, dimensions};
ghost use Rattle.gltf_ranges.specs.Budget.{within, room, base_price, sparse_price, price};
ghost use Rattle.gltf_ranges.specs.Budget.{prices, too_dear, left_out};

use gltf_json::root::Root;
use gltf_json_geometry::accessor::sparse::Sparse;
use gltf_json_geometry::accessor::{Accessor, ComponentType, Type};
use gltf_json_record::boxed::lent;
use gltf_json_record::validation::Checked;
use std::alloc::{AllocError, Global};

/// The bytes of a component.
fn component_size(component: Checked<ComponentType>) -> u64
    ensures { result ≡ code_of (λ c. component_size (data_type c)) component }
{
    match component {
        Checked::Invalid => 0,
        Checked::Valid(component) => match component {
            ComponentType::I8 | ComponentType::U8 => 1,
            ComponentType::I16 | ComponentType::U16 => 2,
            ComponentType::U32 | ComponentType::F32 => 4,
        },
    }
}

/// How many components an item has.
fn multiplicity(shape: Checked<Type>) -> u64
    ensures { result ≡ code_of (λ c. multiplicity (dimensions c)) shape }
{
    match shape {
        Checked::Invalid => 0,
        Checked::Valid(shape) => match shape {
            Type::Scalar => 1,
            Type::Vec2 => 2,
            Type::Vec3 => 3,
            Type::Vec4 | Type::Mat2 => 4,
            Type::Mat3 => 9,
            Type::Mat4 => 16,
        },
    }
}

/// The bytes of an item.
fn item_size(accessor: &Accessor) -> u64
    ensures { result ≡ item_size accessor.now }
{
    component_size(accessor.component_type) * multiplicity(accessor.type_)
}

/// The bytes of a stored index.
fn stored_size(sparse: &Sparse) -> u64
    ensures { result ≡ stored_size sparse.now.indices }
{
    match sparse.indices.component_type {
        Checked::Invalid => 0,
        Checked::Valid(component) => match component {
            ComponentType::U8 => 1,
            ComponentType::U16 => 2,
            _ => 4,
        },
    }
}

/// The bytes of so many items, where there is room for them.
fn within(count: u64, size: u64, room: u64) -> u64
    ensures { result ≡ within (count * size) room }
{
    match count.checked_mul(size) {
        None => 0,
        Some(bytes) => { if bytes <= room { bytes } else { 0 } }
    }
}

/// The bytes of the view at an index.
fn room(root: &Root, view: usize) -> u64
    ensures { result ≡ room root.now view }
{
    match root.buffer_views.as_slice().get(view) {
        None => 0,
        Some(view) => view.byte_length,
    }
}

/// The bytes of the items of an accessor in its view.
fn base_price(root: &Root, accessor: &Accessor) -> u64
    ensures { result ≡ base_price root.now accessor.now accessor.now.buffer_view }
{
    match accessor.buffer_view {
        None => 0,
        Some(view) => within(
            accessor.count,
            item_size(accessor),
            room(root, view.value()),
        ),
    }
}

/// Those of its stored indices, and of the values at these.
fn sparse_price(root: &Root, accessor: &Accessor) -> Option<u64>
    ensures { let bytes = sparse_price root.now accessor.now accessor.now.sparse in
        SomeIff result (bytes < 2 ^ 64) bytes }
{
    let Some(sparse) = lent(&accessor.sparse) else {
        return Some(0);
    };
    let of_indices = room(root, sparse.indices.buffer_view.value());
    let of_values = room(root, sparse.values.buffer_view.value());
    let indices = within(sparse.count, stored_size(sparse), of_indices);
    indices.checked_add(within(sparse.count, item_size(accessor), of_values))
}

/// The bytes that the items of an accessor take, as far as 64 bits hold their number.
fn price(root: &Root, accessor: &Accessor) -> Option<u64>
    ensures { let bytes = price root.now accessor.now in SomeIff result (bytes < 2 ^ 64) bytes }
{
    base_price(root, accessor).checked_add(sparse_price(root, accessor)?)
}

/// The same, or nothing where an accessor before it reads the same.
fn own_price(root: &Root, firsts: &[usize], index: usize, accessor: &Accessor) -> Option<u64>
    ensures { let bytes = if get_or firsts.now index index == index
        then price root.now accessor.now else 0 in
        SomeIff result (bytes < 2 ^ 64) bytes }
{
    let first = match firsts.get(index) {
        None => index,
        Some(first) => *first,
    };
    if first == index {
        price(root, accessor)
    } else {
        Some(0)
    }
}

/// The accessors for which the budget is not enough, one after the other.
fn too_dear(
    alloc: Global,
    root: &Root,
    firsts: &[usize],
    budget: u64,
) -> Result<Vec<bool>, AllocError>
    ensures { IfOk result (λ dear. dear.items
        ≡ too_dear budget (prices root.now firsts.now 0 root.now.accessors.items)) }
{
    let mut left = budget;
    let mut dear = Vec::new(alloc);
    for (i, accessor) in root.accessors.iter().enumerate() {
        match own_price(root, firsts, i, accessor) {
            Some(price) if price <= left => {
                left -= price;
                dear.push(false)?;
            }
            _ => dear.push(true)?,
        }
    }
    Ok(dear)
}

fn mark_at(marks: &[bool], index: usize) -> bool
    ensures { result ≡ get_or marks.now index false }
{
    match marks.get(index) {
        None => false,
        Some(mark) => *mark,
    }
}

/// The accessors that are left out, so that the items of the others take at most as many bytes as
/// the budget: one after the other, each for which what is left of the budget is not enough.
/// `firsts` has for each accessor the first that reads the same, which takes it for both. Fails
/// where there is no memory.
pub fn left_out(
    alloc: Global,
    root: &Root,
    firsts: &[usize],
    budget: u64,
) -> Result<Vec<bool>, AllocError>
    ensures { IfOk result (λ out. out.items ≡ left_out budget root.now firsts.now) }
{
    let dear = too_dear(alloc, root, firsts, budget)?;
    let mut out = Vec::new(alloc);
    for first in firsts {
        out.push(mark_at(dear.as_slice(), *first))?;
    }
    Ok(out)
}
