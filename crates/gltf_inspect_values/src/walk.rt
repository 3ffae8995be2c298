//! What a walk over the items of an accessor finds, whatever the size of its items.
ghost use Rattle.std.specs.Prelude.{◌≡◌, ◌*◌, ◌≤◌, ◌++◌, [], true, replicate, slice_get};
ghost use Rattle.std.specs.List.{list_any};
ghost use Rattle.gltf_shared.specs.Shown.{lent_bytes};
ghost use Rattle.gltf_data.specs.Iter.{counted_items};
ghost use Rattle.gltf_handles.specs.Sizes.{code_of, component_size, data_type, dimensions};
ghost use Rattle.gltf_handles.specs.Sizes.{multiplicity};
ghost use Rattle.gltf_inspect_items.specs.Members.{members_left, one};
ghost use Rattle.gltf_inspect_items.specs.Reading.{items_at, items_left};
ghost use Rattle.gltf_inspect_values.specs.Items.{as_bytes, item_bytes};
ghost use Rattle.gltf_inspect_values.specs.Components.{number_at};
ghost use Rattle.gltf_inspect_values.specs.Summaries.{summary, first, IsSummary, IsSummaryOf};

use crate::component::Component;
use crate::item::ItemBytes;
use crate::summary::{Summary, no_items, with_item, without_numbers};
use gltf::Document;
use gltf::accessor::Iter;
use gltf_inspect_items::members::{Members, members_at};
use gltf_inspect_items::read::{items_at, take};
use gltf_items::F32;
use gltf_json_geometry::accessor::{Accessor, ComponentType, Type};
use gltf_json_record::validation::Checked;

/// What is found in an item whose bytes are zero, or in none.
#[tactic(auto, using(crate::proofs::After::first_some, crate::proofs::After::first_none))]
fn first<T: Component, const N: usize>(zero: bool) -> Summary
    requires { N ≤ 64 }
    ensures { result ≡ first (number_at T.size T.value T.number) T.any_infinite (replicate N 0)
        zero }
{
    if zero {
        with_item::<T>(no_items(), &[0; N])
    } else {
        no_items()
    }
}

/// What is found in that, and in the items that are left.
fn summary_left<T: Component, const N: usize>(
    zero: bool,
    items: &mut Iter<'_, ItemBytes<N>>,
) -> Summary
    requires { N ≤ 64 }
    ensures { result ≡ summary (number_at T.size T.value T.number) T.any_infinite
        (one (replicate N 0) zero ++ (counted_items items.old).items) }
{
    let mut found = first::<T, N>(zero);
    while let Some(item) = take(items) {
        found = with_item::<T>(found, &item.bytes);
    }
    found
}

/// What is found in these items, where there are items.
fn summary_of_members<T: Component, const N: usize>(members: Members<'_, ItemBytes<N>>) -> Summary
    requires { N ≤ 64 }
    ensures { result ≡ summary (number_at T.size T.value T.number) T.any_infinite
        (members_left members.entry) }
{
    let Members { zero, others } = members;
    match others {
        Some(mut items) => summary_left::<T, N>(zero, &mut items),
        None => first_alone::<T, N>(zero),
    }
}

/// What is found in an item whose bytes are zero alone, or in none.
fn first_alone<T: Component, const N: usize>(zero: bool) -> Summary
    requires { N ≤ 64 }
    ensures { result ≡ summary (number_at T.size T.value T.number) T.any_infinite
        (one (replicate N 0) zero ++ []) }
{
    first::<T, N>(zero)
}

/// What is found in the items of an accessor, read as items of so many bytes.
#[tactic(auto, using(crate::proofs::Sizes::front_few))]
fn summary<T: Component, const N: usize>(place: Place<'_>) -> Summary
    requires { N ≤ 64 }
    ensures { let p = place.entry in
        IsSummary (number_at T.size T.value T.number) T.any_infinite
        (items_at (as_bytes N) p.document.now (slice_get (lent_bytes p.buffers.now)) p.index)
        result }
{
    let Place {
        document,
        buffers,
        index,
    } = place;
    summary_of_members::<T, N>(members_at(document, buffers, index))
}

/// Whether there are items.
fn exist(items: Option<Iter<'_, ItemBytes<0>>>) -> bool
    ensures { result ≡ list_any (λ item. true) (items_left items.entry) }
{
    match items {
        Some(mut items) => take(&mut items).is_some(),
        None => false,
    }
}

/// An accessor of a document, with the bytes of its buffers.
#[derive(Clone, Copy)]
pub(crate) struct Place<'a> {
    /// The document.
    pub(crate) document: &'a Document,
    /// The bytes of each buffer.
    pub(crate) buffers: &'a [&'a [u8]],
    /// The index of the accessor.
    pub(crate) index: usize,
}

/// What is found in the items of an accessor, where components have one byte.
fn summary_of_bytes<T: Component>(place: Place<'_>, shape: Checked<Type>) -> Summary
    ensures { let p = place.entry in
        IsSummary (number_at T.size T.value T.number) T.any_infinite
        (items_at (as_bytes (1 * code_of (λ c. multiplicity (dimensions c)) shape))
        p.document.now (slice_get (lent_bytes p.buffers.now)) p.index) result }
{
    match shape {
        Checked::Invalid => summary::<T, 0>(place),
        Checked::Valid(shape) => match shape {
            Type::Scalar => summary::<T, 1>(place),
            Type::Vec2 => summary::<T, 2>(place),
            Type::Vec3 => summary::<T, 3>(place),
            Type::Vec4 => summary::<T, 4>(place),
            Type::Mat2 => summary::<T, 4>(place),
            Type::Mat3 => summary::<T, 9>(place),
            Type::Mat4 => summary::<T, 16>(place),
        },
    }
}

/// The same where components have two bytes.
fn summary_of_halves<T: Component>(place: Place<'_>, shape: Checked<Type>) -> Summary
    ensures { let p = place.entry in
        IsSummary (number_at T.size T.value T.number) T.any_infinite
        (items_at (as_bytes (2 * code_of (λ c. multiplicity (dimensions c)) shape))
        p.document.now (slice_get (lent_bytes p.buffers.now)) p.index) result }
{
    match shape {
        Checked::Invalid => summary::<T, 0>(place),
        Checked::Valid(shape) => match shape {
            Type::Scalar => summary::<T, 2>(place),
            Type::Vec2 => summary::<T, 4>(place),
            Type::Vec3 => summary::<T, 6>(place),
            Type::Vec4 => summary::<T, 8>(place),
            Type::Mat2 => summary::<T, 8>(place),
            Type::Mat3 => summary::<T, 18>(place),
            Type::Mat4 => summary::<T, 32>(place),
        },
    }
}

/// The same where components have four bytes.
fn summary_of_words<T: Component>(place: Place<'_>, shape: Checked<Type>) -> Summary
    ensures { let p = place.entry in
        IsSummary (number_at T.size T.value T.number) T.any_infinite
        (items_at (as_bytes (4 * code_of (λ c. multiplicity (dimensions c)) shape))
        p.document.now (slice_get (lent_bytes p.buffers.now)) p.index) result }
{
    match shape {
        Checked::Invalid => summary::<T, 0>(place),
        Checked::Valid(shape) => match shape {
            Type::Scalar => summary::<T, 4>(place),
            Type::Vec2 => summary::<T, 8>(place),
            Type::Vec3 => summary::<T, 12>(place),
            Type::Vec4 => summary::<T, 16>(place),
            Type::Mat2 => summary::<T, 16>(place),
            Type::Mat3 => summary::<T, 36>(place),
            Type::Mat4 => summary::<T, 64>(place),
        },
    }
}

/// The same where items are made of such components in such a shape.
fn summary_typed(
    place: Place<'_>,
    component: Checked<ComponentType>,
    shape: Checked<Type>,
) -> Summary
    ensures { let p = place.entry in
        IsSummaryOf component
        (items_at (as_bytes (code_of (λ c. component_size (data_type c)) component
        * code_of (λ c. multiplicity (dimensions c)) shape))
        p.document.now (slice_get (lent_bytes p.buffers.now)) p.index) result }
{
    let Place {
        document,
        buffers,
        index,
    } = place;
    match component {
        Checked::Invalid => without_numbers(exist(items_at(document, buffers, index))),
        Checked::Valid(component) => match component {
            ComponentType::I8 => summary_of_bytes::<i8>(place, shape),
            ComponentType::U8 => summary_of_bytes::<u8>(place, shape),
            ComponentType::I16 => summary_of_halves::<i16>(place, shape),
            ComponentType::U16 => summary_of_halves::<u16>(place, shape),
            ComponentType::U32 => summary_of_words::<u32>(place, shape),
            ComponentType::F32 => summary_of_words::<F32>(place, shape),
        },
    }
}

/// What is found in the items of an accessor. It takes time in proportion to them, of a sparse one
/// without a view in proportion to its values.
pub(crate) fn summary_of(place: Place<'_>, accessor: &Accessor) -> Summary
    ensures { let p = place.entry in
        IsSummaryOf accessor.now.component_type
        (item_bytes p.document.now (slice_get (lent_bytes p.buffers.now)) p.index
        accessor.now) result }
{
    summary_typed(place, accessor.component_type, accessor.type_)
}
