//! The times of animations (glTF 2.0, section 3.11, "Animations").
ghost use Rattle.std.specs.Prelude.{◌≡◌, ◌&&◌, ◌||◌, ◌∷◌, [], None, OnOk, map, slice_get};
ghost use Rattle.std.specs.List.{list_any};
ghost use Rattle.gltf_shared.specs.Shown.{lent_bytes};
ghost use Rattle.gltf_items.specs.Floats.{float_of};
ghost use Rattle.gltf_data.specs.Iter.{counted_items};
ghost use Rattle.gltf_validation.specs.Locations.{places_of};
ghost use Rattle.gltf_findings.specs.Checks.{told_after, list_checks};
ghost use Rattle.gltf_inspect_items.specs.Members.{members_left};
ghost use Rattle.gltf_inspect_items.specs.Reading.{items_left};
ghost use Rattle.gltf_inspect_values.specs.Falls.{after, falls};
ghost use Rattle.gltf_inspect_values.specs.Times.{are_times, times, is_negative, is_not_later};
ghost use Rattle.gltf_inspect_values.specs.Plans.{input_checks_but, sampler_checks_but};
ghost use Rattle.gltf_inspect_values.specs.Plans.{animation_checks_but};
ghost use Rattle.gltf_inspect_values.specs.Times.{times_checks, found_checks, AreFound};
ghost use Rattle.gltf_inspect_values.specs.Times.{found_in_times};
ghost use Rattle.gltf_inspect_items.specs.Plans.{is_out};
ghost use Rattle.gltf_ranges.specs.Alike.{AreFirsts};

use gltf::Document;
use gltf::accessor::Iter;
use gltf_findings::code::Code;
use gltf_findings::findings::Findings;
use gltf_inspect_items::kept::{found_before, keep};
use gltf_inspect_items::members::{Members, members_at};
use gltf_inspect_items::plan::{Plan, first_of, is_out};
use gltf_inspect_items::read::{items_at, take};
use gltf_items::{F32, Item};
use gltf_json_animation::animation::{Animation, Sampler};
use gltf_json_geometry::accessor::{ComponentType, Type};
use gltf_json_record::validation::Checked;
use gltf_validation::location::Location;
use std::alloc::AllocError;

fn are_times(component: Checked<ComponentType>, shape: Checked<Type>) -> bool
    ensures { result ≡ are_times component shape }
{
    matches!(component, Checked::Valid(ComponentType::F32))
        && matches!(shape, Checked::Valid(Type::Scalar))
}

/// The times of the accessor at an index, where it is one of times and can be read.
fn times<'s>(document: &Document, buffers: &[&'s [u8]], index: usize) -> Option<Iter<'s, F32>>
    ensures { map float_of (items_left result)
        ≡ times document.now (slice_get (lent_bytes buffers.now)) index }
{
    let accessor = document.as_json().accessors.as_slice().get(index)?;
    if are_times(accessor.component_type, accessor.type_) {
        items_at(document, buffers, index)
    } else {
        None
    }
}

fn is_negative(time: f32) -> bool
    ensures { result ≡ is_negative time }
{
    time < 0.0
}

fn is_after(before: Option<f32>, time: f32) -> bool
    ensures { result ≡ after is_not_later before time }
{
    match before {
        None => false,
        Some(before) => time <= before,
    }
}

/// Whether a time that is left is negative.
fn any_negative(items: &mut Iter<'_, F32>) -> bool
    ensures { result ≡ list_any is_negative (map float_of (counted_items items.old).items) }
{
    while let Some(item) = take(items) {
        if is_negative(item.to_f32()) {
            return true;
        }
    }
    false
}

/// Whether a time that is left is not later than the one before it.
fn any_not_later(items: &mut Iter<'_, F32>) -> bool
    ensures { result ≡ falls is_not_later None (map float_of (counted_items items.old).items) }
{
    let mut before = None;
    while let Some(item) = take(items) {
        let time = item.to_f32();
        if is_after(before, time) {
            return true;
        }
        before = Some(time);
    }
    false
}

/// Whether one of these times is negative.
fn are_negative_in(items: Option<Iter<'_, F32>>) -> bool
    ensures { result ≡ list_any is_negative (map float_of (items_left items.entry)) }
{
    match items {
        Some(mut items) => any_negative(&mut items),
        None => false,
    }
}

/// Whether there is the time zero, and it is negative.
fn zero_is_negative(zero: bool) -> bool
    ensures { result ≡ (zero && is_negative (float_of (0 ∷ 0 ∷ 0 ∷ 0 ∷ []))) }
{
    zero && is_negative(F32::zero().to_f32())
}

fn either(first: bool, second: bool) -> bool
    ensures { result ≡ (first || second) }
{
    first || second
}

/// Whether one of these times is negative.
fn are_negative(members: Members<'_, F32>) -> bool
    ensures { result ≡ list_any is_negative (map float_of (members_left members.entry)) }
{
    let Members { zero, others } = members;
    either(zero_is_negative(zero), are_negative_in(others))
}

/// Whether a time of the accessor at an index is negative, where it is one of times.
fn are_negative_at(document: &Document, buffers: &[&[u8]], index: usize) -> bool
    ensures { result ≡ list_any is_negative
        (times document.now (slice_get (lent_bytes buffers.now)) index) }
{
    let Some(accessor) = document.as_json().accessors.as_slice().get(index) else {
        return false;
    };
    if are_times(accessor.component_type, accessor.type_) {
        are_negative(members_at(document, buffers, index))
    } else {
        false
    }
}

fn are_not_later(items: Option<Iter<'_, F32>>) -> bool
    ensures { result ≡ falls is_not_later None (map float_of (items_left items.entry)) }
{
    match items {
        Some(mut items) => any_not_later(&mut items),
        None => false,
    }
}

/// What is found in the times at an accessor.
#[derive(Clone, Copy)]
pub(crate) struct Found {
    /// One is negative.
    negative: bool,
    /// One is not later than the one before it.
    not_later: bool,
}

/// What is found in the times of the accessor at an index. Of a sparse one without a view the walk
/// for a time that is not later ends at two zeros in a row.
fn found_at(document: &Document, buffers: &[&[u8]], index: usize) -> Found
    ensures { result ≡ found_in_times
        (times document.now (slice_get (lent_bytes buffers.now)) index) }
{
    Found {
        negative: are_negative_at(document, buffers, index),
        not_later: are_not_later(times(document, buffers, index)),
    }
}

/// What is found in the times of the accessor at an index, which are gone over once.
fn found_once(
    document: &Document,
    buffers: &[&[u8]],
    index: usize,
    table: &mut [Option<Found>],
) -> Found
    requires { AreFound document.now (slice_get (lent_bytes buffers.now)) table.old }
    ensures found { result ≡ found_in_times
        (times document.now (slice_get (lent_bytes buffers.now)) index) }
    ensures kept { AreFound document.now (slice_get (lent_bytes buffers.now)) table.new }
{
    match found_before(table, index) {
        Some(found) => found,
        None => {
            let found = found_at(document, buffers, index);
            keep(table, index, found);
            found
        }
    }
}

/// Reports what is found in the times at an accessor.
fn tell_times(
    document: &Document,
    buffers: &[&[u8]],
    index: usize,
    table: &mut [Option<Found>],
    location: &Location<'_>,
    findings: &mut Findings,
) -> Result<(), AllocError>
    requires { AreFound document.now (slice_get (lent_bytes buffers.now)) table.old }
    ensures told { OnOk result (findings.new ≡ told_after findings.old (places_of location.now)
        (times_checks (times document.now (slice_get (lent_bytes buffers.now)) index))) }
    ensures kept { AreFound document.now (slice_get (lent_bytes buffers.now)) table.new }
{
    let found = found_once(document, buffers, index, table);
    tell_found(found, location, findings)
}

fn tell_found(
    found: Found,
    location: &Location<'_>,
    findings: &mut Findings,
) -> Result<(), AllocError>
    ensures { OnOk result (findings.new ≡ told_after findings.old (places_of location.now)
        (found_checks found)) }
{
    findings.tell(!found.negative, Code::AnimationInputNegative, location)?;
    findings.tell(
        !found.not_later,
        Code::AnimationInputNonIncreasing,
        location,
    )
}

/// Reports what is found in the times at an accessor, where it is not left out. Those of the first
/// accessor that reads the same are gone over for both.
fn tell_input(
    document: &Document,
    buffers: &[&[u8]],
    plan: Plan<'_>,
    index: usize,
    table: &mut [Option<Found>],
    location: &Location<'_>,
    findings: &mut Findings,
) -> Result<(), AllocError>
    requires firsts { AreFirsts document.now.accessors.items plan.firsts.now }
    requires kept { AreFound document.now (slice_get (lent_bytes buffers.now)) table.old }
    ensures told { OnOk result (findings.new ≡ told_after findings.old (places_of location.now)
        (input_checks_but (is_out plan.entry.left_out.now) document.now
        (slice_get (lent_bytes buffers.now)) index)) }
    ensures kept { AreFound document.now (slice_get (lent_bytes buffers.now)) table.new }
{
    if is_out(plan.left_out, index) {
        return Ok(());
    }
    let first = first_of(plan.firsts, index);
    tell_times(document, buffers, first, table, location, findings)
}

fn tell_samplers(
    document: &Document,
    buffers: &[&[u8]],
    plan: Plan<'_>,
    samplers: &[Sampler],
    table: &mut [Option<Found>],
    location: &Location<'_>,
    findings: &mut Findings,
) -> Result<(), AllocError>
    requires firsts { AreFirsts document.now.accessors.items plan.firsts.now }
    requires kept { AreFound document.now (slice_get (lent_bytes buffers.now)) table.old }
    ensures told { OnOk result (findings.new ≡ told_after findings.old (places_of location.now)
        (list_checks (sampler_checks_but (is_out plan.entry.left_out.now) document.now
        (slice_get (lent_bytes buffers.now))) samplers.now)) }
    ensures kept { AreFound document.now (slice_get (lent_bytes buffers.now)) table.new }
{
    for (i, sampler) in samplers.iter().enumerate() {
        let at = Location::Item(&*location, i);
        let input = Location::Member(&at, "input");
        let index = sampler.input.value();
        tell_input(
            document,
            buffers,
            plan,
            index,
            &mut *table,
            &input,
            findings,
        )?;
    }
    Ok(())
}

/// Reports what is found in the times of each animation. Those of accessors that read the same are
/// gone over once, however many samplers name these.
pub(crate) fn tell_animations(
    document: &Document,
    buffers: &[&[u8]],
    plan: Plan<'_>,
    animations: &[Animation],
    table: &mut [Option<Found>],
    location: &Location<'_>,
    findings: &mut Findings,
) -> Result<(), AllocError>
    requires firsts { AreFirsts document.now.accessors.items plan.firsts.now }
    requires kept { AreFound document.now (slice_get (lent_bytes buffers.now)) table.old }
    ensures told { OnOk result (findings.new ≡ told_after findings.old (places_of location.now)
        (list_checks (animation_checks_but (is_out plan.entry.left_out.now) document.now
        (slice_get (lent_bytes buffers.now))) animations.now)) }
    ensures kept { AreFound document.now (slice_get (lent_bytes buffers.now)) table.new }
{
    for (i, animation) in animations.iter().enumerate() {
        let at = Location::Item(&*location, i);
        let samplers = Location::Member(&at, "samplers");
        tell_samplers(
            document,
            buffers,
            plan,
            animation.samplers.as_slice(),
            &mut *table,
            &samplers,
            findings,
        )?;
    }
    Ok(())
}
