//! Stated minima and maxima (glTF 2.0, section 3.6.2.5, "Accessors Bounds").
ghost use Rattle.std.specs.Prelude.{◌≡◌, OnOk, map, take};
ghost use Rattle.serde_json.specs.View.{view};
ghost use Rattle.gltf_validation.specs.Locations.{places_of};
ghost use Rattle.gltf_findings.specs.Checks.{told_after};
ghost use Rattle.gltf_inspect_values.specs.Bounds.{rounded, stated, elements, each_checks};
ghost use Rattle.gltf_inspect_values.specs.Bounds.{are_bytes, are_halves, is_padded, column_count};
ghost use Rattle.gltf_inspect_values.specs.Extents.{extent_checks, value_checks, extents_checks};
ghost use Rattle.gltf_inspect_values.specs.Summaries.{stated_checks, both_checks};
ghost use Rattle.gltf_inspect_values.specs.Summaries.{has_bounds, found_checks};
ghost use Rattle.gltf_inspect_values.specs.declared.bounds.Bound.TheVariants.{Least, Greatest};

use crate::extent::{Extent, greatest_is, least_is, listed};
use crate::summary::Summary;
use gltf_findings::code::Code;
use gltf_findings::findings::Findings;
use gltf_json_geometry::accessor::{Accessor, ComponentType, Type};
use gltf_json_record::validation::Checked;
use gltf_validation::location::Location;
use serde_json::Value;
use std::alloc::AllocError;
use std::num::{f32_to_f64_with_nan, nearest_f64_to_f32_with_nan};

/// Which of two bounds is stated.
#[derive(Clone, Copy)]
pub(crate) enum Bound {
    /// The least number of a column.
    Least,
    /// The greatest one.
    Greatest,
}

fn rounded(kind: Checked<ComponentType>, number: f64) -> f64
    ensures { result ≡ rounded kind number }
{
    match kind {
        Checked::Valid(ComponentType::F32) => {
            f32_to_f64_with_nan(nearest_f64_to_f32_with_nan(number))
        }
        _ => number,
    }
}

/// The number that is stated for components of this type, where the value is one.
fn stated(kind: Checked<ComponentType>, value: &Value) -> Option<f64>
    ensures { result ≡ stated kind (view value.now) }
{
    let number = value.as_f64()?;
    Some(rounded(kind, number))
}

/// The first of some values, as many as are asked for.
#[tactic(auto, using(crate::proofs::Each::of_few))]
fn front(values: &[Value], count: usize) -> &[Value]
    ensures { result.now ≡ take count values.now }
{
    if values.len() <= count {
        values
    } else {
        &values[..count]
    }
}

/// The components of an item: so many columns have items of this type.
fn column_count(shape: Checked<Type>) -> usize
    ensures { result ≡ column_count shape }
{
    match shape {
        Checked::Invalid => 0,
        Checked::Valid(Type::Scalar) => 1,
        Checked::Valid(Type::Vec2) => 2,
        Checked::Valid(Type::Vec3) => 3,
        Checked::Valid(Type::Vec4 | Type::Mat2) => 4,
        Checked::Valid(Type::Mat3) => 9,
        Checked::Valid(Type::Mat4) => 16,
    }
}

/// The values of a list, at most one for each of so many columns; none of another value.
#[tactic(auto, using(crate::proofs::Each::front_of_list))]
fn elements(bound: &Option<Value>, count: usize) -> &[Value]
    ensures { map view result.now ≡ elements count bound.now }
{
    match bound {
        None => &[],
        Some(value) => match value.as_array() {
            None => &[],
            Some(values) => front(values.as_slice(), count),
        },
    }
}

/// Reports whether a number is the least of a column, and whether another is below it.
fn tell_least(
    extent: Extent,
    number: f64,
    location: &Location<'_>,
    findings: &mut Findings,
) -> Result<(), AllocError>
    ensures { OnOk result (findings.new ≡ told_after findings.old (places_of location.now)
        (extent_checks Least extent number)) }
{
    let below = extent.least < number;
    findings.tell(least_is(extent, number), Code::MinMismatch, location)?;
    findings.tell(!below, Code::ElementOutOfMinBound, location)
}

/// Reports whether a number is the greatest of a column, and whether another is above it.
fn tell_greatest(
    extent: Extent,
    number: f64,
    location: &Location<'_>,
    findings: &mut Findings,
) -> Result<(), AllocError>
    ensures { OnOk result (findings.new ≡ told_after findings.old (places_of location.now)
        (extent_checks Greatest extent number)) }
{
    let above = number < extent.greatest;
    findings.tell(greatest_is(extent, number), Code::MaxMismatch, location)?;
    findings.tell(!above, Code::ElementOutOfMaxBound, location)
}

/// Reports what is found in what is stated for a column of this extent.
fn tell_value(
    bound: Bound,
    kind: Checked<ComponentType>,
    extent: Extent,
    value: &Value,
    location: &Location<'_>,
    findings: &mut Findings,
) -> Result<(), AllocError>
    ensures { OnOk result (findings.new ≡ told_after findings.old (places_of location.now)
        (value_checks bound kind extent (view value.now))) }
{
    let Some(number) = stated(kind, value) else {
        return Ok(());
    };
    match bound {
        Bound::Least => tell_least(extent, number, location, findings),
        Bound::Greatest => tell_greatest(extent, number, location, findings),
    }
}

/// The same for a column by its index.
fn tell_column(
    bound: Bound,
    kind: Checked<ComponentType>,
    extents: &[Extent],
    index: usize,
    value: &Value,
    location: &Location<'_>,
    findings: &mut Findings,
) -> Result<(), AllocError>
    ensures { OnOk result (findings.new ≡ told_after findings.old (places_of location.now)
        (extents_checks bound kind extents.now index (view value.now))) }
{
    match extents.get(index) {
        None => Ok(()),
        Some(extent) => tell_value(bound, kind, *extent, value, location, findings),
    }
}

/// The same of each column.
fn tell_columns(
    bound: Bound,
    kind: Checked<ComponentType>,
    extents: &[Extent],
    values: &[Value],
    location: &Location<'_>,
    findings: &mut Findings,
) -> Result<(), AllocError>
    ensures { OnOk result (findings.new ≡ told_after findings.old (places_of location.now)
        (each_checks (λ c v. extents_checks bound kind extents.now c (view v)) 0 values.now)) }
{
    for (i, value) in values.iter().enumerate() {
        let at = Location::Item(&*location, i);
        tell_column(bound, kind, extents, i, value, &at, findings)?;
    }
    Ok(())
}

/// The same of what a member states.
fn tell_bound(
    bound: Bound,
    kind: Checked<ComponentType>,
    count: usize,
    extents: &[Extent],
    member: &Option<Value>,
    location: &Location<'_>,
    findings: &mut Findings,
) -> Result<(), AllocError>
    ensures { OnOk result (findings.new ≡ told_after findings.old (places_of location.now)
        (stated_checks bound kind count extents.now member.now)) }
{
    let values = elements(member, count);
    tell_columns(bound, kind, extents, values, location, findings)
}

fn are_bytes(kind: Checked<ComponentType>) -> bool
    ensures { result ≡ are_bytes kind }
{
    matches!(kind, Checked::Valid(ComponentType::I8 | ComponentType::U8))
}

fn are_halves(kind: Checked<ComponentType>) -> bool
    ensures { result ≡ are_halves kind }
{
    matches!(
        kind,
        Checked::Valid(ComponentType::I16 | ComponentType::U16)
    )
}

/// Whether the columns of such matrices are padded (glTF 2.0, section 3.6.2.4).
fn is_padded(kind: Checked<ComponentType>, shape: Checked<Type>) -> bool
    ensures { result ≡ is_padded kind shape }
{
    match shape {
        Checked::Valid(Type::Mat2) => are_bytes(kind),
        Checked::Valid(Type::Mat3) => are_bytes(kind) || are_halves(kind),
        _ => false,
    }
}

/// Reports what is found in the bounds of an accessor whose columns have these extents.
fn tell_stated(
    accessor: &Accessor,
    extents: &[Extent],
    location: &Location<'_>,
    findings: &mut Findings,
) -> Result<(), AllocError>
    ensures { OnOk result (findings.new ≡ told_after findings.old (places_of location.now)
        (both_checks accessor.now extents.now)) }
{
    let kind = accessor.component_type;
    let count = column_count(accessor.type_);
    let at = Location::Member(location, "min");
    tell_bound(
        Bound::Least,
        kind,
        count,
        extents,
        &accessor.min,
        &at,
        findings,
    )?;
    let at = Location::Member(location, "max");
    tell_bound(
        Bound::Greatest,
        kind,
        count,
        extents,
        &accessor.max,
        &at,
        findings,
    )
}

fn has_bounds(accessor: &Accessor, exist: bool) -> bool
    ensures { result ≡ has_bounds accessor.now exist }
{
    !is_padded(accessor.component_type, accessor.type_) && exist
}

/// The same, where the accessor has items without padding.
pub(crate) fn tell_bounds(
    accessor: &Accessor,
    found: &Summary,
    location: &Location<'_>,
    findings: &mut Findings,
) -> Result<(), AllocError>
    ensures { OnOk result (findings.new ≡ told_after findings.old (places_of location.now)
        (found_checks accessor.now found.now)) }
{
    if has_bounds(accessor, found.exist) {
        let extents = listed(&found.columns);
        tell_stated(accessor, &extents, location, findings)
    } else {
        Ok(())
    }
}
