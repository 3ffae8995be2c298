//! Indices and numbers, one by one and in lists, as C gets them.
ghost use Rattle.std.specs.Prelude.{◌≡◌, ◌<◌, [], List, Float, length, is_some, map, Some};
ghost use Rattle.std.specs.Prelude.{MatchOption, slice_get};
ghost use Rattle.std.specs.Option.{option_copied};
ghost use Rattle.gltf_c_scene.specs.Values.{one_or_zero, index_or_none, numbers_else};
ghost use Rattle.gltf_c_scene.specs.Values.{in_room, listed_numbers, numbers_of_value};
ghost use Rattle.gltf_numbers.specs.Numbers.{numbers_in};
ghost use Rattle.serde_json.specs.View.{view};

use gltf_json::{Index, Value};
use gltf_numbers::{number, numbers_or};

/// What stands for an index that is absent: the greatest `usize`, which no list has room for.
pub const NONE: usize = usize::MAX;

/// 1 where it is so, else 0.
pub fn one_or_zero(is_so: bool) -> u32
    ensures { result ≡ one_or_zero is_so }
{
    if is_so { 1 } else { 0 }
}

/// The number of an index, or [`NONE`] where there is none.
pub fn index_or_none<T>(index: Option<Index<T>>) -> usize
    ensures { result ≡ index_or_none index }
{
    match index {
        Some(index) => index.value(),
        None => NONE,
    }
}

/// The numbers of a member that is a list of exactly `N` of them; else the default.
pub fn numbers_else<const N: usize>(member: &Option<Value>, default: [f64; N]) -> [f64; N]
    ensures { result ≡ numbers_else N default.entry member.now }
{
    match numbers_or(member.as_ref(), default) {
        Some(numbers) => numbers,
        None => default,
    }
}

/// Writes the front of a list of indices to the front of `out`, as many as there is room for.
/// Returns the length of the list.
pub fn write_indices<T>(list: &[Index<T>], out: &mut [usize]) -> usize
    ensures count { result ≡ length list.now }
    ensures written { out.new ≡ in_room list.now out.old }
{
    let count = list.len().min(out.len());
    for i in 0..count {
        out[i] = list[i].value();
    }
    list.len()
}

/// How many numbers a member has that is a list of numbers; 0 of any other.
pub fn count_numbers(member: Option<&Value>) -> usize
    ensures { result ≡ length (listed_numbers (option_copied member.entry)) }
{
    number_values(member).len()
}

/// Writes the front of a list of numbers to the front of `out`, as many as there is room for, each
/// as the nearest double. Returns the length of the list; that is 0 where the member is no list of
/// numbers.
pub fn write_numbers(member: Option<&Value>, out: &mut [f64]) -> usize
    ensures count { result ≡ length (listed_numbers (option_copied member.entry)) }
    ensures written { out.new ≡ in_room (listed_numbers (option_copied member.entry)) out.old }
{
    let values = number_values(member);
    let count = values.len().min(out.len());
    for i in 0..count {
        out[i] = number_at(values, i);
    }
    values.len()
}

/// The number at a place among values that are all numbers.
fn number_at(values: &[Value], at: usize) -> f64
    requires { at < length values.now }
    ensures { (xs : List Float) → numbers_in (map view values.now) ≡ Some xs
        → slice_get xs at ≡ Some result }
{
    match number(&values[at]) {
        Some(found) => found,
        None => 0.0,
    }
}

/// The values of a member that is a list of numbers; none of any other.
fn number_values(member: Option<&Value>) -> &[Value]
    ensures { numbers_in (map view result.now)
        ≡ Some (listed_numbers (option_copied member.entry)) }
{
    match member {
        Some(value) => listed(value),
        None => &[],
    }
}

/// The same of a value.
fn listed(value: &Value) -> &[Value]
    ensures { numbers_in (map view result.now) ≡ Some (numbers_of_value value.now) }
{
    match all_numbers(value) {
        Some(values) => values,
        None => &[],
    }
}

/// The values of a list of numbers; None of any other value.
fn all_numbers(value: &Value) -> Option<&[Value]>
    ensures { MatchOption result (numbers_of_value value.now ≡ []) (λ values.
        numbers_in (map view values.now) ≡ Some (numbers_of_value value.now)) }
{
    let values = value.as_array()?.as_slice();
    if are_numbers(values) {
        Some(values)
    } else {
        None
    }
}

/// Whether all values are numbers.
fn are_numbers(values: &[Value]) -> bool
    ensures { result ≡ is_some (numbers_in (map view values.now)) }
{
    for value in values {
        if number(value).is_none() {
            return false;
        }
    }
    true
}
