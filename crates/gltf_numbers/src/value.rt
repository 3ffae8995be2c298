//! Numbers and lists of numbers.
ghost use Rattle.std.specs.Prelude.{◌≡◌, IfOk, length, map};
ghost use Rattle.std.specs.Option.{option_copied, option_map};
ghost use Rattle.gltf_numbers.specs.Numbers.{number_of, numbers_in, exactly, any_number_of};
ghost use Rattle.gltf_numbers.specs.Numbers.{number_if, number_or, numbers_or};
ghost use Rattle.serde_json.specs.View.{view};

use serde_json::Value;
use std::alloc::{AllocError, Global};

/// The number that a value is, as the nearest double; None of any other value.
pub fn number(value: &Value) -> Option<f64>
    ensures { result ≡ number_of (view value.now) }
{
    value.as_f64()
}

/// The numbers of a list of exactly `N` numbers, each as the nearest double; None of any other
/// value.
pub fn numbers<const N: usize>(value: &Value) -> Option<[f64; N]>
    ensures { result ≡ exactly N (view value.now) }
{
    let values = value.as_array()?.as_slice();
    if values.len() == N {
        all_numbers(values)
    } else {
        None
    }
}

/// The numbers of a list of any length, each as the nearest double; None of any other value. So are
/// `weights` of a mesh or a node, of which there are as many as its mesh has morph targets (glTF
/// 2.0, section 3.7.2.2). The error says that there is no memory for the list.
pub fn number_list(alloc: Global, value: &Value) -> Result<Option<Vec<f64>>, AllocError>
    ensures { IfOk result (λ list. option_map (λ l. l.items) list
        ≡ any_number_of (view value.now)) }
{
    match value.as_array() {
        Some(values) => list_of_all(alloc, values.as_slice()),
        None => Ok(None),
    }
}

/// The number of a member that may be absent, where `default` is meant; None where the member is
/// there and is no number.
pub fn number_or(member: Option<&Value>, default: f64) -> Option<f64>
    ensures { result ≡ number_or default (option_copied member.entry) }
{
    match member {
        Some(value) => number(value),
        None => Some(default),
    }
}

/// The number of a member that may be absent, `Some(None)` where it is; None where the member is
/// there and is no number.
pub fn number_if(member: Option<&Value>) -> Option<Option<f64>>
    ensures { result ≡ number_if (option_copied member.entry) }
{
    match member {
        Some(value) => Some(Some(number(value)?)),
        None => Some(None),
    }
}

/// The numbers of a member that may be absent, where `default` is meant; None where the member is
/// there and is no list of exactly `N` numbers.
pub fn numbers_or<const N: usize>(member: Option<&Value>, default: [f64; N]) -> Option<[f64; N]>
    ensures { result ≡ numbers_or N default.entry (option_copied member.entry) }
{
    match member {
        Some(value) => numbers(value),
        None => Some(default),
    }
}

/// The numbers of as many values.
fn all_numbers<const N: usize>(values: &[Value]) -> Option<[f64; N]>
    requires { length values.now ≡ N }
    ensures { result ≡ numbers_in (map view values.now) }
{
    let mut found = [0.0; N];
    for i in 0..N {
        let Some(value) = number(&values[i]) else {
            return None;
        };
        found[i] = value;
    }
    Some(found)
}

/// The numbers of these values, in a list that is reserved once.
fn list_of_all(alloc: Global, values: &[Value]) -> Result<Option<Vec<f64>>, AllocError>
    ensures { IfOk result (λ list. option_map (λ l. l.items) list
        ≡ numbers_in (map view values.now)) }
{
    let mut found = Vec::with_capacity(alloc, values.len())?;
    for value in values {
        let Some(number) = number(value) else {
            return Ok(None);
        };
        found.push(number)?;
    }
    Ok(Some(found))
}
