//! Numbers of members that are kept as JSON, and their ranges.
ghost use Rattle.std.specs.Prelude.{◌≡◌};
ghost use Rattle.gltf_inspect_records.specs.Cameras.{number_of, is_positive, is_not_negative};
ghost use Rattle.gltf_inspect_records.specs.Materials.{is_fraction};

use serde_json::Value;

/// Where ranges begin.
pub(crate) const ZERO: f64 = 0.0;

/// Where the range of a fraction ends.
pub(crate) const ONE: f64 = 1.0;

/// The number of a member, where it is there and is one.
pub(crate) fn number_of(member: &Option<Value>) -> Option<f64>
    ensures { result ≡ number_of member.now }
{
    match member {
        Some(value) => value.as_f64(),
        None => None,
    }
}

/// Whether a number that is stated is above zero.
pub(crate) fn is_positive(number: Option<f64>) -> bool
    ensures { result ≡ is_positive number }
{
    match number {
        None => true,
        Some(number) => ZERO < number,
    }
}

/// Whether a number that is stated is not below zero.
pub(crate) fn is_not_negative(number: Option<f64>) -> bool
    ensures { result ≡ is_not_negative number }
{
    match number {
        None => true,
        Some(number) => ZERO <= number,
    }
}

/// Whether a number that is stated is from 0 to 1.
pub(crate) fn is_fraction(number: Option<f64>) -> bool
    ensures { result ≡ is_fraction number }
{
    match number {
        None => true,
        Some(number) => ZERO <= number && number <= ONE,
    }
}
