//! Numbers of JSON members, read as the nearest doubles.
ghost use Rattle.std.specs.Prelude.{◌≡◌};

use gltf_json_record::error::Error;
use gltf_json_record::read::{FromValue, wrong_kind};
use serde_json::Value;
use std::alloc::Global;
use std::marker::Model;

/// A number, as the nearest double. Contracts see the double.
#[derive(Clone, Copy, Debug)]
pub struct Number {
    pub(crate) value: f64,
}

impl Model for Number {
    ghost use Rattle.std.specs.Prelude.{Float};

    ghost Value = { Float };

    ghost view = { λ n. n.value };

    ghost inverse = { λ x. record { value = x } };
}

impl Number {
    /// The number that a double is.
    pub fn new(value: f64) -> Number
        ensures { result ≡ value }
    {
        Number { value }
    }

    /// The double.
    pub fn value(&self) -> f64
        ensures { result ≡ self.now }
    {
        self.value
    }
}

impl FromValue for Number {
    ghost use Rattle.gltf_extension_records.specs.Numbers.{number};

    ghost kind = { number };

    fn from_value(alloc: Global, value: &Value) -> Result<Number, Error> {
        match gltf_numbers::number(value) {
            Some(number) => Ok(Number::new(number)),
            None => Err(wrong_kind(alloc)),
        }
    }
}

/// A list of `N` numbers, each as the nearest double. Contracts see the list of doubles.
#[derive(Clone, Copy, Debug)]
pub struct Numbers<const N: usize> {
    values: [f64; N],
}

impl<const N: usize> Model for Numbers<N> {
    ghost use Rattle.std.specs.Prelude.{List, Float};

    ghost Value = { List Float };

    ghost view = { λ n. n.values };

    ghost inverse = { λ xs. record { values = xs } };
}

impl<const N: usize> Numbers<N> {
    /// The numbers that doubles are.
    pub fn new(values: [f64; N]) -> Numbers<N>
        ensures { result ≡ values.entry }
    {
        Numbers { values }
    }

    /// The doubles.
    pub fn values(&self) -> [f64; N]
        ensures { result ≡ self.now }
    {
        self.values
    }
}

impl<const N: usize> FromValue for Numbers<N> {
    ghost use Rattle.gltf_extension_records.specs.Numbers.{numbers};

    ghost kind = { numbers N };

    fn from_value(alloc: Global, value: &Value) -> Result<Numbers<N>, Error> {
        match gltf_numbers::numbers(value) {
            Some(numbers) => Ok(Numbers::new(numbers)),
            None => Err(wrong_kind(alloc)),
        }
    }
}
