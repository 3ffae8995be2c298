//! Codes: values that have a meaning by a table of the format.
use crate::error::Error;
use crate::read::{FromValue, wrong_kind};
use serde_json::Value;
use std::alloc::Global;

/// What a table has for a code.
#[derive(Clone, Copy, Debug, PartialEq, Eq)]
pub enum Checked<T> {
    /// The table lacks the code. A document is read all the same: the rules refuse it.
    Invalid,
    /// The meaning of the code.
    Valid(T),
}

/// A type whose values are written as codes.
pub trait Code: Copy {
    ghost use Rattle.std.specs.Prelude.{◌≡◌, Option};
    ghost use Rattle.serde_json.specs.Data.{Data};
    ghost use Rattle.serde_json.specs.View.{view};
    ghost use Rattle.gltf_json_record.specs.declared.validation.Checked.{Checked};

    /// What the table has for a value, in contracts.
    ghost reads: { Data → Option (Checked Self) };

    /// What the table has for a value; None where the value is of another kind than its codes.
    fn read(value: &Value) -> Option<Checked<Self>>
    where
        Self: Sized,
        ensures { result ≡ reads (view value.now) };
}

impl<T: Code> FromValue for Checked<T> {
    ghost use Rattle.gltf_json_record.specs.Scalars.{code};

    ghost kind = { code T.reads };

    fn from_value(alloc: Global, value: &Value) -> Result<Checked<T>, Error> {
        match T::read(value) {
            Some(code) => Ok(code),
            None => Err(wrong_kind(alloc)),
        }
    }
}
