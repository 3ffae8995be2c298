//! Records that are rarely there, kept apart from the record that holds them.
ghost use Rattle.std.specs.Prelude.{◌≡◌, IfOk};
ghost use Rattle.std.specs.Option.{option_copied};

use crate::copy::Copies;
use crate::error::Error;
use crate::read::FromValue;
use serde_json::Value;
use std::alloc::{AllocError, Global};
use std::fmt;
use std::marker::Model;

/// A record on the heap. A member that is absent then takes the room of a pointer, however large
/// its record is. Contracts see the record.
#[derive(Drop)]
pub struct Boxed<T> {
    inner: Box<T>,
}

impl<T> Model for Boxed<T> {
    ghost Value = { T };

    ghost coded = { T.code };

    ghost view = { λ b. b.inner.value };
}

impl<T> Boxed<T> {
    /// The record.
    pub fn get(&self) -> &T
        ensures { result.now ≡ self.now }
    {
        &self.inner
    }

    /// The record, moved out of the heap. It can be changed, and be put back by `new`.
    pub fn into_inner(self) -> T
        ensures { result ≡ self }
    {
        Box::into_inner(self.inner)
    }
}

impl<T: Drop> Boxed<T> {
    /// The record, moved to the heap.
    pub fn new(alloc: Global, value: T) -> Result<Boxed<T>, AllocError>
        ensures { IfOk result (λ boxed. boxed ≡ value) }
    {
        Ok(Boxed {
            inner: Box::new(alloc, value)?,
        })
    }
}

/// The record of a member that may be absent.
pub fn lent<T>(member: &Option<Boxed<T>>) -> Option<&T>
    ensures { option_copied result ≡ member.now }
{
    match member {
        Some(boxed) => Some(boxed.get()),
        None => None,
    }
}

/// As the record is shown.
impl<T: fmt::Debug> fmt::Debug for Boxed<T> {
    fn fmt<W: fmt::Write>(&self, f: &mut fmt::Formatter<W>) -> fmt::Result {
        self.get().fmt(f)
    }
}

impl<T: FromValue> FromValue for Boxed<T> {
    ghost kind = { T.kind };

    fn from_value(alloc: Global, value: &Value) -> Result<Boxed<T>, Error> {
        let record = T::from_value(alloc, value)?;
        Ok(Boxed::new(alloc, record)?)
    }
}

impl<T: Copies> Copies for Boxed<T> {
    fn copy(&self, alloc: Global) -> Result<Boxed<T>, AllocError> {
        Boxed::new(alloc, self.get().copy(alloc)?)
    }
}
