//! Positions in the lists of a document.
ghost use Rattle.std.specs.Prelude.{◌≡◌};

use crate::copy::Copies;
use crate::error::Error;
use crate::read::FromValue;
use crate::scalars::n32;
use serde_json::Value;
use std::alloc::{AllocError, Global};
use std::marker::{Model, PhantomData};

/// A position in the list that the marker T of `kinds` names, counted from 0. Contracts see its
/// number.
#[derive_where(Clone, Copy, Debug, PartialEq, Eq)]
pub struct Index<T> {
    value: u32,
    #[derive_where(skip)]
    of: PhantomData<T>,
}

impl<T> Model for Index<T> {
    ghost use Rattle.std.specs.Prelude.{ℕ};

    ghost Value = { ℕ };

    ghost view = { λ i. i.value };

    ghost inverse = { λ n. record { value = n; of = record {} } };
}

impl<T> Index<T> {
    /// The index with this number.
    pub fn new(value: u32) -> Index<T>
        ensures { result ≡ value }
    {
        Index {
            value,
            of: PhantomData,
        }
    }

    /// The number of the index.
    pub fn value(&self) -> usize
        ensures { result ≡ self.now }
    {
        self.value as usize
    }
}

impl<T> FromValue for Index<T> {
    ghost use Rattle.gltf_json_record.specs.Scalars.{index};

    ghost kind = { index };

    fn from_value(alloc: Global, value: &Value) -> Result<Index<T>, Error> {
        Ok(Index::new(n32(alloc, value)?))
    }
}

impl<T> Copies for Index<T> {
    fn copy(&self, _alloc: Global) -> Result<Index<T>, AllocError> {
        Ok(Index {
            value: self.value,
            of: PhantomData,
        })
    }
}
