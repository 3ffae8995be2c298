//! Copies of what was read. A copy shows what the original shows: its texts, numbers, lists and
//! values.
ghost use Rattle.std.specs.Prelude.{◌≡◌, IfOk, option_map};
ghost use Rattle.gltf_json_record.specs.Found.{found_in};

use crate::read::FromValue;
use serde_json::{Map, Value};
use std::alloc::{AllocError, Global};

/// What can be copied.
pub trait Copies: FromValue {
    ghost use Rattle.std.specs.Prelude.{IfOk};
    ghost use Rattle.gltf_json_record.specs.Copy.{IsCopy};

    /// A copy.
    fn copy(&self, alloc: Global) -> Result<Self, AllocError>
    where
        Self: Sized,
        ensures { IfOk result (IsCopy Self.kind self.now) };
}

impl Copies for String {
    fn copy(&self, alloc: Global) -> Result<String, AllocError> {
        String::from_str(alloc, self)
    }
}

impl Copies for u32 {
    fn copy(&self, _alloc: Global) -> Result<u32, AllocError> {
        Ok(*self)
    }
}

impl Copies for Value {
    fn copy(&self, _alloc: Global) -> Result<Value, AllocError> {
        self.clone()
    }
}

impl<T: Copies> Copies for Vec<T> {
    fn copy(&self, alloc: Global) -> Result<Vec<T>, AllocError> {
        let mut list = Vec::with_capacity(alloc, self.len())?;
        for item in self {
            list.push(item.copy(alloc)?)?;
        }
        Ok(list)
    }
}

/// A copy of a member that may be absent.
pub fn option_copy<T: Copies>(alloc: Global, member: &Option<T>) -> Result<Option<T>, AllocError>
    ensures { IfOk result (λ copy. option_map T.kind.content copy
        ≡ option_map T.kind.content member.now) }
{
    match member {
        Some(value) => Ok(Some(value.copy(alloc)?)),
        None => Ok(None),
    }
}

/// A copy of members that no table names.
pub fn map_copy(members: &Map<String, Value>) -> Result<Map<String, Value>, AllocError>
    ensures { IfOk result (λ copy. found_in copy ≡ found_in members.now) }
{
    members.clone()
}
