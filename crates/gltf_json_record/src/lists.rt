//! Arrays of one kind.
ghost use Rattle.std.specs.Prelude.{IfOk, IfErr, Vec};
ghost use Rattle.std.specs.declared.alloc.Global.{Global};
ghost use Rattle.serde_json.specs.View.{view};
ghost use Rattle.gltf_json_record.specs.Fault.{Tells};
ghost use Rattle.gltf_json_record.specs.Lists.{list};
ghost use Rattle.gltf_json_record.specs.Table.{listed};

use crate::error::Error;
use crate::path::Step;
use crate::read::{FromValue, or_default, under, wrong_kind};
use serde_json::Value;
use std::alloc::Global;

impl<T: FromValue> FromValue for Vec<T> {
    ghost kind = { list T.kind };

    fn from_value(alloc: Global, value: &Value) -> Result<Vec<T>, Error> {
        let Some(items) = value.as_array() else {
            return Err(wrong_kind(alloc));
        };
        let mut list = Vec::with_capacity(alloc, items.len())?;
        for (i, item) in items.iter().enumerate() {
            match T::from_value(alloc, item) {
                Ok(read) => list.push(read)?,
                Err(error) => return Err(under(Step::Item(i), error)),
            }
        }
        Ok(list)
    }
}

/// An array that is empty where its member is absent.
#[inline]
pub fn list_or_empty<T: FromValue>(
    alloc: Global,
    value: &Value,
    name: &'static str,
) -> Result<Vec<T>, Error>
    ensures ok { IfOk result ((listed name.now (λ x. x) T.kind).is (view value.now)) }
    ensures err { IfErr result (Tells ((listed name.now (λ (x : Vec T Global). x) T.kind).fault
        (view value.now))) }
{
    or_default(alloc, value, name, Vec::new(alloc))
}
