//! Values that hold no records: texts, flags, numbers, and values kept as they stand.
ghost use Rattle.std.specs.Prelude.{IfOk, IfErr};
ghost use Rattle.serde_json.specs.View.{view};
ghost use Rattle.gltf_json_record.specs.Fault.{Tells};
ghost use Rattle.gltf_json_record.specs.Scalars.{text, flag, size, n32, any};

use crate::error::Error;
use crate::read::{FromValue, wrong_kind};
use serde_json::Value;
use std::alloc::Global;

impl FromValue for String {
    ghost kind = { text };

    fn from_value(alloc: Global, value: &Value) -> Result<String, Error> {
        match value.as_str() {
            Some(text) => Ok(String::from_str(alloc, text)?),
            None => Err(wrong_kind(alloc)),
        }
    }
}

impl FromValue for bool {
    ghost kind = { flag };

    fn from_value(alloc: Global, value: &Value) -> Result<bool, Error> {
        match value.as_bool() {
            Some(flag) => Ok(flag),
            None => Err(wrong_kind(alloc)),
        }
    }
}

impl FromValue for u64 {
    ghost kind = { size };

    fn from_value(alloc: Global, value: &Value) -> Result<u64, Error> {
        match value.as_u64() {
            Some(number) => Ok(number),
            None => Err(wrong_kind(alloc)),
        }
    }
}

/// A whole number below 2^32. A number with a fraction or an exponent, as `4.0`, is none.
pub fn n32(alloc: Global, value: &Value) -> Result<u32, Error>
    ensures ok { IfOk result (n32.is (view value.now)) }
    ensures err { IfErr result (Tells (n32.fault (view value.now))) }
{
    match value.as_u64() {
        Some(number) if number <= 0xffff_ffff => Ok(number as u32),
        _ => Err(wrong_kind(alloc)),
    }
}

impl FromValue for u32 {
    ghost kind = { n32 };

    fn from_value(alloc: Global, value: &Value) -> Result<u32, Error> {
        n32(alloc, value)
    }
}

impl FromValue for Value {
    ghost kind = { any };

    fn from_value(_alloc: Global, value: &Value) -> Result<Value, Error> {
        Ok(value.clone()?)
    }
}
