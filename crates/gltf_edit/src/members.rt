//! Members of objects, read and changed.
ghost use Rattle.std.specs.Prelude.{◌≡◌, IfOk, option_map};
ghost use Rattle.serde_json.specs.View.{view};
ghost use Rattle.gltf_edit.specs.Bundled.{with_member, with_some, size_at};
ghost use Rattle.gltf_edit.specs.Embedded.{without_member};

use serde_json::{Value, put};
use std::alloc::{AllocError, Global};

/// A member that is a whole number below 2^64.
pub fn size_at(value: &Value, name: &str) -> Option<u64>
    ensures { result ≡ size_at name.now (view value.now) }
{
    value.get(name).and_then(Value::as_u64)
}

/// The value with this at the member, where it is an object and there is something.
pub fn with_some(
    alloc: Global,
    value: Value,
    name: &str,
    member: Option<Value>,
) -> Result<Value, AllocError>
    ensures { IfOk result (λ v. view v
        ≡ with_some name.now (option_map view member) (view value)) }
{
    match member {
        Some(member) => with_member(alloc, value, name, member),
        None => Ok(value),
    }
}

/// The value with this at the member, where it is an object.
pub(crate) fn with_member(
    alloc: Global,
    value: Value,
    name: &str,
    member: Value,
) -> Result<Value, AllocError>
    ensures { IfOk result (λ v. view v ≡ with_member name.now (view member) (view value)) }
{
    match value {
        Value::Object(mut members) => {
            put(&mut members, alloc, name, member)?;
            Ok(Value::Object(members))
        }
        other => Ok(other),
    }
}

/// The value without the member, where it is an object.
pub fn without_member(value: Value, name: &str) -> Value
    ensures { view result ≡ without_member name.now (view value) }
{
    match value {
        Value::Object(mut members) => {
            drop(members.remove(name));
            Value::Object(members)
        }
        other => other,
    }
}
