//! How the members of a record are read from a JSON object.
ghost use Rattle.std.specs.Prelude.{◌≡◌, ◌≢◌, Ok, Err, IfOk, IfErr, IsNone, IsSome, option_map};
ghost use Rattle.std.specs.Prelude.{Option};
ghost use Rattle.serde_json.specs.Find.{as_object};
ghost use Rattle.serde_json.specs.View.{view};
ghost use Rattle.gltf_json_record.specs.Fault.{Tells, IsUnder};
ghost use Rattle.gltf_json_record.specs.Kind.{IsWrongKind};
ghost use Rattle.gltf_json_record.specs.Table.{required, optional, defaulted, IsMissing};
ghost use Rattle.gltf_json_record.specs.Member.{member_at};
ghost use Rattle.gltf_json_record.specs.Place.{place_of};
ghost use Rattle.gltf_json_record.specs.declared.error.Error.TheVariants.{Memory};

use crate::error::{Error, RecordFault};
use crate::path::{Path, Step};
use serde_json::Value;
use std::alloc::Global;

/// A type that is read from a JSON value.
pub trait FromValue: Drop {
    ghost use Rattle.std.specs.Prelude.{IfOk, IfErr};
    ghost use Rattle.serde_json.specs.View.{view};
    ghost use Rattle.gltf_json_record.specs.Fault.{Tells};
    ghost use Rattle.gltf_json_record.specs.Kind.{Kind};

    /// Which values it is the reading of, and which faults stand in the others.
    ghost kind: { Kind Self };

    /// The reading of a value, or a fault that stands in it, or out of memory.
    fn from_value(alloc: Global, value: &Value) -> Result<Self, Error>
    where
        Self: Sized,
        ensures ok { IfOk result (kind.is (view value.now)) }
        ensures err { IfErr result (Tells (kind.fault (view value.now))) };
}

/// The reading of a value. It is answered exactly where the value fits its kind, out of memory
/// aside; otherwise the answer is a fault that stands in the value.
pub fn read<T: FromValue>(alloc: Global, value: &Value) -> Result<T, Error>
    ensures ok { IfOk result (T.kind.is (view value.now)) }
    ensures fits { IfOk result (λ _. T.kind.fits (view value.now)) }
    ensures err { IfErr result (Tells (T.kind.fault (view value.now))) }
    ensures refused { IfErr result (λ e. e ≢ Memory → T.kind.fits (view value.now) → ⊥) }
{
    T::from_value(alloc, value)
}

/// The fault of a value that is of another kind.
#[cold]
pub fn wrong_kind(alloc: Global) -> Error
    ensures { Tells IsWrongKind result }
{
    Error::Record {
        path: Path::new(alloc),
        fault: RecordFault::WrongKind,
    }
}

/// The same error, seen from one step further out; or out of memory for that step.
#[cold]
#[inline(never)]
pub fn under(step: Step, error: Error) -> Error
    ensures { IsUnder (place_of step) error result }
{
    match error {
        Error::Record { mut path, fault } => match path.put_in_front(step) {
            Ok(()) => Error::Record { path, fault },
            Err(_) => Error::Memory,
        },
        other => other,
    }
}

/// What an object has at a name; None where that is null, or where the value is no object.
pub fn member<'v>(value: &'v Value, name: &str) -> Option<&'v Value>
    ensures { option_map (λ v. view v.now) result ≡ member_at name.now (view value.now) }
{
    match value.get(name) {
        Some(Value::Null) => None,
        found => found,
    }
}

/// A member that may be absent. It is inlined, so that an absent one costs the look-up alone.
#[inline(always)]
pub fn optional<T: FromValue>(
    alloc: Global,
    value: &Value,
    name: &'static str,
) -> Result<Option<T>, Error>
    ensures ok { IfOk result ((optional name.now (λ x. x) T.kind).is (view value.now)) }
    ensures err { IfErr result (Tells ((optional name.now (λ (x : Option T). x) T.kind).fault
        (view value.now))) }
{
    match member(value, name) {
        Some(found) => match T::from_value(alloc, found) {
            Ok(read) => Ok(Some(read)),
            Err(error) => Err(under(Step::Member(name), error)),
        },
        None => Ok(None),
    }
}

/// A member that has to be there.
#[inline(always)]
pub fn required<T: FromValue>(alloc: Global, value: &Value, name: &'static str) -> Result<T, Error>
    ensures ok { IfOk result ((required name.now (λ x. x) T.kind).is (view value.now)) }
    ensures err { IfErr result (Tells ((required name.now (λ (x : T). x) T.kind).fault
        (view value.now))) }
{
    match optional(alloc, value, name)? {
        Some(read) => Ok(read),
        None => Err(missing_member(alloc, name)),
    }
}

// The fault of a member that is not there.
#[cold]
#[inline(never)]
fn missing_member(alloc: Global, name: &'static str) -> Error
    ensures { Tells (IsMissing name.now) result }
{
    under(
        Step::Member(name),
        Error::Record {
            path: Path::new(alloc),
            fault: RecordFault::MissingMember,
        },
    )
}

/// A member that stands for `default` where it is absent.
#[inline(always)]
pub fn or_default<T: FromValue>(
    alloc: Global,
    value: &Value,
    name: &'static str,
    default: T,
) -> Result<T, Error>
    ensures ok { IfOk result ((defaulted name.now (λ x. x) default T.kind).is (view value.now)) }
    ensures err { IfErr result (Tells ((defaulted name.now (λ x. x) default T.kind).fault
        (view value.now))) }
{
    Ok(optional(alloc, value, name)?.unwrap_or(default))
}

/// Tests that a value is an object: a record can be read from nothing else.
#[inline]
pub fn object(alloc: Global, value: &Value) -> Result<(), Error>
    ensures ok { IfOk result (λ _. IsSome (as_object (view value.now))) }
    ensures err { IfErr result (λ e. IsNone (as_object (view value.now)) × Tells IsWrongKind e) }
{
    if value.is_object() {
        Ok(())
    } else {
        Err(wrong_kind(alloc))
    }
}
