//! The extensions that a record does not know.
ghost use Rattle.std.specs.Prelude.{◌≡◌, ℕ, List, IfOk, IfErr, IsSome, None, if◌then◌else◌, map};
ghost use Rattle.serde_json.specs.Find.{as_object, get, get_member};
ghost use Rattle.serde_json.specs.View.{view, members_view};
ghost use Rattle.gltf_json_record.specs.declared.error.Error.TheVariants.{Memory};
ghost use Rattle.gltf_json_record.specs.Member.{is_one_of};

use crate::error::Error;
use serde_json::{Map, Value};
use std::default::Emptied;

/// The members of an object whose names are not among the known ones, as they stand: null included.
/// No other member is copied.
pub fn others(value: &Value, known: &[&str]) -> Result<Map<String, Value>, Error>
    requires { IsSome (as_object (view value.now)) }
    ensures ok { IfOk result (λ m. (name : List ℕ) → get_member name (members_view m.entries)
        ≡ (if is_one_of (map (λ k. k.now) known.now) name then None
        else get name (view value.now))) }
    ensures refused { IfErr result (λ e. e ≡ Memory) }
{
    let Value::Object(members) = value else {
        unreachable!()
    };
    let mut others = Map::emptied(members)?;
    for (name, member) in members {
        if !known.contains(&name.as_str()) {
            drop(others.insert(name.clone()?, member.clone()?)?);
        }
    }
    Ok(others)
}
