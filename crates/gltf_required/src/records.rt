//! The records of a JSON text.
ghost use Rattle.std.specs.Prelude.{IfOk, IfErr};
ghost use Rattle.serde_json.specs.Data.{Data};
ghost use Rattle.gltf_json.specs.Documents.{root};
ghost use Rattle.gltf_json.specs.Reading.{Reads};
ghost use Rattle.gltf_lenient.specs.Import.{RefusesValue};
ghost use Rattle.gltf_mend.specs.Mended.{mended};
ghost use Rattle.gltf_required.specs.Import.{RefusesValueAs};
ghost use Rattle.gltf_required.specs.Required.{as_read};

use crate::required::Required;
use gltf_json::Error;
use gltf_json::root::Root;
use gltf_json_deserialize::deserialize::{from_slice, from_value};
use gltf_mend::{Mends, mended};
use serde_json::Value;
use std::alloc::Global;

/// The records of a JSON text, or of its value as it is mended.
pub(crate) fn root_as(
    alloc: Global,
    text: &[u8],
    required: &Required<'_>,
) -> std::result::Result<Root, Error>
    ensures ok { IfOk result (λ r. (d : Data) × Reads text.now d
        × root.is (as_read required.now d) r) }
    ensures refused { IfErr result (RefusesValueAs required.now text.now) }
{
    match required.mends() {
        Some(mends) => mended_root(alloc, text, &mends),
        None => from_slice(alloc, text),
    }
}

/// The records of the value of a JSON text as it is mended. A text whose records hold as they stand
/// has nothing to mend, unless names of attributes are left out: so it is read without a tree.
fn mended_root(alloc: Global, text: &[u8], mends: &Mends<'_>) -> std::result::Result<Root, Error>
    ensures ok { IfOk result (λ r. (d : Data) × Reads text.now d
        × root.is (mended mends.now d) r) }
    ensures refused { IfErr result (RefusesValue mends.now text.now) }
{
    if mends.skip_unknown_attributes {
        return from_mended(alloc, text, mends);
    }
    match from_slice(alloc, text) {
        Ok(root) => Ok(root),
        Err(_) => from_mended(alloc, text, mends),
    }
}

/// The records of the mended value, out of its tree.
fn from_mended(alloc: Global, text: &[u8], mends: &Mends<'_>) -> std::result::Result<Root, Error>
    ensures ok { IfOk result (λ r. (d : Data) × Reads text.now d
        × root.is (mended mends.now d) r) }
    ensures refused { IfErr result (RefusesValue mends.now text.now) }
{
    let value = Value::from_slice(alloc, text)?;
    let value = mended(alloc, value, mends)?;
    from_value(alloc, &value)
}
