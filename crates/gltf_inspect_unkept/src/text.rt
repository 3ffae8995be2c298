//! The extensions that are used in a JSON text, in objects of which no record keeps them.
ghost use Rattle.std.specs.Prelude.{◌≡◌, [], true, Some, IfOk};
ghost use Rattle.serde_json.specs.Data.{Data};
ghost use Rattle.serde_json.specs.Read.{read};
ghost use Rattle.gltf_json.specs.Reading.{Reads};
ghost use Rattle.gltf_findings.specs.Checks.{findings_of};
ghost use Rattle.gltf_inspect_unkept.specs.Documents.{unkept_checks};
ghost use Rattle.gltf_inspect_unkept.specs.Laws.{FindsNothing};

use crate::laws::{
    nothing_is_found_where_its_parts_lack_the_name, nothing_is_found_without_the_name,
};
use crate::value::inspect_value;
use gltf_findings::findings::Findings;
use gltf_findings::report::Report;
use gltf_json_keys::lacks::lacks;
use gltf_json_keys::parts::parts_lack;
use serde_json::Value;
use std::alloc::{AllocError, Global};

/// Whether nothing is found in a text, since it surely has no member `extensions`, or none in its
/// accessors and animations. Where it answers false, something may be found or not.
fn is_plain(alloc: Global, text: &[u8]) -> bool
    ensures { result ≡ true → (d : Data) → read text.now ≡ Some d → FindsNothing d }
{
    // Laws that the proof stands on; the calls do nothing.
    nothing_is_found_without_the_name();
    nothing_is_found_where_its_parts_lack_the_name();
    if lacks(text, b"\"extensions\"") {
        return true;
    }
    parts_lack(alloc, text, &["accessors", "animations"], "extensions")
}

/// The same as [`inspect_value`] of the JSON value that a text is. No value is made of a text that
/// surely has no member `extensions` in its accessors and animations: then it takes two searches of
/// its bytes, and where there is such a member elsewhere, one walk over its tokens.
/// Nothing is said of bytes that are no JSON text. Fails where there is no memory.
pub fn inspect_text(alloc: Global, text: &[u8]) -> Result<Report, AllocError>
    ensures { IfOk result (λ report. (d : Data) → Reads text.now d
        → report ≡ findings_of [] (unkept_checks d)) }
{
    if is_plain(alloc, text) {
        return Ok(Report::new(Findings::new(alloc)));
    }
    match Value::from_slice(alloc, text) {
        Ok(value) => inspect_value(alloc, &value),
        Err(error) => {
            if error.is_memory() {
                return Err(AllocError);
            }
            Ok(Report::new(Findings::new(alloc)))
        }
    }
}
