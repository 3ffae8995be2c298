//! The JSON Pointer of a place, appended to a text.
ghost use Rattle.std.specs.Prelude.{◌≡◌, ◌++◌, OnOk, string_bytes};
ghost use Rattle.gltf_json_record.specs.Place.{place_of};
ghost use Rattle.gltf_json_record.specs.Pointer.{escaped, reference_token, pointer_text};

use gltf_json_record::path::{Path, Step};
use std::alloc::AllocError;

/// Appends the JSON Pointer of a place, as [`Path::pointer`] gives it. Fails where there is no
/// memory.
pub(crate) fn push_pointer(place: &Path, text: &mut String) -> Result<(), AllocError>
    ensures { OnOk result
        (string_bytes text.new ≡ string_bytes text.old ++ pointer_text place.now) }
{
    for step in place.steps() {
        text.push_str("/")?;
        push_token(step, text)?;
    }
    Ok(())
}

fn push_token(step: &Step, text: &mut String) -> Result<(), AllocError>
    ensures { OnOk result
        (string_bytes text.new ≡ string_bytes text.old ++ reference_token (place_of step.now)) }
{
    match step {
        Step::Member(name) => push_escaped(name, text),
        Step::Item(index) => write!(text, "{index}"),
        Step::Attribute(name) => push_escaped(name, text),
    }
}

fn push_escaped(name: &str, text: &mut String) -> Result<(), AllocError>
    ensures { OnOk result (string_bytes text.new ≡ string_bytes text.old ++ escaped name.now) }
{
    for c in name.chars() {
        match c {
            '~' => text.push_str("~0")?,
            '/' => text.push_str("~1")?,
            c => text.push(c)?,
        }
    }
    Ok(())
}
