//! The JSON Pointer (RFC 6901) of a part of a document.
ghost use Rattle.std.specs.Prelude.{◌≡◌, ◌++◌, IfOk, OnOk, string_bytes};
ghost use Rattle.gltf_json_record.specs.Place.{place_of};
ghost use Rattle.gltf_json_record.specs.Pointer.{escaped, reference_token, pointer_text};

use crate::path::{Path, Step};
use std::alloc::{AllocError, Global};

impl Path {
    /// The JSON Pointer of the part (RFC 6901, sections 3 to 5), as
    /// `/meshes/0/primitives/1/attributes/_A~1B`. Each step is a `/` and its reference token: a
    /// name with `~0` for each `~` and `~1` for each `/`, or an index in decimal digits. The
    /// pointer of the whole document is empty. It fails only where there is no memory.
    pub fn pointer(&self, alloc: Global) -> Result<String, AllocError>
        ensures { IfOk result (λ text. string_bytes text ≡ pointer_text self.now) }
    {
        let mut text = String::new(alloc);
        for step in self.steps() {
            text.push_str("/")?;
            push_token(&mut text, step)?;
        }
        Ok(text)
    }
}

// Appends the reference token of a step.
fn push_token(text: &mut String, step: &Step) -> Result<(), AllocError>
    ensures { OnOk result
        (string_bytes text.new ≡ string_bytes text.old ++ reference_token (place_of step.now)) }
{
    match step {
        Step::Member(name) => push_escaped(text, name),
        Step::Item(index) => write!(text, "{index}"),
        Step::Attribute(name) => push_escaped(text, name),
    }
}

// Appends a name as a reference token.
fn push_escaped(text: &mut String, name: &str) -> Result<(), AllocError>
    ensures { OnOk result (string_bytes text.new ≡ string_bytes text.old ++ escaped name.now) }
{
    for c in name.chars() {
        match c {
            '~' => text.push_str("~0")?,
            '/' => text.push_str("~1")?,
            c => text.push(c)?,
        }
    }
    Ok(())
}
