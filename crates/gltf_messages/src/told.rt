//! What the findings of a report say, told one by one.
ghost use Rattle.std.specs.Prelude.{◌≡◌, [], OnOk};
ghost use Rattle.gltf_json_record.specs.Pointer.{pointer_text};
ghost use Rattle.gltf_messages.specs.Messages.{IsSaidOf, shown};

use crate::message::push_message;
use crate::pointer::push_pointer;
use gltf_findings::code::Code;
use gltf_json::root::Root;
use gltf_json_record::path::Path;
use serde_json::Value;
use std::alloc::{AllocError, Global};
use std::marker::Model;

/// The place and the message of the finding told last, in rooms that are used again for the next.
/// Contracts see the JSON Pointer of the place and the message.
#[derive(Debug, Drop)]
pub struct Told {
    pointer: String,
    says: String,
}

impl Model for Told {
    ghost use Rattle.std.specs.Prelude.{List, ℕ, string_bytes};

    ghost Value = { List ℕ × List ℕ };

    ghost view = { λ t. (string_bytes t.pointer, string_bytes t.says) };
}

impl Told {
    /// Nothing told yet. Takes no memory.
    pub fn new(alloc: Global) -> Told
        ensures { result ≡ ([], []) }
    {
        Told {
            pointer: String::new(alloc),
            says: String::new(alloc),
        }
    }

    /// Tells a finding, as [`message`](crate::message::message) tells it. Fails where there is no
    /// memory.
    pub fn tell(
        &mut self,
        alloc: Global,
        root: Option<&Root>,
        value: Option<&Value>,
        finding: &(Path, Code),
    ) -> Result<(), AllocError>
        ensures place { OnOk result (self.new.0 ≡ pointer_text finding.now.0) }
        ensures says { OnOk result (IsSaidOf finding.now.1 self.new.1) }
    {
        let (place, code) = finding;
        self.pointer.clear();
        push_pointer(place, &mut self.pointer)?;
        self.says.clear();
        let pointer = self.pointer.as_str();
        push_message(alloc, root, value, place, pointer, *code, &mut self.says)
    }

    /// The JSON Pointer of the place.
    pub fn pointer(&self) -> &str
        ensures { result.now ≡ self.now.0 }
    {
        self.pointer.as_str()
    }

    /// The JSON Pointer of the place; `-` for the whole document, whose pointer is empty.
    pub fn shown_pointer(&self) -> &str
        ensures { result.now ≡ shown self.now.0 }
    {
        let pointer = self.pointer.as_str();
        if pointer.is_empty() { "-" } else { pointer }
    }

    /// The message.
    pub fn says(&self) -> &str
        ensures { result.now ≡ self.now.1 }
    {
        self.says.as_str()
    }
}
