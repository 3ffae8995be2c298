//! Documents in which views and buffers are again what they were.
ghost use Rattle.std.specs.Prelude.{◌≡◌, IfOk, option_map};
ghost use Rattle.serde_json.specs.View.{view, items_view};
ghost use Rattle.gltf_edit.specs.Embedded.{items_at};
ghost use Rattle.gltf_fallback.specs.Lifted.{lowered, lowered_view, lowered_buffer, with_bare};

use crate::OWN;
use crate::bare::bare_in;
use crate::edit::{Edit, edit_list};
use gltf_edit::with_some;
use serde_json::Value;
use std::alloc::{AllocError, Global};

/// The document in which the views and the buffers that [`lifted`](crate::lifted) changed are what
/// they were, with the extensions that a view has now.
pub fn lowered(alloc: Global, document: Value) -> Result<Value, AllocError>
    ensures { IfOk result (λ v. view v ≡ lowered (view document)) }
{
    let document = edit_list(alloc, document, "buffers", &Buffers)?;
    edit_list(alloc, document, "bufferViews", &Views)
}

/// Buffers.
#[derive(Drop)]
struct Buffers;

impl Edit for Buffers {
    ghost edited = { λ _. lowered_buffer };

    fn edit(&self, alloc: Global, one: &Value) -> Result<Value, AllocError> {
        match one.get(OWN) {
            Some(kept) => kept.clone(),
            None => one.clone(),
        }
    }
}

/// Views.
#[derive(Drop)]
struct Views;

impl Edit for Views {
    ghost edited = { λ _. lowered_view };

    fn edit(&self, alloc: Global, one: &Value) -> Result<Value, AllocError> {
        let Some(kept) = one.get(OWN) else {
            return one.clone();
        };
        let extensions = match one.get("extensions") {
            Some(extensions) => Some(extensions.clone()?),
            None => None,
        };
        with_some(alloc, kept.clone()?, "extensions", extensions)
    }
}

/// The document with the buffers that have no bytes of another one behind its own.
pub fn with_bare(alloc: Global, document: Value, from: &Value) -> Result<Value, AllocError>
    ensures { IfOk result (λ v. view v ≡ with_bare (view from.now) (view document)) }
{
    let mut bare = bare_in(alloc, from)?;
    let mut all = items_at(alloc, &document, "buffers")?;
    all.append(&mut bare)?;
    with_some(alloc, document, "buffers", Some(Value::Array(all)))
}

/// The items of a list, none where it is absent.
fn items_at(alloc: Global, document: &Value, name: &str) -> Result<Vec<Value>, AllocError>
    ensures { IfOk result (λ all. items_view all.items ≡ items_at name.now (view document.now)) }
{
    let Some(list) = document.get(name) else {
        return Ok(Vec::new(alloc));
    };
    match list.clone()? {
        Value::Array(list) => Ok(list),
        _ => Ok(Vec::new(alloc)),
    }
}
