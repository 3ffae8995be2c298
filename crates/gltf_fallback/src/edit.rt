//! Edits of each item of a list.
ghost use Rattle.std.specs.Prelude.{◌≡◌, IfOk};
ghost use Rattle.serde_json.specs.Data.{Data};
ghost use Rattle.serde_json.specs.View.{view};
ghost use Rattle.gltf_edit.specs.Bundled.{each_item};
ghost use Rattle.gltf_fallback.specs.Lifted.{edited_list};

use gltf_edit::with_some;
use serde_json::Value;
use std::alloc::{AllocError, Global};

/// What an item becomes.
pub(crate) trait Edit {
    /// What its value becomes.
    ghost edited: { Self → Data → Data };

    /// The item, edited.
    fn edit(&self, alloc: Global, one: &Value) -> Result<Value, AllocError>
        ensures { IfOk result (λ v. view v ≡ edited self.now (view one.now)) };
}

/// A document with each item of a list of it edited, where there is that list.
pub(crate) fn edit_list<E: Edit>(
    alloc: Global,
    document: Value,
    name: &str,
    edit: &E,
) -> Result<Value, AllocError>
    ensures { IfOk result (λ v. view v
        ≡ edited_list name.now (E.edited edit.now) (view document)) }
{
    let list = match document.get(name) {
        Some(list) => Some(each_item(alloc, list, edit)?),
        None => None,
    };
    with_some(alloc, document, name, list)
}

/// A list with each item edited.
fn each_item<E: Edit>(alloc: Global, list: &Value, edit: &E) -> Result<Value, AllocError>
    ensures { IfOk result (λ v. view v ≡ each_item (E.edited edit.now) (view list.now)) }
{
    let Value::Array(items) = list else {
        return list.clone();
    };
    let mut all = Vec::with_capacity(alloc, items.len())?;
    for one in items.iter() {
        all.push(edit.edit(alloc, one)?)?;
    }
    Ok(Value::Array(all))
}
