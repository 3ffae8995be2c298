//! Edits of JSON values, made of smaller ones.
ghost use Rattle.std.specs.Prelude.{◌≡◌, IfOk, option_map};
ghost use Rattle.serde_json.specs.View.{view};
ghost use Rattle.gltf_edit.specs.Bundled.{each_item};
ghost use Rattle.gltf_mend.specs.Edits.{changed};

use gltf_edit::with_some;
use serde_json::Value;
use std::alloc::{AllocError, Global};

/// An edit of a value.
pub(crate) trait Edit {
    ghost use Rattle.std.specs.Prelude.{◌≡◌, IfOk};
    ghost use Rattle.serde_json.specs.Data.{Data};
    ghost use Rattle.serde_json.specs.View.{view};

    /// What becomes of a value.
    ghost edited: { Self → Data → Data };

    /// The edited value.
    fn edit(&self, alloc: Global, value: &Value) -> Result<Value, AllocError>
        ensures { IfOk result (λ v. view v ≡ edited self.now (view value.now)) };
}

/// An edit of each item, where a value is an array.
#[derive(Drop)]
pub(crate) struct Each<E>(pub(crate) E);

impl<E: Edit> Edit for Each<E> {
    ghost edited = { λ each d. each_item (E.edited each.0) d };

    fn edit(&self, alloc: Global, value: &Value) -> Result<Value, AllocError> {
        let Value::Array(list) = value else {
            return value.clone();
        };
        let mut all = Vec::with_capacity(alloc, list.len())?;
        for item in list {
            all.push(self.0.edit(alloc, item)?)?;
        }
        Ok(Value::Array(all))
    }
}

/// An edit of a member, where it is there.
#[derive(Drop)]
pub(crate) struct At<E> {
    pub(crate) name: &'static str,
    pub(crate) edit: E,
}

impl<E: Edit> Edit for At<E> {
    ghost edited = { λ at d. changed at.name.now (E.edited at.edit) d };

    fn edit(&self, alloc: Global, value: &Value) -> Result<Value, AllocError> {
        changed(alloc, value.clone()?, self.name, &self.edit)
    }
}

/// The value with an edit of a member, where it is there.
pub(crate) fn changed<E: Edit>(
    alloc: Global,
    value: Value,
    name: &str,
    edit: &E,
) -> Result<Value, AllocError>
    ensures { IfOk result (λ v. view v ≡ changed name.now (E.edited edit.now) (view value)) }
{
    let member = match value.get(name) {
        Some(member) => Some(edit.edit(alloc, member)?),
        None => None,
    };
    with_some(alloc, value, name, member)
}
