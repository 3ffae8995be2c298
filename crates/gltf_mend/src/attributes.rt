//! The attributes of a primitive (glTF 2.0, section 3.7.2.1).
ghost use Rattle.std.specs.Prelude.{◌≡◌, IfOk, IsTrue};
ghost use Rattle.serde_json.specs.View.{view};
ghost use Rattle.gltf_mend.specs.Attributes.{is_attribute, with_attributes};

use crate::edit::Edit;
use gltf_edit::without_member;
use gltf_json_geometry::mesh::Semantic;
use serde_json::Value;
use std::alloc::{AllocError, Global};

/// The attributes whose names the standard has or leaves to applications.
#[derive(Drop)]
pub(crate) struct WithAttributes;

impl Edit for WithAttributes {
    ghost edited = { λ _ d. with_attributes d };

    fn edit(&self, alloc: Global, value: &Value) -> Result<Value, AllocError> {
        let mut left = value.clone()?;
        let Some(members) = value.as_object() else {
            return Ok(left);
        };
        for name in members.keys() {
            if !is_attribute(alloc, name)? {
                left = without_member(left, name);
            }
        }
        Ok(left)
    }
}

/// Whether an attribute may have this name.
fn is_attribute(alloc: Global, name: &str) -> Result<bool, AllocError>
    ensures { IfOk result (λ may. may ≡ is_attribute name.now) }
{
    Ok(name.starts_with("_") || Semantic::of_name(alloc, name)?.is_some())
}
