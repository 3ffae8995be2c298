//! The images of textures (glTF 2.0, section 5.29).
ghost use Rattle.std.specs.Prelude.{◌≡◌, IfOk, map};
ghost use Rattle.serde_json.specs.View.{view};
ghost use Rattle.gltf_mend.specs.Textures.{source_in, first_source, with_source};

use crate::edit::Edit;
use gltf_edit::with_some;
use gltf_json_record::read::member;
use serde_json::Value;
use std::alloc::{AllocError, Global};

/// A texture with an image, where it has none and one of these extensions names one.
#[derive(Drop)]
pub(crate) struct Sourced<'a> {
    pub(crate) names: &'a [&'a str],
}

impl Edit for Sourced<'_> {
    ghost edited = { λ s d. with_source (map (λ n. n.now) s.names.now) d };

    fn edit(&self, alloc: Global, value: &Value) -> Result<Value, AllocError> {
        let copy = value.clone()?;
        if member(value, "source").is_some() {
            return Ok(copy);
        }
        with_some(
            alloc,
            copy,
            "source",
            first_source(value, self.names).map(Value::from),
        )
    }
}

/// The image that the first of these extensions names which names one.
fn first_source(texture: &Value, names: &[&str]) -> Option<u64>
    ensures { result ≡ first_source (map (λ n. n.now) names.now) (view texture.now) }
{
    for name in names {
        if let Some(source) = source_in(texture, name) {
            return Some(source);
        }
    }
    None
}

/// The image that an extension of a texture names.
fn source_in(texture: &Value, name: &str) -> Option<u64>
    ensures { result ≡ source_in name.now (view texture.now) }
{
    texture
        .get("extensions")?
        .get(name)?
        .get("source")?
        .as_u64()
}
