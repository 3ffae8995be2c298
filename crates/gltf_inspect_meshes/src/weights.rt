//! Weights of morph targets (glTF 2.0, section 3.7.2.2).
ghost use Rattle.std.specs.Prelude.{◌≡◌};
ghost use Rattle.serde_json.specs.View.{view};
ghost use Rattle.gltf_inspect_meshes.specs.Weights.{is_list_of};

use serde_json::Value;

/// Whether a list has so many elements. What is no list is not asked.
pub fn is_list_of(count: usize, value: &Value) -> bool
    ensures { result ≡ is_list_of count (view value.now) }
{
    match value.as_array() {
        None => true,
        Some(list) => list.as_slice().len() == count,
    }
}
