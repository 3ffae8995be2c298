//! Lists of a document.
ghost use Rattle.std.specs.Prelude.{◌≡◌};
ghost use Rattle.serde_json.specs.View.{view, items_view};
ghost use Rattle.gltf_edit.specs.Embedded.{items_at};

use serde_json::Value;

/// The elements of a list, none where it is absent.
pub(crate) fn list_at<'a>(document: &'a Value, name: &str) -> &'a [Value]
    ensures { items_view result.now ≡ items_at name.now (view document.now) }
{
    match document.get(name) {
        Some(Value::Array(list)) => list.as_slice(),
        _ => &[],
    }
}
