//! The box that the positions of a primitive are in.

ghost use Rattle.std.specs.Prelude.{◌≡◌, ◌∷◌, []};
ghost use Rattle.std.specs.Option.{option_map};
ghost use Rattle.serde_json.specs.View.{view};
ghost use Rattle.gltf_scene.specs.Bounds.{three_numbers};

use gltf_json::Value;

/// The least and the greatest of something.
#[derive(Clone, Copy, Debug, PartialEq)]
pub struct Bounds<T> {
    /// The least.
    pub min: T,
    /// The greatest.
    pub max: T,
}

/// The corners of a box, each three JSON numbers for x, y and z.
pub type BoundingBox<'a> = Bounds<[&'a Value; 3]>;

/// The numbers of a list of three numbers; None of any other value.
pub(crate) fn three_numbers(value: &Value) -> Option<(&Value, &Value, &Value)>
    ensures { option_map (λ c. view c.0.now ∷ view c.1.now ∷ view c.2.now ∷ []) result
        ≡ three_numbers (view value.now) }
{
    let [x, y, z] = value.as_array()?.as_slice() else {
        return None;
    };
    if x.is_number() && y.is_number() && z.is_number() {
        Some((x, y, z))
    } else {
        None
    }
}
