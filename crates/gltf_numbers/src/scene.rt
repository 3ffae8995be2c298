//! The numbers of nodes (glTF 2.0, section 3.5, "Scenes").

ghost use Rattle.gltf_numbers.specs.Scenes.{transform_numbers};

use crate::defaults::{ROTATION, SCALE, TRANSLATION};
use crate::of_handles::Numbers;
use crate::value::{numbers, numbers_or};
use gltf_scene::scene as handles;

/// Where a node is in the space of its parent, in numbers (glTF 2.0, section 3.5.3,
/// "Transformations").
#[derive(Clone, Copy, Debug)]
pub enum Transform {
    /// By a matrix: `matrix`, its numbers column by column.
    Matrix([f64; 16]),
    /// By a scale, then a rotation, then a translation.
    Decomposed {
        /// The translation along x, y and z, in metres: `translation`, by default 0 each.
        translation: [f64; 3],
        /// The rotation as a unit quaternion x, y, z, w: `rotation`, by default 0, 0, 0 and 1.
        rotation: [f64; 4],
        /// The scale along x, y and z: `scale`, by default 1 each.
        scale: [f64; 3],
    },
}

impl Numbers for handles::Transform<'_> {
    type Numbers = Transform;

    ghost of = { transform_numbers };

    fn numbers(&self) -> Option<Transform> {
        match *self {
            handles::Transform::Matrix { matrix } => Some(Transform::Matrix(numbers(matrix)?)),
            handles::Transform::Decomposed {
                translation,
                rotation,
                scale,
            } => Some(Transform::Decomposed {
                translation: numbers_or(translation, TRANSLATION)?,
                rotation: numbers_or(rotation, ROTATION)?,
                scale: numbers_or(scale, SCALE)?,
            }),
        }
    }
}
