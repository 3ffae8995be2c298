//! The points of a primitive.

ghost use Rattle.std.specs.Prelude.{◌≡◌};
ghost use Rattle.std.specs.Option.{option_map};
ghost use Rattle.gltf_geometry.specs.Vertices.{in_order};
ghost use Rattle.gltf_geometry.specs.Items.{items_left};
ghost use Rattle.gltf_geometry.specs.Modes.{points_of};

use crate::items::{Items, Sequence};
use crate::vertices::Vertices;
use gltf_json_geometry::mesh::Mode;

/// Vertices as points.
#[derive(Clone, Copy, Debug)]
pub struct PointSequence<'a> {
    vertices: Vertices<'a>,
}

impl Sequence for PointSequence<'_> {
    type Item = u32;

    ghost list = { λ s. in_order s.vertices };

    fn len(&self) -> usize {
        self.vertices.len()
    }

    fn get(&self, index: usize) -> u32 {
        self.vertices.at(index)
    }
}

/// Points, each as its vertex.
pub type Points<'a> = Items<PointSequence<'a>>;

/// The points that vertices are under the mode `POINTS` (glTF 2.0, section 3.7.2.1); None under
/// another mode.
pub fn points<'a>(mode: Mode, vertices: Vertices<'a>) -> Option<Points<'a>>
    ensures { option_map items_left result ≡ points_of mode (in_order vertices.entry) }
{
    match mode {
        Mode::Points => Some(Items::new(PointSequence { vertices })),
        _ => None,
    }
}
