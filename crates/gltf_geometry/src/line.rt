//! The lines of a primitive.

ghost use Rattle.std.specs.Prelude.{◌≡◌, ◌<◌};
ghost use Rattle.std.specs.Option.{option_map};
ghost use Rattle.gltf_geometry.specs.Vertices.{in_order};
ghost use Rattle.gltf_geometry.specs.Items.{items_left};
ghost use Rattle.gltf_geometry.specs.Modes.{lines_of};

use crate::items::{Items, Sequence};
use crate::vertices::Vertices;
use gltf_json_geometry::mesh::Mode;

/// How lines share vertices.
#[derive(Clone, Copy, Debug)]
pub(crate) enum LineTopology {
    /// They do not.
    Separate,
    /// Each with the one before it.
    Strip,
    /// Each with the one before it, and the last with the first.
    Loop,
}

impl LineTopology {
    ghost use Rattle.gltf_geometry.specs.Topologies.{line_count, ends};

    /// How many lines so many vertices make up.
    fn count(self, vertices: usize) -> usize
        ensures { result ≡ line_count self vertices }
    {
        match self {
            LineTopology::Separate => vertices / 2,
            LineTopology::Strip => vertices.saturating_sub(1),
            LineTopology::Loop => { if vertices < 2 { 0 } else { vertices } }
        }
    }

    /// The positions of the vertices of a line, of so many vertices.
    fn ends(self, vertices: usize, index: usize) -> (usize, usize)
        requires { index < line_count self vertices }
        ensures ends { result ≡ ends self vertices index }
        ensures first { result.0 < vertices }
        ensures second { result.1 < vertices }
    {
        match self {
            LineTopology::Separate => (2 * index, 2 * index + 1),
            LineTopology::Strip => (index, index + 1),
            LineTopology::Loop => {
                if index + 1 == vertices {
                    (index, 0)
                } else {
                    (index, index + 1)
                }
            }
        }
    }
}

/// The lines of some vertices.
#[derive(Clone, Copy, Debug)]
pub struct LineSequence<'a> {
    vertices: Vertices<'a>,
    topology: LineTopology,
}

impl Sequence for LineSequence<'_> {
    ghost use Rattle.gltf_geometry.specs.Topologies.{lines_by};

    type Item = [u32; 2];

    ghost list = { λ s. lines_by s.topology (in_order s.vertices) };

    fn len(&self) -> usize {
        self.topology.count(self.vertices.len())
    }

    fn get(&self, index: usize) -> [u32; 2] {
        let (first, second) = self.topology.ends(self.vertices.len(), index);
        [self.vertices.at(first), self.vertices.at(second)]
    }
}

/// Lines, each as its two vertices.
pub type Lines<'a> = Items<LineSequence<'a>>;

/// The lines that vertices make up under a mode of lines, each from its first vertex to its second
/// one (glTF 2.0, section 3.7.2.1); None under another mode. One vertex alone makes up no line, not
/// even a loop, and neither does the last of an odd number of them under `LINES`.
pub fn lines<'a>(mode: Mode, vertices: Vertices<'a>) -> Option<Lines<'a>>
    ensures { option_map items_left result ≡ lines_of mode (in_order vertices.entry) }
{
    let topology = match mode {
        Mode::Lines => LineTopology::Separate,
        Mode::LineStrip => LineTopology::Strip,
        Mode::LineLoop => LineTopology::Loop,
        Mode::Points | Mode::Triangles | Mode::TriangleStrip | Mode::TriangleFan => return None,
    };
    Some(Items::new(LineSequence { vertices, topology }))
}
