//! The triangles of a primitive.

ghost use Rattle.std.specs.Prelude.{◌≡◌, ◌<◌};
ghost use Rattle.std.specs.Option.{option_map};
ghost use Rattle.gltf_geometry.specs.Vertices.{in_order};
ghost use Rattle.gltf_geometry.specs.Items.{items_left};
ghost use Rattle.gltf_geometry.specs.Modes.{triangles_of};

use crate::items::{Items, Sequence};
use crate::vertices::Vertices;
use gltf_json_geometry::mesh::Mode;

/// How triangles share vertices.
#[derive(Clone, Copy, Debug)]
pub(crate) enum TriangleTopology {
    /// They do not.
    Separate,
    /// Each with the one before it.
    Strip,
    /// Each with the one before it, and all of them the first vertex.
    Fan,
}

impl TriangleTopology {
    ghost use Rattle.gltf_geometry.specs.Topologies.{triangle_count, corners};

    /// How many triangles so many vertices make up.
    fn count(self, vertices: usize) -> usize
        ensures { result ≡ triangle_count self vertices }
    {
        match self {
            TriangleTopology::Separate => vertices / 3,
            TriangleTopology::Strip | TriangleTopology::Fan => vertices.saturating_sub(2),
        }
    }

    /// The positions of the vertices of a triangle, of so many vertices.
    fn corners(self, vertices: usize, index: usize) -> (usize, usize, usize)
        requires { index < triangle_count self vertices }
        ensures corners { result ≡ corners self index }
        ensures first { result.0 < vertices }
        ensures second { result.1 < vertices }
        ensures third { result.2 < vertices }
    {
        match self {
            TriangleTopology::Separate => (3 * index, 3 * index + 1, 3 * index + 2),
            TriangleTopology::Strip => (index, index + (1 + index % 2), index + (2 - index % 2)),
            TriangleTopology::Fan => (index + 1, index + 2, 0),
        }
    }
}

/// The triangles of some vertices.
#[derive(Clone, Copy, Debug)]
pub struct TriangleSequence<'a> {
    vertices: Vertices<'a>,
    topology: TriangleTopology,
}

impl Sequence for TriangleSequence<'_> {
    ghost use Rattle.gltf_geometry.specs.Topologies.{triangles_by};

    type Item = [u32; 3];

    ghost list = { λ s. triangles_by s.topology (in_order s.vertices) };

    fn len(&self) -> usize {
        self.topology.count(self.vertices.len())
    }

    fn get(&self, index: usize) -> [u32; 3] {
        let (first, second, third) = self.topology.corners(self.vertices.len(), index);
        [
            self.vertices.at(first),
            self.vertices.at(second),
            self.vertices.at(third),
        ]
    }
}

/// Triangles, each as its three vertices.
pub type Triangles<'a> = Items<TriangleSequence<'a>>;

/// The triangles that vertices make up under a mode of triangles, each in the order of its winding
/// (glTF 2.0, section 3.7.2.1); None under another mode. One or two vertices that are left over
/// make up no triangle.
pub fn triangles<'a>(mode: Mode, vertices: Vertices<'a>) -> Option<Triangles<'a>>
    ensures { option_map items_left result ≡ triangles_of mode (in_order vertices.entry) }
{
    let topology = match mode {
        Mode::Triangles => TriangleTopology::Separate,
        Mode::TriangleStrip => TriangleTopology::Strip,
        Mode::TriangleFan => TriangleTopology::Fan,
        Mode::Points | Mode::Lines | Mode::LineLoop | Mode::LineStrip => return None,
    };
    Some(Items::new(TriangleSequence { vertices, topology }))
}
