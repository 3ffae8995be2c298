//! The vertices of a primitive, in order.

ghost use Rattle.std.specs.Prelude.{◌≡◌, ◌≢◌, ◌<◌, ◌↔◌, All, IsTrue, length, slice_index};
ghost use Rattle.gltf_geometry.specs.Vertices.{restart_of};

use gltf_json_geometry::accessor::ComponentType;

/// The vertices of a primitive in the order in which they are joined (glTF 2.0, section 3.7.2.1).
#[derive(Clone, Copy, Debug)]
pub enum Vertices<'a> {
    /// Those that indices name: `indices`.
    Indices(&'a [u32]),
    /// Vertices 0, 1, 2 and so on below a count, of a primitive without indices. The count is that
    /// of its attributes.
    Count(u32),
}

/// The index at a position.
fn index_at(indices: &[u32], position: usize) -> u32
    requires { position < length indices.now }
    ensures { result ≡ slice_index indices.now position }
{
    indices[position]
}

impl<'a> Vertices<'a> {
    ghost use Rattle.gltf_geometry.specs.Vertices.{in_order};

    /// How many there are.
    pub fn len(&self) -> usize
        ensures { result ≡ length (in_order self.now) }
    {
        match self {
            Vertices::Indices(indices) => indices.len(),
            Vertices::Count(count) => *count as usize,
        }
    }

    /// The vertex at a position below their number.
    pub fn at(&self, position: usize) -> u32
        requires { position < length (in_order self.now) }
        ensures { result ≡ slice_index (in_order self.now) position }
    {
        match self {
            Vertices::Indices(indices) => index_at(indices, position),
            Vertices::Count(count) => {
                prove!(position < *count as usize);
                position as u32
            }
        }
    }
}

/// Whether each index is below a count, that of `POSITION` (glTF 2.0, section 3.7.2.1: indices name
/// elements of the attributes).
pub fn indices_in_range(indices: &[u32], count: usize) -> bool
    ensures { IsTrue result ↔ All (λ index. index < count) indices.now }
{
    indices.iter().all(|index| (*index as usize) < count)
}

/// The index that restarts a primitive in interfaces of graphics: the greatest of its type, which
/// no index may be (glTF 2.0, section 3.7.2.1). None of types that indices do not have.
pub fn restart_index(component: ComponentType) -> Option<u32>
    ensures { result ≡ restart_of component }
{
    match component {
        ComponentType::U8 => Some(255),
        ComponentType::U16 => Some(65535),
        ComponentType::U32 => Some(4294967295),
        _ => None,
    }
}

/// Whether no index is the one that restarts a primitive, as [`restart_index`] gives it.
pub fn none_restarts(indices: &[u32], restart: u32) -> bool
    ensures { IsTrue result ↔ All (λ index. index ≢ restart) indices.now }
{
    indices.iter().all(|index| *index != restart)
}
