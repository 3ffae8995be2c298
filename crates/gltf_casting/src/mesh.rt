//! What is read of meshes (glTF 2.0, section 3.7.2, "Meshes"), under the names of the Rust crate.

/// What is read of a primitive and of its morph targets.
pub mod util {
    pub use crate::colors::{self, ReadColors};
    pub use crate::indices::{self, ReadIndices};
    pub use crate::joints::{self, ReadJoints};
    pub use crate::tex_coords::{self, ReadTexCoords};
    pub use crate::weights::{self, ReadWeights};
    use gltf_data::accessor::Iter;
    use gltf_items::F32;

    /// Positions of vertices: x, y and z.
    pub type ReadPositions<'a> = Iter<'a, [F32; 3]>;

    /// Normals of vertices: x, y and z.
    pub type ReadNormals<'a> = Iter<'a, [F32; 3]>;

    /// Tangents of vertices: x, y, z and w, where w is the sign of the bitangent.
    pub type ReadTangents<'a> = Iter<'a, [F32; 4]>;

    /// What a morph target adds to positions: x, y and z.
    pub type ReadPositionDisplacements<'a> = Iter<'a, [F32; 3]>;

    /// What a morph target adds to normals: x, y and z.
    pub type ReadNormalDisplacements<'a> = Iter<'a, [F32; 3]>;

    /// What a morph target adds to tangents: x, y and z.
    pub type ReadTangentDisplacements<'a> = Iter<'a, [F32; 3]>;
}
