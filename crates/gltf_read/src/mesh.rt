//! Meshes, and readers of what their primitives hold (glTF 2.0, section 3.7.2, "Meshes").

ghost use Rattle.std.specs.Prelude.{◌≡◌};
ghost use Rattle.gltf_handles.specs.Lists.{position};
ghost use Rattle.gltf_json_geometry.specs.declared.semantic.Semantic.TheVariants as attributes;
ghost use Rattle.gltf_read.specs.Colors.{AreColors};
ghost use Rattle.gltf_read.specs.Indices.{AreIndices};
ghost use Rattle.gltf_read.specs.Joints.{AreJoints};
ghost use Rattle.gltf_read.specs.Reading.{AreItems, ReadsMember};
ghost use Rattle.gltf_read.specs.TexCoords.{AreTexCoords};
ghost use Rattle.gltf_read.specs.Weights.{AreWeights};
ghost use Rattle.gltf_scene.specs.Meshes.{primitive_handle};

use crate::mesh::util::{
    ReadColors, ReadIndices, ReadJoints, ReadMorphTargets, ReadNormals, ReadPositions,
    ReadTangents, ReadTexCoords, ReadWeights,
};
use crate::table;
use gltf_data::buffer::Buffer;
pub use gltf_scene::mesh::{
    Attribute, BoundingBox, Bounds, Mesh, Mode, MorphTarget, Primitive, Semantic, iter,
};
use std::marker::PhantomData;

/// What is read of a primitive and of its morph targets, under the names of the Rust crate.
pub mod util {
    pub use crate::morph_targets::{ReadMorphTarget, ReadMorphTargets};
    pub use gltf_casting::mesh::util::{
        ReadColors, ReadIndices, ReadJoints, ReadNormalDisplacements, ReadNormals,
        ReadPositionDisplacements, ReadPositions, ReadTangentDisplacements, ReadTangents,
        ReadTexCoords, ReadWeights, colors, indices, joints, tex_coords, weights,
    };
}

/// Reads what a primitive holds, over the bytes that a closure gives for buffers.
#[derive_where(Clone)]
#[derive(Drop)]
pub struct Reader<'a, 's, F> {
    primitive: Primitive<'a>,
    get_buffer_data: &'a F,
    bytes: PhantomData<&'s u8>,
}

impl<'a, 's, F: Fn(Buffer) -> Option<&'s [u8]>> Reader<'a, 's, F> {
    ghost use Rattle.gltf_read.specs.MorphTargets as targets;
    ghost use Rattle.gltf_read.specs.Primitives.{primitive_of, closure_of, attribute};
    ghost use Rattle.gltf_scene.specs.Primitives.{AreMorphTargets};

    /// A reader of a primitive. The closure gives the bytes of buffers; each reading asks it anew.
    pub fn new(primitive: &Primitive<'a>, get_buffer_data: &'a F) -> Self
        ensures primitive { primitive_of result ≡ primitive_handle primitive.now }
        ensures closure { closure_of result ≡ get_buffer_data.now }
    {
        Reader {
            primitive: *primitive,
            get_buffer_data,
            bytes: PhantomData,
        }
    }

    /// Positions of vertices: `POSITION`. None where the primitive has no such attribute, or its
    /// accessor cannot be read as that. The same holds of each reading below.
    ///
    /// It looks at the bytes of an item alone; [`crate::typed::read_positions`] at the type too.
    pub fn read_positions(&self) -> Option<ReadPositions<'s>>
        requires { F.IsAlwaysCallable (closure_of self.now) }
        ensures { let p = primitive_of self.now in
            ReadsMember AreItems (λ b o. F.post (closure_of self.now) b o) p.document
            (attribute p attributes.Positions) result }
    {
        table::items(
            self.primitive.get(&Semantic::Positions)?,
            self.get_buffer_data,
        )
    }

    /// Normals of vertices: `NORMAL`.
    pub fn read_normals(&self) -> Option<ReadNormals<'s>>
        requires { F.IsAlwaysCallable (closure_of self.now) }
        ensures { let p = primitive_of self.now in
            ReadsMember AreItems (λ b o. F.post (closure_of self.now) b o) p.document
            (attribute p attributes.Normals) result }
    {
        table::items(
            self.primitive.get(&Semantic::Normals)?,
            self.get_buffer_data,
        )
    }

    /// Tangents of vertices: `TANGENT`.
    pub fn read_tangents(&self) -> Option<ReadTangents<'s>>
        requires { F.IsAlwaysCallable (closure_of self.now) }
        ensures { let p = primitive_of self.now in
            ReadsMember AreItems (λ b o. F.post (closure_of self.now) b o) p.document
            (attribute p attributes.Tangents) result }
    {
        table::items(
            self.primitive.get(&Semantic::Tangents)?,
            self.get_buffer_data,
        )
    }

    /// Colours of vertices: `COLOR_0` and so on.
    pub fn read_colors(&self, set: u32) -> Option<ReadColors<'s>>
        requires { F.IsAlwaysCallable (closure_of self.now) }
        ensures { let p = primitive_of self.now in
            ReadsMember AreColors (λ b o. F.post (closure_of self.now) b o) p.document
            (attribute p (attributes.Colors set)) result }
    {
        table::colors(
            self.primitive.get(&Semantic::Colors(set))?,
            self.get_buffer_data,
        )
    }

    /// Indices of vertices: `indices`.
    pub fn read_indices(&self) -> Option<ReadIndices<'s>>
        requires { F.IsAlwaysCallable (closure_of self.now) }
        ensures { let p = primitive_of self.now in
            ReadsMember AreIndices (λ b o. F.post (closure_of self.now) b o) p.document
            p.json.indices result }
    {
        table::indices(self.primitive.indices()?, self.get_buffer_data)
    }

    /// Joints of vertices: `JOINTS_0` and so on.
    pub fn read_joints(&self, set: u32) -> Option<ReadJoints<'s>>
        requires { F.IsAlwaysCallable (closure_of self.now) }
        ensures { let p = primitive_of self.now in
            ReadsMember AreJoints (λ b o. F.post (closure_of self.now) b o) p.document
            (attribute p (attributes.Joints set)) result }
    {
        table::joints(
            self.primitive.get(&Semantic::Joints(set))?,
            self.get_buffer_data,
        )
    }

    /// Texture coordinates of vertices: `TEXCOORD_0` and so on.
    pub fn read_tex_coords(&self, set: u32) -> Option<ReadTexCoords<'s>>
        requires { F.IsAlwaysCallable (closure_of self.now) }
        ensures { let p = primitive_of self.now in
            ReadsMember AreTexCoords (λ b o. F.post (closure_of self.now) b o) p.document
            (attribute p (attributes.TexCoords set)) result }
    {
        table::tex_coords(
            self.primitive.get(&Semantic::TexCoords(set))?,
            self.get_buffer_data,
        )
    }

    /// Weights of the joints of vertices: `WEIGHTS_0` and so on.
    pub fn read_weights(&self, set: u32) -> Option<ReadWeights<'s>>
        requires { F.IsAlwaysCallable (closure_of self.now) }
        ensures { let p = primitive_of self.now in
            ReadsMember AreWeights (λ b o. F.post (closure_of self.now) b o) p.document
            (attribute p (attributes.Weights set)) result }
    {
        table::weights(
            self.primitive.get(&Semantic::Weights(set))?,
            self.get_buffer_data,
        )
    }

    /// What each morph target adds to the vertices, in stored order; each is read as it is reached.
    pub fn read_morph_targets(&self) -> ReadMorphTargets<'a, 's, F>
        ensures targets { AreMorphTargets (primitive_of self.now) (targets.targets_left result) }
        ensures closure { targets.closure_of result ≡ closure_of self.now }
    {
        ReadMorphTargets::new(self.primitive.morph_targets(), self.get_buffer_data)
    }
}
