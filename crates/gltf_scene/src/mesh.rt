//! Meshes, their primitives and morph targets (glTF 2.0, section 3.7, "Geometry").

mod bounds;
pub mod iter;

ghost use Rattle.std.specs.Prelude.{◌≡◌, ◌<◌, length};
ghost use Rattle.std.specs.BTreeMap.{get_by};
ghost use Rattle.std.specs.Option.{option_copied, option_map};
ghost use Rattle.gltf_handles.specs.Accessors.{IsAccessor};
ghost use Rattle.gltf_handles.specs.Lists.{position};
ghost use Rattle.gltf_handles.specs.Members.{text, unknown_extensions, extension_named};
ghost use Rattle.gltf_handles.specs.Members.{Follows, FollowsOr, IsCode};
ghost use Rattle.gltf_json_geometry.specs.Semantics.{semantic_cmp};
ghost use Rattle.gltf_material.specs.Materials.{IsMaterial, IsDefaultMaterial};

use crate::mesh::bounds::three_numbers;
pub use crate::mesh::bounds::{BoundingBox, Bounds};
use crate::mesh::iter::{
    Attributes, Mappings, MappingsOf, MorphTargets, MorphTargetsOf, Primitives, PrimitivesOf,
};
use gltf_handles::accessor::Accessor;
use gltf_handles::inner::Inner;
use gltf_handles::list::List;
use gltf_handles::member::{meaning, unknown_extensions};
use gltf_json::boxed::lent;
pub use gltf_json::mesh::{Mode, Semantic};
use gltf_json::{Map, Value, kinds, mesh};
use gltf_json_geometry::laws::order_is_the_stated_one;
use gltf_material::material::Material;
use gltf_rules::{Records, Valid};

/// An attribute of a primitive: what it means, and its accessor.
pub type Attribute<'a, D = Valid> = (&'a Semantic, Accessor<'a, D>);

/// A set of primitives (glTF 2.0, section 5.23, "Mesh").
#[derive_where(Clone, Copy)]
#[derive_where(Debug; D)]
pub struct Mesh<'a, D: Records = Valid> {
    index: usize,
    inner: Inner<'a, mesh::Mesh, D>,
}

impl<'a, D: Records> Mesh<'a, D> {
    ghost use Rattle.gltf_scene.specs.Meshes.{mesh_handle, IsMesh};
    ghost use Rattle.gltf_scene.specs.Primitives.{ArePrimitives};

    /// The mesh at an index below the number of meshes.
    pub fn new(document: &'a D, index: usize) -> Self
        requires { index < length (D.root document.now).meshes.items }
        ensures { IsMesh (D.root document.now) index result }
    {
        Mesh {
            index,
            inner: Inner {
                document,
                json: document.get::<kinds::Mesh>(index),
            },
        }
    }

    /// The position among the meshes of the document.
    pub fn index(&self) -> usize
        ensures { result ≡ (mesh_handle self.now).index }
    {
        self.index
    }

    /// The name given by the user.
    pub fn name(&self) -> Option<&'a str>
        ensures { option_copied result ≡ text (mesh_handle self.now).json.name }
    {
        self.inner.json.name.as_deref()
    }

    /// The primitives, in stored order.
    pub fn primitives(&self) -> Primitives<'a, D>
        ensures { ArePrimitives (mesh_handle self.now) (position result) }
    {
        List::new(PrimitivesOf { mesh: *self })
    }

    /// The weights of the morph targets, as they stand: `weights`, a list of numbers.
    pub fn weights(&self) -> Option<&'a Value>
        ensures { option_copied result ≡ (mesh_handle self.now).json.weights }
    {
        self.inner.json.weights.as_ref()
    }

    /// The extensions, none of which is known at a mesh; None where there is no member
    /// `extensions`.
    pub fn extensions(&self) -> Option<&'a Map<String, Value>>
        ensures { option_copied result
            ≡ unknown_extensions (mesh_handle self.now).json.extensions }
    {
        unknown_extensions(&self.inner.json.extensions)
    }

    /// The extension of this name.
    pub fn extension_value(&self, name: &str) -> Option<&'a Value>
        ensures { option_copied result ≡ extension_named name.now
            (unknown_extensions (mesh_handle self.now).json.extensions) }
    {
        self.extensions()?.get(name)
    }

    /// What the application stores here: `extras`.
    pub fn extras(&self) -> Option<&'a Value>
        ensures { option_copied result ≡ (mesh_handle self.now).json.extras }
    {
        lent(&self.inner.json.extras)
    }
}

/// Geometry to be drawn with one material (glTF 2.0, section 5.24, "Mesh Primitive").
#[derive_where(Clone, Copy)]
#[derive_where(Debug; D)]
pub struct Primitive<'a, D: Records = Valid> {
    index: usize,
    inner: Inner<'a, mesh::Primitive, D>,
}

impl<'a, D: Records> Primitive<'a, D> {
    ghost use Rattle.gltf_scene.specs.Attributes.{attributes_left};
    ghost use Rattle.gltf_scene.specs.Bounds.{corners, stated_box};
    ghost use Rattle.gltf_scene.specs.Meshes.{primitive_handle};
    ghost use Rattle.gltf_scene.specs.Primitives.{AreMorphTargets, AreMappings};

    /// The position among the primitives of the mesh.
    pub fn index(&self) -> usize
        ensures { result ≡ (primitive_handle self.now).index }
    {
        self.index
    }

    /// The accessor of the attribute that means this.
    pub fn get(&self, semantic: &Semantic) -> Option<Accessor<'a, D>>
        ensures { Follows (IsAccessor (primitive_handle self.now).document)
            (get_by (semantic_cmp semantic.now)
            (primitive_handle self.now).json.attributes) result }
    {
        // A law that the proof stands on; the call does nothing.
        order_is_the_stated_one();
        let index = self.inner.json.attributes.get(semantic)?;
        Some(Accessor::new(self.inner.document, index.value()))
    }

    /// The accessor of the vertex indices: `indices`.
    pub fn indices(&self) -> Option<Accessor<'a, D>>
        ensures { Follows (IsAccessor (primitive_handle self.now).document)
            (primitive_handle self.now).json.indices result }
    {
        let index = self.inner.json.indices?;
        Some(Accessor::new(self.inner.document, index.value()))
    }

    /// The attributes, each once, in the order of `Semantic`.
    pub fn attributes(&self) -> Attributes<'a, D>
        ensures document { (attributes_left result).document
            ≡ (primitive_handle self.now).document }
        ensures entries { (attributes_left result).entries
            ≡ (primitive_handle self.now).json.attributes.entries }
    {
        Attributes {
            document: self.inner.document,
            entries: self.inner.json.attributes.iter(),
        }
    }

    /// The material; the default material where the primitive names none.
    pub fn material(&self) -> Material<'a, D>
        ensures { FollowsOr (IsDefaultMaterial (primitive_handle self.now).document)
            (IsMaterial (primitive_handle self.now).document)
            (primitive_handle self.now).json.material result }
    {
        match self.inner.json.material {
            Some(index) => Material::new(self.inner.document, index.value()),
            None => Material::default(self.inner.document),
        }
    }

    /// How vertices are joined: `mode`, triangles where that is absent.
    pub fn mode(&self) -> Mode
        ensures { IsCode (primitive_handle self.now).json.mode result }
    {
        meaning(self.inner.json.mode)
    }

    /// The morph targets, in stored order.
    pub fn morph_targets(&self) -> MorphTargets<'a, D>
        ensures { AreMorphTargets (primitive_handle self.now) (position result) }
    {
        List::new(MorphTargetsOf { primitive: *self })
    }

    /// The materials that variants give (`KHR_materials_variants`), in stored order: none where the
    /// extension is absent.
    pub fn mappings(&self) -> Mappings<'a, D>
        ensures { AreMappings (primitive_handle self.now) (position result) }
    {
        List::new(MappingsOf { primitive: *self })
    }

    /// The box that the positions are in, as it stands: `min` and `max` of the accessor of
    /// `POSITION`. None where that attribute is absent, or one of the two is absent or no list of
    /// three numbers.
    pub fn bounding_box(&self) -> Option<BoundingBox<'a>>
        ensures { option_map corners result ≡ stated_box (primitive_handle self.now) }
    {
        let positions = self.get(&Semantic::Positions)?;
        let (x, y, z) = three_numbers(positions.min()?)?;
        let min = [x, y, z];
        let (x, y, z) = three_numbers(positions.max()?)?;
        let max = [x, y, z];
        let bounds = Bounds { min, max };
        Some(bounds)
    }

    /// The extensions that are not known at a primitive; None where there is no member
    /// `extensions`.
    pub fn extensions(&self) -> Option<&'a Map<String, Value>>
        ensures { option_copied result
            ≡ option_map (λ e. e.others) (primitive_handle self.now).json.extensions }
    {
        Some(&lent(&self.inner.json.extensions)?.others)
    }

    /// The extension of this name, where it is not known at a primitive.
    pub fn extension_value(&self, name: &str) -> Option<&'a Value>
        ensures { option_copied result ≡ extension_named name.now
            (option_map (λ e. e.others) (primitive_handle self.now).json.extensions) }
    {
        self.extensions()?.get(name)
    }

    /// What the application stores here: `extras`.
    pub fn extras(&self) -> Option<&'a Value>
        ensures { option_copied result ≡ (primitive_handle self.now).json.extras }
    {
        lent(&self.inner.json.extras)
    }
}

/// What a morph target adds to the vertices of a primitive (glTF 2.0, section 3.7.2.2, "Morph
/// Targets").
#[derive_where(Clone, Copy)]
#[derive_where(Debug; D)]
pub struct MorphTarget<'a, D: Records = Valid> {
    index: usize,
    inner: Inner<'a, mesh::MorphTarget, D>,
}

impl<'a, D: Records> MorphTarget<'a, D> {
    ghost use Rattle.gltf_scene.specs.Meshes.{morph_target_handle};

    /// The accessor of what is added to positions: `POSITION`.
    pub fn positions(&self) -> Option<Accessor<'a, D>>
        ensures { Follows (IsAccessor (morph_target_handle self.now).document)
            (morph_target_handle self.now).json.positions result }
    {
        let index = self.inner.json.positions?;
        Some(Accessor::new(self.inner.document, index.value()))
    }

    /// The accessor of what is added to normals: `NORMAL`.
    pub fn normals(&self) -> Option<Accessor<'a, D>>
        ensures { Follows (IsAccessor (morph_target_handle self.now).document)
            (morph_target_handle self.now).json.normals result }
    {
        let index = self.inner.json.normals?;
        Some(Accessor::new(self.inner.document, index.value()))
    }

    /// The accessor of what is added to tangents: `TANGENT`.
    pub fn tangents(&self) -> Option<Accessor<'a, D>>
        ensures { Follows (IsAccessor (morph_target_handle self.now).document)
            (morph_target_handle self.now).json.tangents result }
    {
        let index = self.inner.json.tangents?;
        Some(Accessor::new(self.inner.document, index.value()))
    }
}
