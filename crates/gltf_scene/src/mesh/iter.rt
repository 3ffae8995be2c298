//! The lists of a mesh's primitives, and of what stands in these.

ghost use Rattle.std.specs.Prelude.{◌≡◌, length, Some, IfSome, ⊤};
ghost use Rattle.std.specs.Iterator.{at_most, UpTo};
ghost use Rattle.std.specs.Iterator.SizeHint.{IsWithinCount};
ghost use Rattle.gltf_validation.specs.Documents.{counts_of};
ghost use Rattle.gltf_validation.specs.Members.{index_rules};
ghost use Rattle.gltf_validation.specs.Meshes.{entries_rules};
ghost use Rattle.gltf_validation.specs.Rules.{Hold, Hold-prop};

use crate::mesh::{Attribute, Mesh, MorphTarget, Primitive, Semantic};
use gltf_handles::accessor::Accessor;
use gltf_handles::inner::Inner;
use gltf_handles::list::{Indexed, List};
use gltf_json::boxed::lent;
use gltf_json::extensions::mesh as extended;
use gltf_json::{Index, kinds};
use gltf_material::khr_materials_variants::Mapping;
use gltf_rules::{Records, Valid};
use std::alloc::AllocError;
use std::collections::btree_map;

/// The primitives of a mesh.
pub type Primitives<'a, D = Valid> = List<PrimitivesOf<'a, D>>;

/// The morph targets of a primitive.
pub type MorphTargets<'a, D = Valid> = List<MorphTargetsOf<'a, D>>;

/// The mappings from variants to materials of a primitive.
pub type Mappings<'a, D = Valid> = List<MappingsOf<'a, D>>;

/// The source that `Primitives` walks over.
#[derive_where(Clone, Copy)]
#[derive_where(Debug; D)]
pub struct PrimitivesOf<'a, D: Records = Valid> {
    /// The mesh of the primitives.
    pub mesh: Mesh<'a, D>,
}

impl<'a, D: Records> Indexed for PrimitivesOf<'a, D> {
    ghost use Rattle.gltf_scene.specs.Meshes.{mesh_handle, IsPrimitive};

    type Item = Primitive<'a, D>;

    ghost count = { λ s. length (mesh_handle s.mesh).json.primitives.items };

    ghost gives = { λ s i p. IsPrimitive (mesh_handle s.mesh) i p };

    fn len(&self) -> usize {
        self.mesh.inner.json.primitives.len()
    }

    fn get(&self, index: usize) -> Primitive<'a, D> {
        let mesh = self.mesh.inner;
        Primitive {
            index,
            inner: Inner {
                document: mesh.document,
                json: mesh
                    .document
                    .element(mesh.json.primitives.as_slice(), index),
            },
        }
    }
}

/// The source that `MorphTargets` walks over.
#[derive_where(Clone, Copy)]
#[derive_where(Debug; D)]
pub struct MorphTargetsOf<'a, D: Records = Valid> {
    /// The primitive of the morph targets.
    pub primitive: Primitive<'a, D>,
}

impl<'a, D: Records> Indexed for MorphTargetsOf<'a, D> {
    ghost use Rattle.gltf_scene.specs.Meshes.{primitive_handle, IsMorphTarget};

    type Item = MorphTarget<'a, D>;

    ghost count = { λ s. length (primitive_handle s.primitive).json.targets.items };

    ghost gives = { λ s i t. IsMorphTarget (primitive_handle s.primitive) i t };

    fn len(&self) -> usize {
        self.primitive.inner.json.targets.len()
    }

    fn get(&self, index: usize) -> MorphTarget<'a, D> {
        let primitive = self.primitive.inner;
        MorphTarget {
            index,
            inner: Inner {
                document: primitive.document,
                json: primitive
                    .document
                    .element(primitive.json.targets.as_slice(), index),
            },
        }
    }
}

/// The source that `Mappings` walks over.
#[derive_where(Clone, Copy)]
#[derive_where(Debug; D)]
pub struct MappingsOf<'a, D: Records = Valid> {
    /// The primitive of the mappings.
    pub primitive: Primitive<'a, D>,
}

impl<'a, D: Records> MappingsOf<'a, D> {
    ghost use Rattle.gltf_scene.specs.Meshes.{primitive_handle};
    ghost use Rattle.gltf_scene.specs.Primitives.{mappings_of};

    /// The records: none, where the extension is absent.
    fn records(&self) -> &'a [extended::Mapping]
        ensures { result.now ≡ mappings_of (primitive_handle self.now.primitive).json.extensions }
    {
        match lent(&self.primitive.inner.json.extensions) {
            Some(extensions) => match &extensions.khr_materials_variants {
                Some(extension) => extension.mappings.as_slice(),
                None => &[],
            },
            None => &[],
        }
    }
}

impl<'a, D: Records> Indexed for MappingsOf<'a, D> {
    ghost use Rattle.gltf_material.specs.Variants.{IsMapping};
    ghost use Rattle.gltf_scene.specs.Meshes.{primitive_handle};
    ghost use Rattle.gltf_scene.specs.Primitives.{mappings_of};

    type Item = Mapping<'a, D>;

    ghost count = { λ s. length (mappings_of (primitive_handle s.primitive).json.extensions) };

    ghost gives = { λ s i m. IsMapping D.Records
        (mappings_of (primitive_handle s.primitive).json.extensions)
        (primitive_handle s.primitive).document i m };

    fn len(&self) -> usize {
        self.records().len()
    }

    fn get(&self, index: usize) -> Mapping<'a, D> {
        Mapping::new(self.primitive.inner.document, self.records(), index)
    }
}

/// The attributes of a primitive that are left, in the order of `Semantic`.
#[derive(Drop)]
#[derive_where(Debug; D)]
pub struct Attributes<'a, D: Records = Valid> {
    pub(super) document: &'a D,
    pub(super) entries: btree_map::Iter<'a, Semantic, Index<kinds::Accessor>>,
    ghost holds: { Hold (entries_rules
        (index_rules (counts_of (D.root document.now)).accessors) entries) } by { Hold-prop
            (entries_rules (index_rules (counts_of (D.root document.now)).accessors) entries) },
}

impl<'a, D: Records> Attributes<'a, D> {
    ghost use Rattle.gltf_scene.specs.Attributes.{attributes_left, NthAttribute, LastAttribute};

    /// How many attributes are left.
    pub fn len(&self) -> usize
        ensures { result ≡ length (attributes_left self.now).entries }
    {
        self.entries.len()
    }

    /// How many attributes were left.
    pub fn count(self) -> usize
        ensures { result ≡ length (attributes_left self.entry).entries }
    {
        self.entries.len()
    }

    /// Passes over n attributes and gives the next one. Past the end it gives none, and nothing is
    /// left.
    pub fn nth(&mut self, n: usize) -> Option<Attribute<'a, D>>
        ensures { NthAttribute (attributes_left self.old) n result (attributes_left self.new) }
    {
        let mut passed = 0;
        while passed < n {
            self.next()?;
            passed += 1;
        }
        self.next()
    }

    /// The last attribute, if one is left.
    pub fn last(mut self) -> Option<Attribute<'a, D>>
        ensures { LastAttribute (attributes_left self.entry) result }
    {
        let before = self.len().checked_sub(1)?;
        self.nth(before)
    }
}

impl<'a, D: Records> Iterator for Attributes<'a, D> {
    ghost use Rattle.gltf_scene.specs.Attributes.{attributes_left, NthAttribute};

    type Item = Attribute<'a, D>;

    ghost next_gives = { λ s r t. NthAttribute (attributes_left s) 0 r (attributes_left t) };

    ghost remaining = { λ s. at_most (length (attributes_left s).entries) };

    fn next(&mut self) -> Option<Attribute<'a, D>> {
        let (semantic, index) = self.entries.next()?;
        Some((semantic, Accessor::new(self.document, index.value())))
    }

    /// How many attributes are left, as both bounds.
    fn size_hint(&self) -> (usize, Option<usize>)
        ensures lower { IsWithinCount result.0
            (at_most (length (attributes_left self.now).entries)) }
        ensures upper { IfSome result.1
            (UpTo (at_most (length (attributes_left self.now).entries))) }
        ensures exact { result ≡ (
          length (attributes_left self.now).entries,
          Some (length (attributes_left self.now).entries),
        ) }
    {
        let len = self.entries.len();
        (len, Some(len))
    }
}

impl<'a, D: Records> Clone for Attributes<'a, D> {
    ghost use Rattle.gltf_scene.specs.Attributes.{attributes_left};

    ghost is_clone = { λ s t. attributes_left t ≡ attributes_left s };

    ghost is_infallible = { λ _. ⊤ };

    fn clone(&self) -> Result<Self, AllocError> {
        let entries = self.entries.clone()?;
        Ok(Attributes {
            document: self.document,
            entries,
        })
    }
}
