//! Accessors, buffers and meshes.
use crate::digest::{Digest, Digested};
use gltf_json_geometry::accessor::sparse::{Indices, Sparse, Values};
use gltf_json_geometry::accessor::{Accessor, ComponentType, Type};
use gltf_json_geometry::buffer::{Buffer, Target, View};
use gltf_json_geometry::extensions::mesh::{
    KhrMaterialsVariants, Mapping, Primitive as PrimitiveExtensions,
};
use gltf_json_geometry::mesh::{Mesh, Mode, MorphTarget, Primitive};
use gltf_json_geometry::semantic::Semantic;

impl Digested for Accessor {
    fn add_to(&self, digest: &mut Digest) {
        self.buffer_view.add_to(digest);
        self.byte_offset.add_to(digest);
        self.component_type.add_to(digest);
        self.normalized.add_to(digest);
        self.count.add_to(digest);
        self.type_.add_to(digest);
        self.max.add_to(digest);
        self.min.add_to(digest);
        self.sparse.add_to(digest);
        self.name.add_to(digest);
        self.extensions.add_to(digest);
        self.extras.add_to(digest);
    }
}

impl Digested for ComponentType {
    fn add_to(&self, digest: &mut Digest) {
        digest.add(*self as u64);
    }
}

impl Digested for Type {
    fn add_to(&self, digest: &mut Digest) {
        digest.add(*self as u64);
    }
}

impl Digested for Sparse {
    fn add_to(&self, digest: &mut Digest) {
        self.count.add_to(digest);
        self.indices.add_to(digest);
        self.values.add_to(digest);
        self.extras.add_to(digest);
    }
}

impl Digested for Indices {
    fn add_to(&self, digest: &mut Digest) {
        self.buffer_view.add_to(digest);
        self.byte_offset.add_to(digest);
        self.component_type.add_to(digest);
        self.extras.add_to(digest);
    }
}

impl Digested for Values {
    fn add_to(&self, digest: &mut Digest) {
        self.buffer_view.add_to(digest);
        self.byte_offset.add_to(digest);
        self.extras.add_to(digest);
    }
}

impl Digested for Buffer {
    fn add_to(&self, digest: &mut Digest) {
        self.byte_length.add_to(digest);
        self.uri.add_to(digest);
        self.name.add_to(digest);
        self.extensions.add_to(digest);
        self.extras.add_to(digest);
    }
}

impl Digested for View {
    fn add_to(&self, digest: &mut Digest) {
        self.buffer.add_to(digest);
        self.byte_length.add_to(digest);
        self.byte_offset.add_to(digest);
        self.byte_stride.add_to(digest);
        self.target.add_to(digest);
        self.name.add_to(digest);
        self.extensions.add_to(digest);
        self.extras.add_to(digest);
    }
}

impl Digested for Target {
    fn add_to(&self, digest: &mut Digest) {
        digest.add(*self as u64);
    }
}

impl Digested for Mesh {
    fn add_to(&self, digest: &mut Digest) {
        self.primitives.add_to(digest);
        self.weights.add_to(digest);
        self.name.add_to(digest);
        self.extensions.add_to(digest);
        self.extras.add_to(digest);
    }
}

impl Digested for Primitive {
    fn add_to(&self, digest: &mut Digest) {
        digest.count(self.attributes.len());
        for (semantic, accessor) in &self.attributes {
            semantic.add_to(digest);
            accessor.add_to(digest);
        }
        self.unknown_attributes.add_to(digest);
        self.indices.add_to(digest);
        self.material.add_to(digest);
        self.mode.add_to(digest);
        self.targets.add_to(digest);
        self.extensions.add_to(digest);
        self.extras.add_to(digest);
    }
}

impl Digested for Semantic {
    fn add_to(&self, digest: &mut Digest) {
        match self {
            Semantic::Extras(name) => name.add_to(digest),
            Semantic::Positions => digest.add(1),
            Semantic::Normals => digest.add(2),
            Semantic::Tangents => digest.add(3),
            Semantic::Colors(set) => digest.pair(4, u64::from(*set)),
            Semantic::TexCoords(set) => digest.pair(5, u64::from(*set)),
            Semantic::Joints(set) => digest.pair(6, u64::from(*set)),
            Semantic::Weights(set) => digest.pair(7, u64::from(*set)),
        }
    }
}

impl Digested for Mode {
    fn add_to(&self, digest: &mut Digest) {
        digest.add(*self as u64);
    }
}

impl Digested for MorphTarget {
    fn add_to(&self, digest: &mut Digest) {
        self.positions.add_to(digest);
        self.normals.add_to(digest);
        self.tangents.add_to(digest);
    }
}

impl Digested for PrimitiveExtensions {
    fn add_to(&self, digest: &mut Digest) {
        self.khr_materials_variants.add_to(digest);
        self.others.add_to(digest);
    }
}

impl Digested for KhrMaterialsVariants {
    fn add_to(&self, digest: &mut Digest) {
        self.mappings.add_to(digest);
    }
}

impl Digested for Mapping {
    fn add_to(&self, digest: &mut Digest) {
        self.material.add_to(digest);
        self.variants.add_to(digest);
    }
}
