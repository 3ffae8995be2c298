//! The extensions of a mesh's primitives.
ghost use Rattle.std.specs.Prelude.{IfOk};
ghost use Rattle.gltf_json_record.specs.Copy.{IsCopy};

use gltf_json_record::copy::Copies;
use gltf_json_record::error::Error;
use gltf_json_record::lent::{Maybe, Member, Unnamed};
use gltf_json_record::read::FromValue;
use gltf_json_record::{copy_record, read_record};
use serde_json::{Map, Value};
use std::alloc::{AllocError, Global};

/// The material that some variants give to a primitive (`KHR_materials_variants`, "Variant
/// Mappings").
#[derive(Debug, Drop)]
pub struct Mapping {
    /// The number of the material in the root's list: `material`.
    pub material: u32,
    /// The numbers of the variants in the list of the root's extension: `variants`.
    pub variants: Vec<u32>,
}

impl Mapping {
    ghost use Rattle.gltf_json_geometry.specs.Meshes.{mapping};

    /// A copy of the record, which shows what this one shows.
    #[tactic(auto, unfolding(crate::specs::Meshes::mapping))]
    pub fn clone(&self, alloc: Global) -> Result<Mapping, AllocError>
        ensures { IfOk result (IsCopy mapping self.now) }
    {
        copy_record!(self, alloc; Mapping { material, } with {
            variants: Member,
        })
    }
}

impl Copies for Mapping {
    fn copy(&self, alloc: Global) -> Result<Mapping, AllocError> {
        self.clone(alloc)
    }
}

impl FromValue for Mapping {
    ghost use Rattle.gltf_json_geometry.specs.Meshes.{mapping};

    ghost kind = { mapping };

    #[tactic(auto, unfolding(crate::specs::Meshes::mapping))]
    fn from_value(alloc: Global, value: &Value) -> Result<Mapping, Error> {
        read_record!(alloc, value; Mapping {
            material: required("material"),
            variants: required("variants"),
        })
    }
}

/// The extension `KHR_materials_variants` of a primitive.
#[derive(Debug, Drop)]
pub struct KhrMaterialsVariants {
    /// The materials that variants give: `mappings`, empty where absent.
    pub mappings: Vec<Mapping>,
}

impl KhrMaterialsVariants {
    ghost use Rattle.gltf_json_geometry.specs.Meshes.{primitive_variants};

    /// A copy of the record, which shows what this one shows.
    #[tactic(auto, unfolding(crate::specs::Meshes::primitive_variants))]
    pub fn clone(&self, alloc: Global) -> Result<KhrMaterialsVariants, AllocError>
        ensures { IfOk result (IsCopy primitive_variants self.now) }
    {
        copy_record!(self, alloc; KhrMaterialsVariants {} with {
            mappings: Member,
        })
    }
}

impl Copies for KhrMaterialsVariants {
    fn copy(&self, alloc: Global) -> Result<KhrMaterialsVariants, AllocError> {
        self.clone(alloc)
    }
}

impl FromValue for KhrMaterialsVariants {
    ghost use Rattle.gltf_json_geometry.specs.Meshes.{primitive_variants};

    ghost kind = { primitive_variants };

    #[tactic(auto, unfolding(crate::specs::Meshes::primitive_variants))]
    fn from_value(alloc: Global, value: &Value) -> Result<KhrMaterialsVariants, Error> {
        read_record!(alloc, value; KhrMaterialsVariants {
            mappings: list_or_empty("mappings"),
        })
    }
}

/// The extensions of a primitive.
#[derive(Debug, Drop)]
pub struct Primitive {
    /// `KHR_materials_variants`.
    pub khr_materials_variants: Option<KhrMaterialsVariants>,
    /// Every other member of `extensions`, as it stands.
    pub others: Map<String, Value>,
}

impl Primitive {
    ghost use Rattle.gltf_json_geometry.specs.Meshes.{primitive_extensions};

    /// A copy of the record, which shows what this one shows.
    #[tactic(auto, unfolding(crate::specs::Meshes::primitive_extensions))]
    pub fn clone(&self, alloc: Global) -> Result<Primitive, AllocError>
        ensures { IfOk result (IsCopy primitive_extensions self.now) }
    {
        copy_record!(self, alloc; Primitive {} with {
            khr_materials_variants: Maybe,
            others: Unnamed,
        })
    }
}

impl Copies for Primitive {
    fn copy(&self, alloc: Global) -> Result<Primitive, AllocError> {
        self.clone(alloc)
    }
}

impl FromValue for Primitive {
    ghost use Rattle.gltf_json_geometry.specs.Meshes.{primitive_extensions};

    ghost kind = { primitive_extensions };

    #[tactic(auto, unfolding(crate::specs::Meshes::primitive_extensions))]
    fn from_value(alloc: Global, value: &Value) -> Result<Primitive, Error> {
        read_record!(alloc, value; Primitive {
            khr_materials_variants: optional("KHR_materials_variants"),
            others: others("KHR_materials_variants"),
        })
    }
}
