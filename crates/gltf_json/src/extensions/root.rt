//! What the extensions add to the whole document.
ghost use Rattle.std.specs.Prelude.{IfOk};
ghost use Rattle.gltf_json_record.specs.Copy.{IsCopy};

use gltf_json_record::copy::Copies;
use gltf_json_record::error::Error;
use gltf_json_record::lent::{Maybe, Member, Unnamed};
use gltf_json_record::read::FromValue;
use gltf_json_record::{copy_record, read_record};
use gltf_json_scene::extensions::scene::khr_lights_punctual::Light;
use gltf_json_scene::extensions::scene::khr_materials_variants::Variant;
use serde_json::{Map, Value};
use std::alloc::{AllocError, Global};

/// The lights of the document (`KHR_lights_punctual`, "Adding Light Instances to Nodes").
#[derive(Debug, Drop)]
pub struct KhrLightsPunctual {
    /// The lights: `lights`.
    pub lights: Vec<Light>,
}

impl KhrLightsPunctual {
    ghost use Rattle.gltf_json.specs.Documents.{root_lights};

    /// A copy of the record, which shows what this one shows.
    #[tactic(auto, unfolding(crate::specs::Documents::root_lights))]
    pub fn clone(&self, alloc: Global) -> Result<KhrLightsPunctual, AllocError>
        ensures { IfOk result (IsCopy root_lights self.now) }
    {
        copy_record!(self, alloc; KhrLightsPunctual {} with {
            lights: Member,
        })
    }
}

impl Copies for KhrLightsPunctual {
    fn copy(&self, alloc: Global) -> Result<KhrLightsPunctual, AllocError> {
        self.clone(alloc)
    }
}

impl FromValue for KhrLightsPunctual {
    ghost use Rattle.gltf_json.specs.Documents.{root_lights};

    ghost kind = { root_lights };

    #[tactic(auto, unfolding(crate::specs::Documents::root_lights))]
    fn from_value(alloc: Global, value: &Value) -> Result<KhrLightsPunctual, Error> {
        read_record!(alloc, value; KhrLightsPunctual {
            lights: required("lights"),
        })
    }
}

/// The variants of the document's materials (`KHR_materials_variants`).
#[derive(Debug, Drop)]
pub struct KhrMaterialsVariants {
    /// The variants: `variants`.
    pub variants: Vec<Variant>,
}

impl KhrMaterialsVariants {
    ghost use Rattle.gltf_json.specs.Documents.{root_variants};

    /// A copy of the record, which shows what this one shows.
    #[tactic(auto, unfolding(crate::specs::Documents::root_variants))]
    pub fn clone(&self, alloc: Global) -> Result<KhrMaterialsVariants, AllocError>
        ensures { IfOk result (IsCopy root_variants self.now) }
    {
        copy_record!(self, alloc; KhrMaterialsVariants {} with {
            variants: Member,
        })
    }
}

impl Copies for KhrMaterialsVariants {
    fn copy(&self, alloc: Global) -> Result<KhrMaterialsVariants, AllocError> {
        self.clone(alloc)
    }
}

impl FromValue for KhrMaterialsVariants {
    ghost use Rattle.gltf_json.specs.Documents.{root_variants};

    ghost kind = { root_variants };

    #[tactic(auto, unfolding(crate::specs::Documents::root_variants))]
    fn from_value(alloc: Global, value: &Value) -> Result<KhrMaterialsVariants, Error> {
        read_record!(alloc, value; KhrMaterialsVariants {
            variants: required("variants"),
        })
    }
}

/// The member `extensions` of the whole document (glTF 2.0, section 5.17, "glTF").
#[derive(Debug, Drop)]
pub struct Root {
    /// The lights: `KHR_lights_punctual`.
    pub khr_lights_punctual: Option<KhrLightsPunctual>,
    /// The variants of the materials: `KHR_materials_variants`.
    pub khr_materials_variants: Option<KhrMaterialsVariants>,
    /// Every other member, as it stands, null included.
    pub others: Map<String, Value>,
}

impl Root {
    ghost use Rattle.gltf_json.specs.Documents.{root_extensions};

    /// A copy of the record, which shows what this one shows.
    #[tactic(auto, unfolding(crate::specs::Documents::root_extensions))]
    pub fn clone(&self, alloc: Global) -> Result<Root, AllocError>
        ensures { IfOk result (IsCopy root_extensions self.now) }
    {
        copy_record!(self, alloc; Root {} with {
            khr_lights_punctual: Maybe,
            khr_materials_variants: Maybe,
            others: Unnamed,
        })
    }
}

impl Copies for Root {
    fn copy(&self, alloc: Global) -> Result<Root, AllocError> {
        self.clone(alloc)
    }
}

impl FromValue for Root {
    ghost use Rattle.gltf_json.specs.Documents.{root_extensions};

    ghost kind = { root_extensions };

    #[tactic(auto, unfolding(crate::specs::Documents::root_extensions))]
    fn from_value(alloc: Global, value: &Value) -> Result<Root, Error> {
        read_record!(alloc, value; Root {
            khr_lights_punctual: optional("KHR_lights_punctual"),
            khr_materials_variants: optional("KHR_materials_variants"),
            others: others("KHR_lights_punctual", "KHR_materials_variants"),
        })
    }
}
