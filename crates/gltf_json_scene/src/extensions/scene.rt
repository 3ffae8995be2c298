//! What the extensions add to nodes, and the lights and variants that they bring.
pub mod khr_lights_punctual;
pub mod khr_materials_variants;

ghost use Rattle.std.specs.Prelude.{IfOk};
ghost use Rattle.gltf_json_record.specs.Copy.{IsCopy};

use gltf_json_record::copy::Copies;
use gltf_json_record::error::Error;
use gltf_json_record::index::Index;
use gltf_json_record::lent::{Maybe, Unnamed};
use gltf_json_record::read::FromValue;
use gltf_json_record::{copy_record, kinds, read_record};
use serde_json::{Map, Value};
use std::alloc::{AllocError, Global};

/// The light at a node (`KHR_lights_punctual`, "Adding Light Instances to Nodes").
#[derive(Debug, Drop)]
pub struct KhrLightsPunctual {
    /// The light: `light`.
    pub light: Index<kinds::Light>,
}

impl KhrLightsPunctual {
    ghost use Rattle.gltf_json_scene.specs.Lights.{node_light};

    /// A copy of the record, which shows what this one shows.
    #[tactic(auto, unfolding(crate::specs::Lights::node_light))]
    pub fn clone(&self, _alloc: Global) -> Result<KhrLightsPunctual, AllocError>
        ensures { IfOk result (IsCopy node_light self.now) }
    {
        Ok(KhrLightsPunctual { light: self.light })
    }
}

impl Copies for KhrLightsPunctual {
    fn copy(&self, alloc: Global) -> Result<KhrLightsPunctual, AllocError> {
        self.clone(alloc)
    }
}

impl FromValue for KhrLightsPunctual {
    ghost use Rattle.gltf_json_scene.specs.Lights.{node_light};

    ghost kind = { node_light };

    #[tactic(auto, unfolding(crate::specs::Lights::node_light))]
    fn from_value(alloc: Global, value: &Value) -> Result<KhrLightsPunctual, Error> {
        read_record!(alloc, value; KhrLightsPunctual {
            light: required("light"),
        })
    }
}

/// The member `extensions` of a node (glTF 2.0, section 5.25.11, `node.extensions`).
#[derive(Debug, Drop)]
pub struct Node {
    /// The light at the node: `KHR_lights_punctual`.
    pub khr_lights_punctual: Option<KhrLightsPunctual>,
    /// Every other member, as it stands, null included.
    pub others: Map<String, Value>,
}

impl Node {
    ghost use Rattle.gltf_json_scene.specs.Scenes.{node_extensions};

    /// A copy of the record, which shows what this one shows.
    #[tactic(auto, unfolding(crate::specs::Scenes::node_extensions))]
    pub fn clone(&self, alloc: Global) -> Result<Node, AllocError>
        ensures { IfOk result (IsCopy node_extensions self.now) }
    {
        copy_record!(self, alloc; Node {} with {
            khr_lights_punctual: Maybe,
            others: Unnamed,
        })
    }
}

impl Copies for Node {
    fn copy(&self, alloc: Global) -> Result<Node, AllocError> {
        self.clone(alloc)
    }
}

impl FromValue for Node {
    ghost use Rattle.gltf_json_scene.specs.Scenes.{node_extensions};

    ghost kind = { node_extensions };

    #[tactic(auto, unfolding(crate::specs::Scenes::node_extensions))]
    fn from_value(alloc: Global, value: &Value) -> Result<Node, Error> {
        read_record!(alloc, value; Node {
            khr_lights_punctual: optional("KHR_lights_punctual"),
            others: others("KHR_lights_punctual"),
        })
    }
}
