//! Nodes, and the scenes that they make up (glTF 2.0, section 3.5, "Scenes").
ghost use Rattle.std.specs.Prelude.{IfOk};
ghost use Rattle.gltf_json_record.specs.Copy.{IsCopy};

use crate::extensions;
use gltf_json_record::boxed::Boxed;
use gltf_json_record::copy::Copies;
use gltf_json_record::error::Error;
use gltf_json_record::extensions::Others;
use gltf_json_record::extras::Extras;
use gltf_json_record::index::Index;
use gltf_json_record::lent::{Maybe, Member};
use gltf_json_record::read::FromValue;
use gltf_json_record::{copy_record, kinds, read_record};
use serde_json::Value;
use std::alloc::{AllocError, Global};

/// A node of the node hierarchy (glTF 2.0, section 5.25, "Node"). The numbers of its transform and
/// its weights are kept as they stand, of any kind.
#[derive(Debug, Drop)]
pub struct Node {
    /// The camera at this node: `camera`.
    pub camera: Option<Index<kinds::Camera>>,
    /// The children of this node: `children`. Empty where absent.
    pub children: Vec<Index<kinds::Node>>,
    /// The mesh at this node: `mesh`.
    pub mesh: Option<Index<kinds::Mesh>>,
    /// The skin of the mesh at this node: `skin`.
    pub skin: Option<Index<kinds::Skin>>,
    /// The transform as a matrix of 16 numbers, column by column: `matrix`.
    pub matrix: Option<Value>,
    /// The translation along the axes x, y, z: `translation`.
    pub translation: Option<Value>,
    /// The rotation as a unit quaternion x, y, z, w: `rotation`.
    pub rotation: Option<Value>,
    /// The scale along the axes x, y, z: `scale`.
    pub scale: Option<Value>,
    /// The weights of the mesh's morph targets: `weights`.
    pub weights: Option<Value>,
    /// A name given by the user: `name`.
    pub name: Option<String>,
    /// The extensions: `extensions`.
    pub extensions: Option<Boxed<extensions::scene::Node>>,
    /// What the application stores here: `extras`.
    pub extras: Extras,
}

impl Node {
    ghost use Rattle.gltf_json_scene.specs.Scenes.{node};

    /// A copy of the record, which shows what this one shows.
    #[tactic(auto, unfolding(crate::specs::Scenes::node))]
    pub fn clone(&self, alloc: Global) -> Result<Node, AllocError>
        ensures { IfOk result (IsCopy node self.now) }
    {
        copy_record!(self, alloc; Node { camera, mesh, skin, } with {
            children: Member,
            matrix: Maybe,
            translation: Maybe,
            rotation: Maybe,
            scale: Maybe,
            weights: Maybe,
            name: Maybe,
            extensions: Maybe,
            extras: Maybe,
        })
    }
}

impl Copies for Node {
    fn copy(&self, alloc: Global) -> Result<Node, AllocError> {
        self.clone(alloc)
    }
}

/// The rows of a node, for a macro that reads a record by them:
/// `node_rows!(read_record!(alloc, value))`.
#[macro_export]
macro_rules! node_rows {
    ($read:ident!($($from:ident),*)) => {
        $read!($($from),*; Node {
            camera: optional("camera"),
            children: list_or_empty("children"),
            mesh: optional("mesh"),
            skin: optional("skin"),
            matrix: optional("matrix"),
            translation: optional("translation"),
            rotation: optional("rotation"),
            scale: optional("scale"),
            weights: optional("weights"),
            name: optional("name"),
            extensions: optional("extensions"),
            extras: optional("extras"),
        })
    };
}

impl FromValue for Node {
    ghost use Rattle.gltf_json_scene.specs.Scenes.{node};

    ghost kind = { node };

    #[tactic(auto, unfolding(crate::specs::Scenes::node))]
    fn from_value(alloc: Global, value: &Value) -> Result<Node, Error> {
        node_rows!(read_record!(alloc, value))
    }
}

/// The nodes that are shown together (glTF 2.0, section 5.27, "Scene").
#[derive(Debug, Drop)]
pub struct Scene {
    /// The root nodes of the scene: `nodes`. Empty where absent.
    pub nodes: Vec<Index<kinds::Node>>,
    /// A name given by the user: `name`.
    pub name: Option<String>,
    /// The extensions: `extensions`. None is known here.
    pub extensions: Option<Boxed<Others>>,
    /// What the application stores here: `extras`.
    pub extras: Extras,
}

impl Scene {
    ghost use Rattle.gltf_json_scene.specs.Scenes.{scene};

    /// A copy of the record, which shows what this one shows.
    #[tactic(auto, unfolding(crate::specs::Scenes::scene))]
    pub fn clone(&self, alloc: Global) -> Result<Scene, AllocError>
        ensures { IfOk result (IsCopy scene self.now) }
    {
        copy_record!(self, alloc; Scene {} with {
            nodes: Member,
            name: Maybe,
            extensions: Maybe,
            extras: Maybe,
        })
    }
}

impl Copies for Scene {
    fn copy(&self, alloc: Global) -> Result<Scene, AllocError> {
        self.clone(alloc)
    }
}

/// The rows of a scene, for a macro that reads a record by them:
/// `scene_rows!(read_record!(alloc, value))`.
#[macro_export]
macro_rules! scene_rows {
    ($read:ident!($($from:ident),*)) => {
        $read!($($from),*; Scene {
            nodes: list_or_empty("nodes"),
            name: optional("name"),
            extensions: optional("extensions"),
            extras: optional("extras"),
        })
    };
}

impl FromValue for Scene {
    ghost use Rattle.gltf_json_scene.specs.Scenes.{scene};

    ghost kind = { scene };

    #[tactic(auto, unfolding(crate::specs::Scenes::scene))]
    fn from_value(alloc: Global, value: &Value) -> Result<Scene, Error> {
        scene_rows!(read_record!(alloc, value))
    }
}
