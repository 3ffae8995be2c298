//! Nodes, and the scenes that they make up (glTF 2.0, section 3.5, "Scenes").

pub mod iter;

ghost use Rattle.std.specs.Prelude.{◌≡◌, ◌<◌, length};
ghost use Rattle.std.specs.Option.{option_copied, option_map};
ghost use Rattle.gltf_handles.specs.Lists.{position};
ghost use Rattle.gltf_handles.specs.Members.{text, unknown_extensions, extension_named, Follows};

use crate::mesh::Mesh;
use crate::scene::iter::{Children, NamedNodes, Nodes};
use crate::skin::Skin;
use gltf_handles::inner::Inner;
use gltf_handles::list::List;
use gltf_handles::member::unknown_extensions;
use gltf_json::boxed::lent;
use gltf_json::{Map, Value, kinds, scene};
use gltf_look::camera::Camera;
use gltf_look::khr_lights_punctual::Light;
use gltf_rules::{Records, Valid};

/// A node of the node hierarchy (glTF 2.0, section 5.25, "Node").
#[derive_where(Clone, Copy)]
#[derive_where(Debug; D)]
pub struct Node<'a, D: Records = Valid> {
    index: usize,
    inner: Inner<'a, scene::Node, D>,
}

/// Where a node is in the space of its parent (glTF 2.0, section 3.5.3, "Transformations"). Numbers
/// are lent as they stand, of any kind.
#[derive(Clone, Copy, Debug)]
pub enum Transform<'a> {
    /// By a matrix.
    Matrix {
        /// Its 16 numbers, column by column: `matrix`.
        matrix: &'a Value,
    },
    /// By a scale, then a rotation, then a translation.
    Decomposed {
        /// The translation along x, y and z, in metres: `translation`. Where it is absent, 0, 0 and
        /// 0 are meant.
        translation: Option<&'a Value>,
        /// The rotation as a unit quaternion x, y, z, w: `rotation`. Where it is absent, 0, 0, 0
        /// and 1 are meant.
        rotation: Option<&'a Value>,
        /// The scale along x, y and z: `scale`. Where it is absent, 1, 1 and 1 are meant.
        scale: Option<&'a Value>,
    },
}

impl<'a, D: Records> Node<'a, D> {
    ghost use Rattle.gltf_look.specs.Cameras.{IsCamera};
    ghost use Rattle.gltf_look.specs.Lights.{IsLight};
    ghost use Rattle.gltf_scene.specs.Meshes.{IsMesh};
    ghost use Rattle.gltf_scene.specs.Nodes.{node_handle, light_index};
    ghost use Rattle.gltf_scene.specs.Nodes.{AreNamed, IsNode, IsTransform};
    ghost use Rattle.gltf_scene.specs.Skins.{IsSkin};

    /// The node at an index below the number of nodes.
    pub fn new(document: &'a D, index: usize) -> Self
        requires { index < length (D.root document.now).nodes.items }
        ensures { IsNode (D.root document.now) index result }
    {
        Node {
            index,
            inner: Inner {
                document,
                json: document.get::<kinds::Node>(index),
            },
        }
    }

    /// The position among the nodes of the document.
    pub fn index(&self) -> usize
        ensures { result ≡ (node_handle self.now).index }
    {
        self.index
    }

    /// The name given by the user.
    pub fn name(&self) -> Option<&'a str>
        ensures { option_copied result ≡ text (node_handle self.now).json.name }
    {
        self.inner.json.name.as_deref()
    }

    /// The camera at this node: `camera`.
    pub fn camera(&self) -> Option<Camera<'a, D>>
        ensures { Follows (IsCamera (node_handle self.now).document)
            (node_handle self.now).json.camera result }
    {
        let index = self.inner.json.camera?;
        Some(Camera::new(self.inner.document, index.value()))
    }

    /// The light at this node: the extension `KHR_lights_punctual`.
    pub fn light(&self) -> Option<Light<'a, D>>
        ensures { Follows (IsLight (node_handle self.now).document)
            (light_index (node_handle self.now).json) result }
    {
        let extension = lent(&self.inner.json.extensions)?
            .khr_lights_punctual
            .as_ref()?;
        Some(Light::new(self.inner.document, extension.light.value()))
    }

    /// The mesh at this node: `mesh`.
    pub fn mesh(&self) -> Option<Mesh<'a, D>>
        ensures { Follows (IsMesh (node_handle self.now).document)
            (node_handle self.now).json.mesh result }
    {
        let index = self.inner.json.mesh?;
        Some(Mesh::new(self.inner.document, index.value()))
    }

    /// The skin of the mesh at this node: `skin`.
    pub fn skin(&self) -> Option<Skin<'a, D>>
        ensures { Follows (IsSkin (node_handle self.now).document)
            (node_handle self.now).json.skin result }
    {
        let index = self.inner.json.skin?;
        Some(Skin::new(self.inner.document, index.value()))
    }

    /// The children, in stored order, each as often as it stands there. No rule says that nodes
    /// make up trees: a node may be its own child.
    pub fn children(&self) -> Children<'a, D>
        ensures { AreNamed (node_handle self.now).document
            (node_handle self.now).json.children.items (position result) }
    {
        List::new(NamedNodes::new(self.inner.document, self.inner.json.children.as_slice()))
    }

    /// Where the node is in the space of its parent: by `matrix` where that is there.
    pub fn transform(&self) -> Transform<'a>
        ensures { IsTransform (node_handle self.now).json result }
    {
        match &self.inner.json.matrix {
            Some(matrix) => Transform::Matrix { matrix },
            None => Transform::Decomposed {
                translation: self.inner.json.translation.as_ref(),
                rotation: self.inner.json.rotation.as_ref(),
                scale: self.inner.json.scale.as_ref(),
            },
        }
    }

    /// The weights of the morph targets of the mesh, as they stand: `weights`, a list of numbers.
    pub fn weights(&self) -> Option<&'a Value>
        ensures { option_copied result ≡ (node_handle self.now).json.weights }
    {
        self.inner.json.weights.as_ref()
    }

    /// The extensions that are not known at a node; None where there is no member `extensions`.
    pub fn extensions(&self) -> Option<&'a Map<String, Value>>
        ensures { option_copied result
            ≡ option_map (λ e. e.others) (node_handle self.now).json.extensions }
    {
        Some(&lent(&self.inner.json.extensions)?.others)
    }

    /// The document that it is of.
    pub fn document(&self) -> &'a D
        ensures { D.root result.now ≡ (node_handle self.now).document }
    {
        self.inner.document
    }

    /// The extension of this name, where it is not known at a node.
    pub fn extension_value(&self, name: &str) -> Option<&'a Value>
        ensures { option_copied result ≡ extension_named name.now
            (option_map (λ e. e.others) (node_handle self.now).json.extensions) }
    {
        self.extensions()?.get(name)
    }

    /// What the application stores here: `extras`.
    pub fn extras(&self) -> Option<&'a Value>
        ensures { option_copied result ≡ (node_handle self.now).json.extras }
    {
        lent(&self.inner.json.extras)
    }
}

/// The nodes that are shown together (glTF 2.0, section 5.27, "Scene").
#[derive_where(Clone, Copy)]
#[derive_where(Debug; D)]
pub struct Scene<'a, D: Records = Valid> {
    index: usize,
    inner: Inner<'a, scene::Scene, D>,
}

impl<'a, D: Records> Scene<'a, D> {
    ghost use Rattle.gltf_scene.specs.Nodes.{AreNamed};
    ghost use Rattle.gltf_scene.specs.Scenes.{scene_handle, IsScene};

    /// The scene at an index below the number of scenes.
    pub fn new(document: &'a D, index: usize) -> Self
        requires { index < length (D.root document.now).scenes.items }
        ensures { IsScene (D.root document.now) index result }
    {
        Scene {
            index,
            inner: Inner {
                document,
                json: document.get::<kinds::Scene>(index),
            },
        }
    }

    /// The position among the scenes of the document.
    pub fn index(&self) -> usize
        ensures { result ≡ (scene_handle self.now).index }
    {
        self.index
    }

    /// The name given by the user.
    pub fn name(&self) -> Option<&'a str>
        ensures { option_copied result ≡ text (scene_handle self.now).json.name }
    {
        self.inner.json.name.as_deref()
    }

    /// The root nodes of the scene, in stored order.
    pub fn nodes(&self) -> Nodes<'a, D>
        ensures { AreNamed (scene_handle self.now).document
            (scene_handle self.now).json.nodes.items (position result) }
    {
        List::new(NamedNodes::new(self.inner.document, self.inner.json.nodes.as_slice()))
    }

    /// The extensions, none of which is known at a scene; None where there is no member
    /// `extensions`.
    pub fn extensions(&self) -> Option<&'a Map<String, Value>>
        ensures { option_copied result
            ≡ unknown_extensions (scene_handle self.now).json.extensions }
    {
        unknown_extensions(&self.inner.json.extensions)
    }

    /// The extension of this name.
    pub fn extension_value(&self, name: &str) -> Option<&'a Value>
        ensures { option_copied result ≡ extension_named name.now
            (unknown_extensions (scene_handle self.now).json.extensions) }
    {
        self.extensions()?.get(name)
    }

    /// What the application stores here: `extras`.
    pub fn extras(&self) -> Option<&'a Value>
        ensures { option_copied result ≡ (scene_handle self.now).json.extras }
    {
        lent(&self.inner.json.extras)
    }
}
