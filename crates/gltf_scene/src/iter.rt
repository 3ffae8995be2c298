//! The lists of a document: each handle of a kind once, in index order.

ghost use Rattle.std.specs.Prelude.{length};
ghost use Rattle.gltf_handles.specs.Lists.{position};
ghost use Rattle.gltf_handles.specs.Members.{Follows};
ghost use Rattle.gltf_scene.specs.Documents.{AreMeshes, AreNodes, AreScenes, AreSkins};
ghost use Rattle.gltf_scene.specs.Meshes.{IsMesh};
ghost use Rattle.gltf_scene.specs.Nodes.{IsNode};
ghost use Rattle.gltf_scene.specs.Scenes.{IsScene};
ghost use Rattle.gltf_scene.specs.Skins.{IsSkin};

use crate::mesh::Mesh;
use crate::scene::{Node, Scene};
use crate::skin::Skin;
use gltf_handles::list::{Indexed, List};
use gltf_rules::Valid;

/// The meshes of a document (glTF 2.0, section 3.7, "Geometry").
pub type Meshes<'a> = List<AllMeshes<'a>>;

/// The nodes of a document (glTF 2.0, section 3.5, "Scenes").
pub type Nodes<'a> = List<AllNodes<'a>>;

/// The scenes of a document (glTF 2.0, section 3.5, "Scenes").
pub type Scenes<'a> = List<AllScenes<'a>>;

/// The skins of a document (glTF 2.0, section 3.7.3, "Skins").
pub type Skins<'a> = List<AllSkins<'a>>;

/// All meshes of a document.
pub fn meshes<'a>(document: &'a Valid) -> Meshes<'a>
    ensures { AreMeshes document.now (position result) }
{
    List::new(AllMeshes { document })
}

/// All nodes of a document.
pub fn nodes<'a>(document: &'a Valid) -> Nodes<'a>
    ensures { AreNodes document.now (position result) }
{
    List::new(AllNodes { document })
}

/// All scenes of a document.
pub fn scenes<'a>(document: &'a Valid) -> Scenes<'a>
    ensures { AreScenes document.now (position result) }
{
    List::new(AllScenes { document })
}

/// All skins of a document.
pub fn skins<'a>(document: &'a Valid) -> Skins<'a>
    ensures { AreSkins document.now (position result) }
{
    List::new(AllSkins { document })
}

/// The scene to be shown where none is asked for (glTF 2.0, section 3.5.1, "Overview"); None where
/// the document names none.
pub fn default_scene<'a>(document: &'a Valid) -> Option<Scene<'a>>
    ensures { Follows (IsScene document.now) document.now.scene result }
{
    let index = document.as_root().scene?;
    Some(Scene::new(document, index.value()))
}

/// The source that `Meshes` walks over.
#[derive(Clone, Copy, Debug)]
pub struct AllMeshes<'a> {
    /// The document of the meshes.
    pub document: &'a Valid,
}

impl<'a> Indexed for AllMeshes<'a> {
    type Item = Mesh<'a>;

    ghost count = { λ s. length s.document.now.meshes.items };

    ghost gives = { λ s i m. IsMesh s.document.now i m };

    fn len(&self) -> usize {
        self.document.as_root().meshes.len()
    }

    fn get(&self, index: usize) -> Mesh<'a> {
        Mesh::new(self.document, index)
    }
}

/// The source that `Nodes` walks over.
#[derive(Clone, Copy, Debug)]
pub struct AllNodes<'a> {
    /// The document of the nodes.
    pub document: &'a Valid,
}

impl<'a> Indexed for AllNodes<'a> {
    type Item = Node<'a>;

    ghost count = { λ s. length s.document.now.nodes.items };

    ghost gives = { λ s i n. IsNode s.document.now i n };

    fn len(&self) -> usize {
        self.document.as_root().nodes.len()
    }

    fn get(&self, index: usize) -> Node<'a> {
        Node::new(self.document, index)
    }
}

/// The source that `Scenes` walks over.
#[derive(Clone, Copy, Debug)]
pub struct AllScenes<'a> {
    /// The document of the scenes.
    pub document: &'a Valid,
}

impl<'a> Indexed for AllScenes<'a> {
    type Item = Scene<'a>;

    ghost count = { λ s. length s.document.now.scenes.items };

    ghost gives = { λ s i c. IsScene s.document.now i c };

    fn len(&self) -> usize {
        self.document.as_root().scenes.len()
    }

    fn get(&self, index: usize) -> Scene<'a> {
        Scene::new(self.document, index)
    }
}

/// The source that `Skins` walks over.
#[derive(Clone, Copy, Debug)]
pub struct AllSkins<'a> {
    /// The document of the skins.
    pub document: &'a Valid,
}

impl<'a> Indexed for AllSkins<'a> {
    type Item = Skin<'a>;

    ghost count = { λ s. length s.document.now.skins.items };

    ghost gives = { λ s i k. IsSkin s.document.now i k };

    fn len(&self) -> usize {
        self.document.as_root().skins.len()
    }

    fn get(&self, index: usize) -> Skin<'a> {
        Skin::new(self.document, index)
    }
}
