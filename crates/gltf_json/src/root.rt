//! The whole document (glTF 2.0, section 5.17, "glTF").
ghost use Rattle.std.specs.Prelude.{IfOk};
ghost use Rattle.gltf_json_record.specs.Copy.{IsCopy};

use crate::extensions;
use gltf_json_animation::animation::Animation;
use gltf_json_geometry::accessor::Accessor;
use gltf_json_geometry::buffer::{Buffer, View};
use gltf_json_geometry::mesh::Mesh;
use gltf_json_material::material::Material;
use gltf_json_record::copy::Copies;
use gltf_json_record::error::Error;
use gltf_json_record::extras::Extras;
pub use gltf_json_record::index::Index;
use gltf_json_record::lent::{Maybe, Member};
use gltf_json_record::read::FromValue;
use gltf_json_record::{copy_record, kinds, read_record};
use gltf_json_scene::asset::Asset;
use gltf_json_scene::camera::Camera;
use gltf_json_scene::image::Image;
use gltf_json_scene::scene::{Node, Scene};
use gltf_json_scene::skin::Skin;
use gltf_json_scene::texture::{Sampler, Texture};
use serde_json::Value;
use std::alloc::{AllocError, Global};

/// The whole document (glTF 2.0, section 5.17, "glTF"). A list is empty where its member is absent.
#[derive(Debug)]
pub struct Root {
    /// What the document says of itself: `asset`.
    pub asset: Asset,
    /// The accessors: `accessors`.
    pub accessors: Vec<Accessor>,
    /// The animations: `animations`.
    pub animations: Vec<Animation>,
    /// The buffers: `buffers`.
    pub buffers: Vec<Buffer>,
    /// The views of buffers: `bufferViews`.
    pub buffer_views: Vec<View>,
    /// The cameras: `cameras`.
    pub cameras: Vec<Camera>,
    /// The images: `images`.
    pub images: Vec<Image>,
    /// The materials: `materials`.
    pub materials: Vec<Material>,
    /// The meshes: `meshes`.
    pub meshes: Vec<Mesh>,
    /// The nodes: `nodes`.
    pub nodes: Vec<Node>,
    /// The samplers of textures: `samplers`.
    pub samplers: Vec<Sampler>,
    /// The scene to be shown first: `scene`.
    pub scene: Option<Index<kinds::Scene>>,
    /// The scenes: `scenes`.
    pub scenes: Vec<Scene>,
    /// The skins: `skins`.
    pub skins: Vec<Skin>,
    /// The textures: `textures`.
    pub textures: Vec<Texture>,
    /// The names of the extensions that the document uses: `extensionsUsed`.
    pub extensions_used: Vec<String>,
    /// The names of the extensions that a reader has to know: `extensionsRequired`.
    pub extensions_required: Vec<String>,
    /// The extensions: `extensions`.
    pub extensions: Option<extensions::root::Root>,
    /// What the application stores here: `extras`.
    pub extras: Extras,
}

impl Root {
    ghost use Rattle.gltf_json.specs.Documents.{root};

    /// A copy of the record, which shows what this one shows.
    #[tactic(auto, unfolding(crate::specs::Documents::root))]
    pub fn clone(&self, alloc: Global) -> Result<Root, AllocError>
        ensures { IfOk result (IsCopy root self.now) }
    {
        copy_record!(self, alloc; Root { scene, } with {
            asset: Member,
            accessors: Member,
            animations: Member,
            buffers: Member,
            buffer_views: Member,
            cameras: Member,
            images: Member,
            materials: Member,
            meshes: Member,
            nodes: Member,
            samplers: Member,
            scenes: Member,
            skins: Member,
            textures: Member,
            extensions_used: Member,
            extensions_required: Member,
            extensions: Maybe,
            extras: Maybe,
        })
    }
}

/// By hand, so that a crate above that drops a document calls this, and need not prove again how
/// each record within is dropped.
impl Drop for Root {
    fn drop(self) {
        let Root {
            asset: _,
            accessors: _,
            animations: _,
            buffers: _,
            buffer_views: _,
            cameras: _,
            images: _,
            materials: _,
            meshes: _,
            nodes: _,
            samplers: _,
            scene: _,
            scenes: _,
            skins: _,
            textures: _,
            extensions_used: _,
            extensions_required: _,
            extensions: _,
            extras: _,
        } = self;
    }
}

impl Copies for Root {
    fn copy(&self, alloc: Global) -> Result<Root, AllocError> {
        self.clone(alloc)
    }
}

/// The rows of the document, for a macro that reads a record by them:
/// `root_rows!(read_record!(alloc, value))`.
#[macro_export]
macro_rules! root_rows {
    ($read:ident!($($from:ident),*)) => {
        $read!($($from),*; Root {
            asset: required("asset"),
            accessors: list_or_empty("accessors"),
            animations: list_or_empty("animations"),
            buffers: list_or_empty("buffers"),
            buffer_views: list_or_empty("bufferViews"),
            cameras: list_or_empty("cameras"),
            images: list_or_empty("images"),
            materials: list_or_empty("materials"),
            meshes: list_or_empty("meshes"),
            nodes: list_or_empty("nodes"),
            samplers: list_or_empty("samplers"),
            scene: optional("scene"),
            scenes: list_or_empty("scenes"),
            skins: list_or_empty("skins"),
            textures: list_or_empty("textures"),
            extensions_used: list_or_empty("extensionsUsed"),
            extensions_required: list_or_empty("extensionsRequired"),
            extensions: optional("extensions"),
            extras: optional("extras"),
        })
    };
}

impl FromValue for Root {
    ghost use Rattle.gltf_json.specs.Documents.{root};

    ghost kind = { root };

    #[tactic(auto, unfolding(crate::specs::Documents::root))]
    fn from_value(alloc: Global, value: &Value) -> Result<Root, Error> {
        root_rows!(read_record!(alloc, value))
    }
}
