//! The lists that indices point into.
ghost use Rattle.std.specs.Prelude.{◌≡◌, ◌==◌, ◌<◌};
ghost use Rattle.gltf_uses.specs.Kinds.{number, count_of, list_name};

use gltf_json_record::kinds;
use gltf_validation::counts::Counts;

/// A list of a document that members point into by index. No member points to an animation, so
/// `animations` is none of them; nor are the samplers of an animation, which only its own channels
/// name, and the variants of `KHR_materials_variants`.
#[derive(Clone, Copy, Debug, PartialEq, Eq)]
pub enum Kind {
    /// `accessors` of the root.
    Accessor,
    /// `buffers` of the root.
    Buffer,
    /// `cameras` of the root.
    Camera,
    /// `images` of the root.
    Image,
    /// `lights` of the root's extension `KHR_lights_punctual`.
    Light,
    /// `materials` of the root.
    Material,
    /// `meshes` of the root.
    Mesh,
    /// `nodes` of the root.
    Node,
    /// `samplers` of the root.
    Sampler,
    /// `scenes` of the root.
    Scene,
    /// `skins` of the root.
    Skin,
    /// `textures` of the root.
    Texture,
    /// `bufferViews` of the root.
    View,
}

impl Kind {
    /// All lists, each once.
    pub const ALL: [Kind; 13] = [
        Kind::Accessor,
        Kind::Buffer,
        Kind::Camera,
        Kind::Image,
        Kind::Light,
        Kind::Material,
        Kind::Mesh,
        Kind::Node,
        Kind::Sampler,
        Kind::Scene,
        Kind::Skin,
        Kind::Texture,
        Kind::View,
    ];

    /// The name of the member that is the list, as it stands in JSON.
    pub fn as_str(self) -> &'static str
        ensures { result.now ≡ list_name self }
    {
        match self {
            Kind::Accessor => "accessors",
            Kind::Buffer => "buffers",
            Kind::Camera => "cameras",
            Kind::Image => "images",
            Kind::Light => "lights",
            Kind::Material => "materials",
            Kind::Mesh => "meshes",
            Kind::Node => "nodes",
            Kind::Sampler => "samplers",
            Kind::Scene => "scenes",
            Kind::Skin => "skins",
            Kind::Texture => "textures",
            Kind::View => "bufferViews",
        }
    }

    /// The length of the list.
    pub(crate) fn count(self, counts: &Counts) -> usize
        ensures { result ≡ count_of self counts.now }
    {
        match self {
            Kind::Accessor => counts.accessors,
            Kind::Buffer => counts.buffers,
            Kind::Camera => counts.cameras,
            Kind::Image => counts.images,
            Kind::Light => counts.lights,
            Kind::Material => counts.materials,
            Kind::Mesh => counts.meshes,
            Kind::Node => counts.nodes,
            Kind::Sampler => counts.samplers,
            Kind::Scene => counts.scenes,
            Kind::Skin => counts.skins,
            Kind::Texture => counts.textures,
            Kind::View => counts.views,
        }
    }

    /// Its number, by which tables of all lists are in order.
    pub(crate) fn number(self) -> usize
        ensures is { result ≡ number self }
        ensures within { result < 13 }
    {
        match self {
            Kind::Accessor => 0,
            Kind::Buffer => 1,
            Kind::Camera => 2,
            Kind::Image => 3,
            Kind::Light => 4,
            Kind::Material => 5,
            Kind::Mesh => 6,
            Kind::Node => 7,
            Kind::Sampler => 8,
            Kind::Scene => 9,
            Kind::Skin => 10,
            Kind::Texture => 11,
            Kind::View => 12,
        }
    }

    /// Whether both are the same list.
    pub(crate) fn is(self, other: Kind) -> bool
        ensures { result ≡ (number self == number other) }
    {
        self.number() == other.number()
    }
}

/// A list that indices point into, by its marker.
pub(crate) trait Listed {
    ghost use Rattle.gltf_uses.specs.declared.kind.Kind.{Kind};

    /// The list, in contracts.
    ghost list: { Kind };

    /// The list.
    fn list() -> Kind
        ensures { result ≡ list };
}

impl Listed for kinds::Accessor {
    ghost use Rattle.gltf_uses.specs.declared.kind.Kind.TheVariants.{Accessor};

    ghost list = { Accessor };

    fn list() -> Kind {
        Kind::Accessor
    }
}

impl Listed for kinds::Buffer {
    ghost use Rattle.gltf_uses.specs.declared.kind.Kind.TheVariants.{Buffer};

    ghost list = { Buffer };

    fn list() -> Kind {
        Kind::Buffer
    }
}

impl Listed for kinds::Camera {
    ghost use Rattle.gltf_uses.specs.declared.kind.Kind.TheVariants.{Camera};

    ghost list = { Camera };

    fn list() -> Kind {
        Kind::Camera
    }
}

impl Listed for kinds::Image {
    ghost use Rattle.gltf_uses.specs.declared.kind.Kind.TheVariants.{Image};

    ghost list = { Image };

    fn list() -> Kind {
        Kind::Image
    }
}

impl Listed for kinds::Light {
    ghost use Rattle.gltf_uses.specs.declared.kind.Kind.TheVariants.{Light};

    ghost list = { Light };

    fn list() -> Kind {
        Kind::Light
    }
}

impl Listed for kinds::Material {
    ghost use Rattle.gltf_uses.specs.declared.kind.Kind.TheVariants.{Material};

    ghost list = { Material };

    fn list() -> Kind {
        Kind::Material
    }
}

impl Listed for kinds::Mesh {
    ghost use Rattle.gltf_uses.specs.declared.kind.Kind.TheVariants.{Mesh};

    ghost list = { Mesh };

    fn list() -> Kind {
        Kind::Mesh
    }
}

impl Listed for kinds::Node {
    ghost use Rattle.gltf_uses.specs.declared.kind.Kind.TheVariants.{Node};

    ghost list = { Node };

    fn list() -> Kind {
        Kind::Node
    }
}

impl Listed for kinds::Sampler {
    ghost use Rattle.gltf_uses.specs.declared.kind.Kind.TheVariants.{Sampler};

    ghost list = { Sampler };

    fn list() -> Kind {
        Kind::Sampler
    }
}

impl Listed for kinds::Scene {
    ghost use Rattle.gltf_uses.specs.declared.kind.Kind.TheVariants.{Scene};

    ghost list = { Scene };

    fn list() -> Kind {
        Kind::Scene
    }
}

impl Listed for kinds::Skin {
    ghost use Rattle.gltf_uses.specs.declared.kind.Kind.TheVariants.{Skin};

    ghost list = { Skin };

    fn list() -> Kind {
        Kind::Skin
    }
}

impl Listed for kinds::Texture {
    ghost use Rattle.gltf_uses.specs.declared.kind.Kind.TheVariants.{Texture};

    ghost list = { Texture };

    fn list() -> Kind {
        Kind::Texture
    }
}

impl Listed for kinds::View {
    ghost use Rattle.gltf_uses.specs.declared.kind.Kind.TheVariants.{View};

    ghost list = { View };

    fn list() -> Kind {
        Kind::View
    }
}
