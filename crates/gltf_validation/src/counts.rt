//! How long the lists are that indices point into.
ghost use Rattle.std.specs.Prelude.{◌≡◌};

use gltf_json_record::kinds;

/// The length of each list of a document that an index may point into. This is all that a rule of
/// an index looks at.
#[derive(Clone, Copy)]
pub struct Counts {
    /// `accessors` of the root.
    pub accessors: usize,
    /// `samplers` of the animation that the walk is in, and 0 outside of one.
    pub animation_samplers: usize,
    /// `buffers` of the root.
    pub buffers: usize,
    /// `cameras` of the root.
    pub cameras: usize,
    /// `images` of the root.
    pub images: usize,
    /// `lights` of the root's extension `KHR_lights_punctual`, and 0 where that is absent.
    pub lights: usize,
    /// `materials` of the root.
    pub materials: usize,
    /// `meshes` of the root.
    pub meshes: usize,
    /// `nodes` of the root.
    pub nodes: usize,
    /// `samplers` of the root.
    pub samplers: usize,
    /// `scenes` of the root.
    pub scenes: usize,
    /// `skins` of the root.
    pub skins: usize,
    /// `textures` of the root.
    pub textures: usize,
    /// `bufferViews` of the root.
    pub views: usize,
}

/// A list that indices point into, by its marker.
pub trait Counted {
    ghost use Rattle.std.specs.Prelude.{ℕ};
    ghost use Rattle.gltf_validation.specs.declared.counts.Counts.{Counts};

    /// The length of the list, in contracts.
    ghost count: { Counts → ℕ };

    /// The length of the list.
    fn count(counts: &Counts) -> usize
        ensures { result ≡ count counts.now };
}

impl Counted for kinds::Accessor {
    ghost count = { λ c. c.accessors };

    fn count(counts: &Counts) -> usize {
        counts.accessors
    }
}

impl Counted for kinds::AnimationSampler {
    ghost count = { λ c. c.animation_samplers };

    fn count(counts: &Counts) -> usize {
        counts.animation_samplers
    }
}

impl Counted for kinds::Buffer {
    ghost count = { λ c. c.buffers };

    fn count(counts: &Counts) -> usize {
        counts.buffers
    }
}

impl Counted for kinds::Camera {
    ghost count = { λ c. c.cameras };

    fn count(counts: &Counts) -> usize {
        counts.cameras
    }
}

impl Counted for kinds::Image {
    ghost count = { λ c. c.images };

    fn count(counts: &Counts) -> usize {
        counts.images
    }
}

impl Counted for kinds::Light {
    ghost count = { λ c. c.lights };

    fn count(counts: &Counts) -> usize {
        counts.lights
    }
}

impl Counted for kinds::Material {
    ghost count = { λ c. c.materials };

    fn count(counts: &Counts) -> usize {
        counts.materials
    }
}

impl Counted for kinds::Mesh {
    ghost count = { λ c. c.meshes };

    fn count(counts: &Counts) -> usize {
        counts.meshes
    }
}

impl Counted for kinds::Node {
    ghost count = { λ c. c.nodes };

    fn count(counts: &Counts) -> usize {
        counts.nodes
    }
}

impl Counted for kinds::Sampler {
    ghost count = { λ c. c.samplers };

    fn count(counts: &Counts) -> usize {
        counts.samplers
    }
}

impl Counted for kinds::Scene {
    ghost count = { λ c. c.scenes };

    fn count(counts: &Counts) -> usize {
        counts.scenes
    }
}

impl Counted for kinds::Skin {
    ghost count = { λ c. c.skins };

    fn count(counts: &Counts) -> usize {
        counts.skins
    }
}

impl Counted for kinds::Texture {
    ghost count = { λ c. c.textures };

    fn count(counts: &Counts) -> usize {
        counts.textures
    }
}

impl Counted for kinds::View {
    ghost count = { λ c. c.views };

    fn count(counts: &Counts) -> usize {
        counts.views
    }
}
