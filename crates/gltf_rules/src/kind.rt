//! The list of records that each kind of index points into.
ghost use Rattle.std.specs.Prelude.{◌≡◌};
ghost use Rattle.gltf_rules.specs.Lists.{in_lists};

use gltf_json::accessor::Accessor;
use gltf_json::animation::Animation;
use gltf_json::buffer::{Buffer, View};
use gltf_json::camera::Camera;
use gltf_json::extensions::scene::khr_lights_punctual::Light;
use gltf_json::image::Image;
use gltf_json::kinds;
use gltf_json::material::Material;
use gltf_json::mesh::Mesh;
use gltf_json::root::Root;
use gltf_json::scene::{Node, Scene};
use gltf_json::skin::Skin;
use gltf_json::texture::{Sampler, Texture};

/// A list of the root or of its extensions, by the marker of its indices.
pub trait Kind {
    ghost use Rattle.std.specs.Prelude.{List};
    ghost use Rattle.gltf_json.specs.declared.root.Root.{Root};
    ghost use Rattle.gltf_validation.specs.declared.counts.Counts.{Counts};
    ghost use Rattle.gltf_validation.specs.Documents.{counts_of, root_rules};
    ghost use Rattle.gltf_validation.specs.Members.{list_rules};
    ghost use Rattle.gltf_validation.specs.Rules.{Rules, Hold};

    /// What stands in the list.
    type Record;

    /// The list, in contracts.
    ghost list: { Root → List Self.Record };

    /// The rules of a record of the list.
    ghost record_rules: { Counts → Self.Record → Rules };

    /// The list.
    fn list(root: &Root) -> &[Self::Record]
        ensures { result.now ≡ list root.now };

    /// Where the rules of a document hold, those of the list do.
    ghost hold: { (r : Root) → Hold (root_rules (counts_of r) r)
        → Hold (list_rules (record_rules (counts_of r)) (list r)) };
}

impl Kind for kinds::Accessor {
    ghost use Rattle.gltf_validation.specs.Accessors.{accessor_rules};

    type Record = Accessor;

    ghost list = { λ r. r.accessors.items };

    ghost record_rules = { λ c r. accessor_rules c r };

    ghost hold = { λ r h. (in_lists r h).accessors };

    fn list(root: &Root) -> &[Accessor] {
        root.accessors.as_slice()
    }
}

impl Kind for kinds::Animation {
    ghost use Rattle.gltf_validation.specs.Animations.{animation_rules};

    type Record = Animation;

    ghost list = { λ r. r.animations.items };

    ghost record_rules = { λ c r. animation_rules c r };

    ghost hold = { λ r h. (in_lists r h).animations };

    fn list(root: &Root) -> &[Animation] {
        root.animations.as_slice()
    }
}

impl Kind for kinds::Buffer {
    ghost use Rattle.gltf_validation.specs.Buffers.{buffer_rules};

    type Record = Buffer;

    ghost list = { λ r. r.buffers.items };

    ghost record_rules = { λ c r. buffer_rules c r };

    ghost hold = { λ r h. (in_lists r h).buffers };

    fn list(root: &Root) -> &[Buffer] {
        root.buffers.as_slice()
    }
}

impl Kind for kinds::View {
    ghost use Rattle.gltf_validation.specs.Buffers.{view_rules};

    type Record = View;

    ghost list = { λ r. r.buffer_views.items };

    ghost record_rules = { λ c r. view_rules c r };

    ghost hold = { λ r h. (in_lists r h).buffer_views };

    fn list(root: &Root) -> &[View] {
        root.buffer_views.as_slice()
    }
}

impl Kind for kinds::Camera {
    ghost use Rattle.gltf_validation.specs.Cameras.{camera_rules};

    type Record = Camera;

    ghost list = { λ r. r.cameras.items };

    ghost record_rules = { λ c r. camera_rules c r };

    ghost hold = { λ r h. (in_lists r h).cameras };

    fn list(root: &Root) -> &[Camera] {
        root.cameras.as_slice()
    }
}

impl Kind for kinds::Image {
    ghost use Rattle.gltf_validation.specs.Images.{image_rules};

    type Record = Image;

    ghost list = { λ r. r.images.items };

    ghost record_rules = { λ c r. image_rules c r };

    ghost hold = { λ r h. (in_lists r h).images };

    fn list(root: &Root) -> &[Image] {
        root.images.as_slice()
    }
}

impl Kind for kinds::Light {
    ghost use Rattle.gltf_rules.specs.Extensions.{lights_hold};
    ghost use Rattle.gltf_validation.specs.Documents.{counts_of};
    ghost use Rattle.gltf_validation.specs.Lights.{lights_of, light_rules};

    type Record = Light;

    ghost list = { λ r. lights_of r.extensions };

    ghost record_rules = { λ c r. light_rules c r };

    ghost hold = { λ r h. lights_hold (counts_of r) r.extensions h.1.1.1.1.1.1 };

    // None are there where the extension is absent.
    fn list(root: &Root) -> &[Light] {
        match &root.extensions {
            Some(extensions) => match &extensions.khr_lights_punctual {
                Some(extension) => extension.lights.as_slice(),
                None => &[],
            },
            None => &[],
        }
    }
}

impl Kind for kinds::Material {
    ghost use Rattle.gltf_validation.specs.Materials.{material_rules};

    type Record = Material;

    ghost list = { λ r. r.materials.items };

    ghost record_rules = { λ c r. material_rules c r };

    ghost hold = { λ r h. (in_lists r h).materials };

    fn list(root: &Root) -> &[Material] {
        root.materials.as_slice()
    }
}

impl Kind for kinds::Mesh {
    ghost use Rattle.gltf_validation.specs.Meshes.{mesh_rules};

    type Record = Mesh;

    ghost list = { λ r. r.meshes.items };

    ghost record_rules = { λ c r. mesh_rules c r };

    ghost hold = { λ r h. (in_lists r h).meshes };

    fn list(root: &Root) -> &[Mesh] {
        root.meshes.as_slice()
    }
}

impl Kind for kinds::Node {
    ghost use Rattle.gltf_validation.specs.Scenes.{node_rules};

    type Record = Node;

    ghost list = { λ r. r.nodes.items };

    ghost record_rules = { λ c r. node_rules c r };

    ghost hold = { λ r h. (in_lists r h).nodes };

    fn list(root: &Root) -> &[Node] {
        root.nodes.as_slice()
    }
}

impl Kind for kinds::Sampler {
    ghost use Rattle.gltf_validation.specs.Textures.{sampler_rules};

    type Record = Sampler;

    ghost list = { λ r. r.samplers.items };

    ghost record_rules = { λ c r. sampler_rules c r };

    ghost hold = { λ r h. (in_lists r h).samplers };

    fn list(root: &Root) -> &[Sampler] {
        root.samplers.as_slice()
    }
}

impl Kind for kinds::Scene {
    ghost use Rattle.gltf_validation.specs.Scenes.{scene_rules};

    type Record = Scene;

    ghost list = { λ r. r.scenes.items };

    ghost record_rules = { λ c r. scene_rules c r };

    ghost hold = { λ r h. (in_lists r h).scenes };

    fn list(root: &Root) -> &[Scene] {
        root.scenes.as_slice()
    }
}

impl Kind for kinds::Skin {
    ghost use Rattle.gltf_validation.specs.Skins.{skin_rules};

    type Record = Skin;

    ghost list = { λ r. r.skins.items };

    ghost record_rules = { λ c r. skin_rules c r };

    ghost hold = { λ r h. (in_lists r h).skins };

    fn list(root: &Root) -> &[Skin] {
        root.skins.as_slice()
    }
}

impl Kind for kinds::Texture {
    ghost use Rattle.gltf_validation.specs.Textures.{texture_rules};

    type Record = Texture;

    ghost list = { λ r. r.textures.items };

    ghost record_rules = { λ c r. texture_rules c r };

    ghost hold = { λ r h. (in_lists r h).textures };

    fn list(root: &Root) -> &[Texture] {
        root.textures.as_slice()
    }
}
