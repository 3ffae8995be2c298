//! The indices in images, textures (glTF 2.0, section 3.8), nodes, scenes (section 3.5) and skins
//! (section 3.7.3).
ghost use Rattle.gltf_uses.specs.Scenes.{image_uses, texture_uses, node_light_uses};
ghost use Rattle.gltf_uses.specs.Scenes.{node_extensions_uses, node_uses, scene_uses, skin_uses};

use crate::sink::Sink;
use crate::visit::{Visit, member, members};
use gltf_json_scene::extensions::scene as extended;
use gltf_json_scene::image::Image;
use gltf_json_scene::scene::{Node, Scene};
use gltf_json_scene::skin::Skin;
use gltf_json_scene::texture::Texture;
use gltf_validation::location::Location;
use std::alloc::AllocError;

impl Visit for Image {
    ghost uses = { λ r. image_uses r };

    fn visit<S: Sink>(&self, location: &Location<'_>, sink: &mut S) -> Result<(), AllocError> {
        member(&self.buffer_view, "bufferView", location, sink)
    }
}

impl Visit for Texture {
    ghost uses = { λ r. texture_uses r };

    fn visit<S: Sink>(&self, location: &Location<'_>, sink: &mut S) -> Result<(), AllocError> {
        members!(self, location, sink; {
            sampler: "sampler",
            source: "source",
        })
    }
}

impl Visit for extended::KhrLightsPunctual {
    ghost uses = { λ r. node_light_uses r };

    fn visit<S: Sink>(&self, location: &Location<'_>, sink: &mut S) -> Result<(), AllocError> {
        member(&self.light, "light", location, sink)
    }
}

impl Visit for extended::Node {
    ghost uses = { λ r. node_extensions_uses r };

    fn visit<S: Sink>(&self, location: &Location<'_>, sink: &mut S) -> Result<(), AllocError> {
        member(
            &self.khr_lights_punctual,
            "KHR_lights_punctual",
            location,
            sink,
        )
    }
}

impl Visit for Node {
    ghost uses = { λ r. node_uses r };

    fn visit<S: Sink>(&self, location: &Location<'_>, sink: &mut S) -> Result<(), AllocError> {
        members!(self, location, sink; {
            camera: "camera",
            children: "children",
            mesh: "mesh",
            skin: "skin",
            extensions: "extensions",
        })
    }
}

impl Visit for Scene {
    ghost uses = { λ r. scene_uses r };

    fn visit<S: Sink>(&self, location: &Location<'_>, sink: &mut S) -> Result<(), AllocError> {
        member(&self.nodes, "nodes", location, sink)
    }
}

impl Visit for Skin {
    ghost uses = { λ r. skin_uses r };

    fn visit<S: Sink>(&self, location: &Location<'_>, sink: &mut S) -> Result<(), AllocError> {
        members!(self, location, sink; {
            inverse_bind_matrices: "inverseBindMatrices",
            joints: "joints",
            skeleton: "skeleton",
        })
    }
}
