//! Nodes, scenes, skins and cameras, and what the document says of itself.
use crate::digest::{Digest, Digested};
use gltf_json_scene::asset::Asset;
use gltf_json_scene::camera::{self, Camera, Orthographic, Perspective};
use gltf_json_scene::extensions::scene::khr_lights_punctual::{self, Light, Spot};
use gltf_json_scene::extensions::scene::khr_materials_variants::Variant;
use gltf_json_scene::extensions::scene::{KhrLightsPunctual, Node as NodeExtensions};
use gltf_json_scene::scene::{Node, Scene};
use gltf_json_scene::skin::Skin;

impl Digested for Asset {
    fn add_to(&self, digest: &mut Digest) {
        self.version.add_to(digest);
        self.generator.add_to(digest);
        self.copyright.add_to(digest);
        self.min_version.add_to(digest);
        self.extensions.add_to(digest);
        self.extras.add_to(digest);
    }
}

impl Digested for Node {
    fn add_to(&self, digest: &mut Digest) {
        self.camera.add_to(digest);
        self.children.add_to(digest);
        self.mesh.add_to(digest);
        self.skin.add_to(digest);
        self.matrix.add_to(digest);
        self.translation.add_to(digest);
        self.rotation.add_to(digest);
        self.scale.add_to(digest);
        self.weights.add_to(digest);
        self.name.add_to(digest);
        self.extensions.add_to(digest);
        self.extras.add_to(digest);
    }
}

impl Digested for NodeExtensions {
    fn add_to(&self, digest: &mut Digest) {
        self.khr_lights_punctual.add_to(digest);
        self.others.add_to(digest);
    }
}

impl Digested for KhrLightsPunctual {
    fn add_to(&self, digest: &mut Digest) {
        self.light.add_to(digest);
    }
}

impl Digested for Light {
    fn add_to(&self, digest: &mut Digest) {
        self.color.add_to(digest);
        self.intensity.add_to(digest);
        self.range.add_to(digest);
        self.type_.add_to(digest);
        self.spot.add_to(digest);
        self.name.add_to(digest);
        self.extras.add_to(digest);
    }
}

impl Digested for khr_lights_punctual::Type {
    fn add_to(&self, digest: &mut Digest) {
        digest.add(*self as u64);
    }
}

impl Digested for Spot {
    fn add_to(&self, digest: &mut Digest) {
        self.inner_cone_angle.add_to(digest);
        self.outer_cone_angle.add_to(digest);
    }
}

impl Digested for Variant {
    fn add_to(&self, digest: &mut Digest) {
        self.name.add_to(digest);
    }
}

impl Digested for Scene {
    fn add_to(&self, digest: &mut Digest) {
        self.nodes.add_to(digest);
        self.name.add_to(digest);
        self.extensions.add_to(digest);
        self.extras.add_to(digest);
    }
}

impl Digested for Skin {
    fn add_to(&self, digest: &mut Digest) {
        self.inverse_bind_matrices.add_to(digest);
        self.joints.add_to(digest);
        self.skeleton.add_to(digest);
        self.name.add_to(digest);
        self.extensions.add_to(digest);
        self.extras.add_to(digest);
    }
}

impl Digested for Camera {
    fn add_to(&self, digest: &mut Digest) {
        self.type_.add_to(digest);
        self.orthographic.add_to(digest);
        self.perspective.add_to(digest);
        self.name.add_to(digest);
        self.extensions.add_to(digest);
        self.extras.add_to(digest);
    }
}

impl Digested for camera::Type {
    fn add_to(&self, digest: &mut Digest) {
        digest.add(*self as u64);
    }
}

impl Digested for Orthographic {
    fn add_to(&self, digest: &mut Digest) {
        self.xmag.add_to(digest);
        self.ymag.add_to(digest);
        self.zfar.add_to(digest);
        self.znear.add_to(digest);
        self.extensions.add_to(digest);
        self.extras.add_to(digest);
    }
}

impl Digested for Perspective {
    fn add_to(&self, digest: &mut Digest) {
        self.aspect_ratio.add_to(digest);
        self.yfov.add_to(digest);
        self.zfar.add_to(digest);
        self.znear.add_to(digest);
        self.extensions.add_to(digest);
        self.extras.add_to(digest);
    }
}
