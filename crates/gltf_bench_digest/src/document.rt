//! Whole documents, as records.
use crate::digest::{Digest, Digested};
use gltf_json::extensions::root::{KhrLightsPunctual, KhrMaterialsVariants, Root as Extensions};
use gltf_json::root::Root;

impl Digested for Root {
    fn add_to(&self, digest: &mut Digest) {
        self.asset.add_to(digest);
        self.accessors.add_to(digest);
        self.animations.add_to(digest);
        self.buffers.add_to(digest);
        self.buffer_views.add_to(digest);
        self.cameras.add_to(digest);
        self.images.add_to(digest);
        self.materials.add_to(digest);
        self.meshes.add_to(digest);
        self.nodes.add_to(digest);
        self.samplers.add_to(digest);
        self.scene.add_to(digest);
        self.scenes.add_to(digest);
        self.skins.add_to(digest);
        self.textures.add_to(digest);
        self.extensions_used.add_to(digest);
        self.extensions_required.add_to(digest);
        self.extensions.add_to(digest);
        self.extras.add_to(digest);
    }
}

impl Digested for Extensions {
    fn add_to(&self, digest: &mut Digest) {
        self.khr_lights_punctual.add_to(digest);
        self.khr_materials_variants.add_to(digest);
        self.others.add_to(digest);
    }
}

impl Digested for KhrLightsPunctual {
    fn add_to(&self, digest: &mut Digest) {
        self.lights.add_to(digest);
    }
}

impl Digested for KhrMaterialsVariants {
    fn add_to(&self, digest: &mut Digest) {
        self.variants.add_to(digest);
    }
}
