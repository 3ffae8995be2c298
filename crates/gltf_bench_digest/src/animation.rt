//! Animations.
use crate::digest::{Digest, Digested};
use gltf_json_animation::animation::{
    Animation, Channel, Interpolation, Property, Sampler, Target,
};

impl Digested for Animation {
    fn add_to(&self, digest: &mut Digest) {
        self.channels.add_to(digest);
        self.samplers.add_to(digest);
        self.name.add_to(digest);
        self.extensions.add_to(digest);
        self.extras.add_to(digest);
    }
}

impl Digested for Channel {
    fn add_to(&self, digest: &mut Digest) {
        self.sampler.add_to(digest);
        self.target.add_to(digest);
        self.extras.add_to(digest);
    }
}

impl Digested for Target {
    fn add_to(&self, digest: &mut Digest) {
        self.node.add_to(digest);
        self.path.add_to(digest);
        self.extras.add_to(digest);
    }
}

impl Digested for Property {
    fn add_to(&self, digest: &mut Digest) {
        digest.add(*self as u64);
    }
}

impl Digested for Sampler {
    fn add_to(&self, digest: &mut Digest) {
        self.input.add_to(digest);
        self.interpolation.add_to(digest);
        self.output.add_to(digest);
        self.extras.add_to(digest);
    }
}

impl Digested for Interpolation {
    fn add_to(&self, digest: &mut Digest) {
        digest.add(*self as u64);
    }
}
