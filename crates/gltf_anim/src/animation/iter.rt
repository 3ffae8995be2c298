//! The lists of what stands in an animation: its channels and its samplers.

ghost use Rattle.std.specs.Prelude.{length};
ghost use Rattle.gltf_anim.specs.Animations.{animation_handle, IsChannel, IsSampler};

use crate::animation::{Animation, Channel, Sampler};
use gltf_handles::list::{Indexed, List};
use gltf_rules::{Records, Valid};

/// The channels of an animation, in stored order.
pub type Channels<'a, D = Valid> = List<ChannelsOf<'a, D>>;

/// The samplers of an animation, in stored order.
pub type Samplers<'a, D = Valid> = List<SamplersOf<'a, D>>;

/// The source that `Channels` walks over.
#[derive_where(Clone, Copy)]
#[derive_where(Debug; D)]
pub struct ChannelsOf<'a, D: Records = Valid> {
    /// The animation of the channels.
    pub animation: Animation<'a, D>,
}

impl<'a, D: Records> Indexed for ChannelsOf<'a, D> {
    type Item = Channel<'a, D>;

    ghost count = { λ s. length (animation_handle s.animation).json.channels.items };

    ghost gives = { λ s i c. IsChannel (animation_handle s.animation) i c };

    fn len(&self) -> usize {
        self.animation.inner.json.channels.len()
    }

    fn get(&self, index: usize) -> Channel<'a, D> {
        Channel::new(self.animation, index)
    }
}

/// The source that `Samplers` walks over.
#[derive_where(Clone, Copy)]
#[derive_where(Debug; D)]
pub struct SamplersOf<'a, D: Records = Valid> {
    /// The animation of the samplers.
    pub animation: Animation<'a, D>,
}

impl<'a, D: Records> Indexed for SamplersOf<'a, D> {
    type Item = Sampler<'a, D>;

    ghost count = { λ s. length (animation_handle s.animation).json.samplers.items };

    ghost gives = { λ s i p. IsSampler (animation_handle s.animation) i p };

    fn len(&self) -> usize {
        self.animation.inner.json.samplers.len()
    }

    fn get(&self, index: usize) -> Sampler<'a, D> {
        Sampler::new(self.animation, index)
    }
}
