//! Animations, what they animate, and by which keyframes (glTF 2.0, section 3.11, "Animations").

pub mod iter;

ghost use Rattle.std.specs.Prelude.{◌≡◌, ◌<◌, length, ⊤};
ghost use Rattle.std.specs.Option.{option_copied};
ghost use Rattle.gltf_handles.specs.Members.{text, unknown_extensions, extension_named, IsCode};
ghost use Rattle.gltf_validation.specs.Animations.{animation_sampler_rules};
ghost use Rattle.gltf_validation.specs.Animations.{channel_rules, target_rules, within_animation};
ghost use Rattle.gltf_validation.specs.Documents.{counts_of};
ghost use Rattle.gltf_validation.specs.Rules.{Hold, Hold-prop};

use crate::animation::iter::{Channels, ChannelsOf, Samplers, SamplersOf};
use gltf_handles::accessor::Accessor;
use gltf_handles::inner::Inner;
use gltf_handles::list::List;
use gltf_handles::member::{meaning, unknown_extensions};
pub use gltf_json::animation::{Interpolation, Property};
use gltf_json::boxed::lent;
use gltf_json::{Map, Value, animation, kinds};
use gltf_rules::{Records, Valid, element};
use gltf_scene::scene::Node;
use std::alloc::AllocError;

/// An animation of nodes (glTF 2.0, section 5.5, "Animation").
#[derive_where(Clone, Copy)]
#[derive_where(Debug; D)]
pub struct Animation<'a, D: Records = Valid> {
    index: usize,
    inner: Inner<'a, animation::Animation, D>,
}

impl<'a, D: Records> Animation<'a, D> {
    ghost use Rattle.gltf_anim.specs.Animations.{animation_handle, IsAnimation};
    ghost use Rattle.gltf_anim.specs.Lists.{AreChannels, AreSamplers};
    ghost use Rattle.gltf_handles.specs.Lists.{position};

    /// The animation at an index below the number of animations.
    pub fn new(document: &'a D, index: usize) -> Self
        requires { index < length (D.root document.now).animations.items }
        ensures { IsAnimation (D.root document.now) index result }
    {
        Animation {
            index,
            inner: Inner {
                document,
                json: document.get::<kinds::Animation>(index),
            },
        }
    }

    /// The position among the animations of the document.
    pub fn index(&self) -> usize
        ensures { result ≡ (animation_handle self.now).index }
    {
        self.index
    }

    /// The name given by the user.
    pub fn name(&self) -> Option<&'a str>
        ensures { option_copied result ≡ text (animation_handle self.now).json.name }
    {
        self.inner.json.name.as_deref()
    }

    /// What is animated, and by which samplers, in stored order: `channels`.
    pub fn channels(&self) -> Channels<'a, D>
        ensures { AreChannels (animation_handle self.now) (position result) }
    {
        List::new(ChannelsOf { animation: *self })
    }

    /// The keyframes, in stored order: `samplers`.
    pub fn samplers(&self) -> Samplers<'a, D>
        ensures { AreSamplers (animation_handle self.now) (position result) }
    {
        List::new(SamplersOf { animation: *self })
    }

    /// The extensions, none of which is known at an animation; None where there is no member
    /// `extensions`.
    pub fn extensions(&self) -> Option<&'a Map<String, Value>>
        ensures { option_copied result
            ≡ unknown_extensions (animation_handle self.now).json.extensions }
    {
        unknown_extensions(&self.inner.json.extensions)
    }

    /// The extension of this name.
    pub fn extension_value(&self, name: &str) -> Option<&'a Value>
        ensures { option_copied result ≡ extension_named name.now
            (unknown_extensions (animation_handle self.now).json.extensions) }
    {
        self.extensions()?.get(name)
    }

    /// What the application stores here: `extras`.
    pub fn extras(&self) -> Option<&'a Value>
        ensures { option_copied result ≡ (animation_handle self.now).json.extras }
    {
        lent(&self.inner.json.extras)
    }
}

/// A sampler, and what it animates (glTF 2.0, section 5.6, "Animation Channel").
#[derive_where(Debug; D)]
pub struct Channel<'a, D: Records = Valid> {
    animation: Animation<'a, D>,
    index: usize,
    json: &'a animation::Channel,
    ghost holds: { Hold (channel_rules
        (within_animation (counts_of (D.root animation.inner.document.now))
        animation.inner.json.now) json.now) } by { Hold-prop (channel_rules
            (within_animation (counts_of (D.root animation.inner.document.now))
            animation.inner.json.now) json.now) },
}

impl<'a, D: Records> Copy for Channel<'a, D> {}

impl<'a, D: Records> Clone for Channel<'a, D> {
    ghost is_clone = { λ x y. y ≡ x };

    ghost is_infallible = { λ _. ⊤ };

    fn clone(&self) -> Result<Self, AllocError> {
        Ok(*self)
    }
}

impl<'a, D: Records> Channel<'a, D> {
    ghost use Rattle.gltf_anim.specs.Animations.{animation_handle, channel_handle, IsChannel};
    ghost use Rattle.gltf_anim.specs.Animations.{IsSampler, IsTarget};

    /// The channel at an index below the number of an animation's channels.
    pub fn new(animation: Animation<'a, D>, index: usize) -> Self
        requires { index < length (animation_handle animation).json.channels.items }
        ensures { IsChannel (animation_handle animation.entry) index result }
    {
        Channel {
            animation,
            index,
            json: element(&animation.inner.json.channels, index),
        }
    }

    /// The animation of the channel.
    pub fn animation(&self) -> Animation<'a, D>
        ensures { animation_handle result ≡ (channel_handle self.now).animation }
    {
        self.animation
    }

    /// The sampler, of the same animation: `sampler`.
    pub fn sampler(&self) -> Sampler<'a, D>
        ensures { IsSampler (channel_handle self.now).animation
            (channel_handle self.now).json.sampler result }
    {
        Sampler::new(self.animation, self.json.sampler.value())
    }

    /// What is animated: `target`.
    pub fn target(&self) -> Target<'a, D>
        ensures { IsTarget (channel_handle self.now).animation
            (channel_handle self.now).json.target result }
    {
        Target {
            animation: self.animation,
            json: &self.json.target,
        }
    }

    /// The position among the channels of the animation.
    pub fn index(&self) -> usize
        ensures { result ≡ (channel_handle self.now).index }
    {
        self.index
    }

    /// What the application stores here: `extras`.
    pub fn extras(&self) -> Option<&'a Value>
        ensures { option_copied result ≡ (channel_handle self.now).json.extras }
    {
        lent(&self.json.extras)
    }
}

/// What a channel animates (glTF 2.0, section 5.7, "Animation Channel Target").
#[derive_where(Debug; D)]
pub struct Target<'a, D: Records = Valid> {
    animation: Animation<'a, D>,
    json: &'a animation::Target,
    ghost holds: { Hold
        (target_rules (counts_of (D.root animation.inner.document.now)) json.now) } by { Hold-prop
            (target_rules (counts_of (D.root animation.inner.document.now)) json.now) },
}

impl<'a, D: Records> Copy for Target<'a, D> {}

impl<'a, D: Records> Clone for Target<'a, D> {
    ghost is_clone = { λ x y. y ≡ x };

    ghost is_infallible = { λ _. ⊤ };

    fn clone(&self) -> Result<Self, AllocError> {
        Ok(*self)
    }
}

impl<'a, D: Records> Target<'a, D> {
    ghost use Rattle.gltf_anim.specs.Animations.{animation_handle, target_handle};
    ghost use Rattle.gltf_scene.specs.Nodes.{IsNode};

    /// The animation of the target.
    pub fn animation(&self) -> Animation<'a, D>
        ensures { animation_handle result ≡ (target_handle self.now).animation }
    {
        self.animation
    }

    /// The node: `node`.
    pub fn node(&self) -> Node<'a, D>
        ensures { IsNode (target_handle self.now).animation.document
            (target_handle self.now).json.node result }
    {
        Node::new(self.animation.inner.document, self.json.node.value())
    }

    /// What of the node is animated: `path`.
    pub fn property(&self) -> Property
        ensures { IsCode (target_handle self.now).json.path result }
    {
        meaning(self.json.path)
    }

    /// What the application stores here: `extras`.
    pub fn extras(&self) -> Option<&'a Value>
        ensures { option_copied result ≡ (target_handle self.now).json.extras }
    {
        lent(&self.json.extras)
    }
}

/// Keyframes, and how values between two of them are made (glTF 2.0, section 5.8, "Animation
/// Sampler").
#[derive_where(Debug; D)]
pub struct Sampler<'a, D: Records = Valid> {
    animation: Animation<'a, D>,
    index: usize,
    json: &'a animation::Sampler,
    ghost holds: { Hold (animation_sampler_rules
        (counts_of (D.root animation.inner.document.now)) json.now) } by { Hold-prop
            (animation_sampler_rules
            (counts_of (D.root animation.inner.document.now)) json.now) },
}

impl<'a, D: Records> Copy for Sampler<'a, D> {}

impl<'a, D: Records> Clone for Sampler<'a, D> {
    ghost is_clone = { λ x y. y ≡ x };

    ghost is_infallible = { λ _. ⊤ };

    fn clone(&self) -> Result<Self, AllocError> {
        Ok(*self)
    }
}

impl<'a, D: Records> Sampler<'a, D> {
    ghost use Rattle.gltf_anim.specs.Animations.{animation_handle, sampler_handle, IsSampler};
    ghost use Rattle.gltf_handles.specs.Accessors.{IsAccessor};

    /// The sampler at an index below the number of an animation's samplers.
    pub fn new(animation: Animation<'a, D>, index: usize) -> Self
        requires { index < length (animation_handle animation).json.samplers.items }
        ensures { IsSampler (animation_handle animation.entry) index result }
    {
        Sampler {
            animation,
            index,
            json: animation
                .inner
                .document
                .element(animation.inner.json.samplers.as_slice(), index),
        }
    }

    /// The animation of the sampler.
    pub fn animation(&self) -> Animation<'a, D>
        ensures { animation_handle result ≡ (sampler_handle self.now).animation }
    {
        self.animation
    }

    /// The position among the samplers of the animation.
    pub fn index(&self) -> usize
        ensures { result ≡ (sampler_handle self.now).index }
    {
        self.index
    }

    /// The accessor of the keyframes' times, in seconds from the animation's start: `input`, one
    /// number a keyframe.
    pub fn input(&self) -> Accessor<'a, D>
        ensures { IsAccessor (sampler_handle self.now).animation.document
            (sampler_handle self.now).json.input result }
    {
        Accessor::new(self.animation.inner.document, self.json.input.value())
    }

    /// How values between two keyframes are made: `interpolation`, `Linear` where that is absent.
    pub fn interpolation(&self) -> Interpolation
        ensures { IsCode (sampler_handle self.now).json.interpolation result }
    {
        meaning(self.json.interpolation)
    }

    /// The accessor of the keyframes' values: `output`. A translation or a scale is three numbers,
    /// a rotation a quaternion of four (x, y, z and w), a weight one number a morph target; where
    /// the interpolation is `CubicSpline`, each keyframe has an in-tangent, a value and an
    /// out-tangent.
    pub fn output(&self) -> Accessor<'a, D>
        ensures { IsAccessor (sampler_handle self.now).animation.document
            (sampler_handle self.now).json.output result }
    {
        Accessor::new(self.animation.inner.document, self.json.output.value())
    }

    /// What the application stores here: `extras`.
    pub fn extras(&self) -> Option<&'a Value>
        ensures { option_copied result ≡ (sampler_handle self.now).json.extras }
    {
        lent(&self.json.extras)
    }
}
