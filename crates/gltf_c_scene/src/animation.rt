//! Animations and their channels (glTF 2.0, section 3.11).
ghost use Rattle.std.specs.Prelude.{◌≡◌};
ghost use Rattle.gltf_handles.specs.Sizes.{code_of};
ghost use Rattle.gltf_c_scene.specs.Animations.{shown_animation, shown_animation_of};
ghost use Rattle.gltf_c_scene.specs.Animations.{shown_channel, shown_channel_of};
ghost use Rattle.gltf_c_scene.specs.Animations.{path_number, interpolation_number};

use gltf_json::Root;
use gltf_json::animation::{Animation, Channel, Interpolation, Property, Sampler};
use gltf_json_record::validation::Checked;

/// What an animation is (glTF 2.0, section 5.5). C declares the same struct.
#[repr(C)]
#[derive(Clone, Copy, Drop)]
pub struct GltfAnimation {
    /// How many channels there are.
    pub channels: usize,
    /// How many samplers there are.
    pub samplers: usize,
    /// 0.
    pub reserved: [usize; 2],
}

/// What a channel is, with its sampler (glTF 2.0, sections 5.6 to 5.8). C declares the same struct.
#[repr(C)]
#[derive(Clone, Copy, Drop)]
pub struct GltfChannel {
    /// The node that it animates.
    pub node: usize,
    /// What it animates: 0 translation, 1 rotation, 2 scale, 3 weights.
    pub path: u32,
    /// How values between keyframes come about: 0 linear, 1 step, 2 cubic spline.
    pub interpolation: u32,
    /// The number of the sampler in the animation.
    pub sampler: usize,
    /// The accessor of the times.
    pub input: usize,
    /// The accessor of the values.
    pub output: usize,
    /// 0.
    pub reserved: [usize; 2],
}

/// What the animation at an index is.
pub fn animation(root: &Root, index: usize) -> Option<GltfAnimation>
    ensures { result ≡ shown_animation_of index root.now }
{
    Some(shown_animation(root.animations.get(index)?))
}

fn shown_animation(animation: &Animation) -> GltfAnimation
    ensures { result ≡ shown_animation animation.now }
{
    GltfAnimation {
        channels: animation.channels.len(),
        samplers: animation.samplers.len(),
        reserved: [0; 2],
    }
}

/// What a channel of an animation is.
pub fn channel(root: &Root, animation: usize, index: usize) -> Option<GltfChannel>
    ensures { result ≡ shown_channel_of animation index root.now }
{
    let animation = root.animations.get(animation)?;
    let channel = animation.channels.get(index)?;
    let sampler = animation.samplers.get(channel.sampler.value())?;
    Some(shown_channel(channel, sampler))
}

fn shown_channel(channel: &Channel, sampler: &Sampler) -> GltfChannel
    ensures { result ≡ shown_channel channel.now sampler.now }
{
    GltfChannel {
        node: channel.target.node.value(),
        path: path_number(channel.target.path),
        interpolation: interpolation_number(sampler.interpolation),
        sampler: channel.sampler.value(),
        input: sampler.input.value(),
        output: sampler.output.value(),
        reserved: [0; 2],
    }
}

/// The number of a path.
fn path_number(path: Checked<Property>) -> u32
    ensures { result ≡ code_of path_number path }
{
    match path {
        Checked::Valid(Property::Translation) | Checked::Invalid => 0,
        Checked::Valid(Property::Rotation) => 1,
        Checked::Valid(Property::Scale) => 2,
        Checked::Valid(Property::MorphTargetWeights) => 3,
    }
}

/// The number of an interpolation.
fn interpolation_number(interpolation: Checked<Interpolation>) -> u32
    ensures { result ≡ code_of interpolation_number interpolation }
{
    match interpolation {
        Checked::Valid(Interpolation::Linear) | Checked::Invalid => 0,
        Checked::Valid(Interpolation::Step) => 1,
        Checked::Valid(Interpolation::CubicSpline) => 2,
    }
}
