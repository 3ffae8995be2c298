//! Animations (glTF 2.0, section 3.11, "Animations").
ghost use Rattle.std.specs.Prelude.{IfOk};
ghost use Rattle.gltf_json_record.specs.Copy.{IsCopy};

use gltf_json_record::boxed::Boxed;
use gltf_json_record::copy::Copies;
use gltf_json_record::error::Error;
use gltf_json_record::extensions::Others;
use gltf_json_record::extras::Extras;
use gltf_json_record::index::Index;
use gltf_json_record::lent::{Maybe, Member};
use gltf_json_record::read::FromValue;
use gltf_json_record::validation::{Checked, Code};
use gltf_json_record::{copy_record, kinds, read_record};
use serde_json::Value;
use std::alloc::{AllocError, Global};

/// How values between two keyframes are made (glTF 2.0, section 5.8.2,
/// `animation.sampler.interpolation`).
#[derive(Clone, Copy, Debug, PartialEq, Eq)]
pub enum Interpolation {
    /// On a line between the two values: the code `LINEAR`.
    Linear,
    /// The value of the keyframe before: the code `STEP`.
    Step,
    /// On a cubic curve with the tangents that the output has too: the code `CUBICSPLINE`.
    CubicSpline,
}

impl Interpolation {
    ghost use Rattle.std.specs.Prelude.{◌≡◌, Some};
    ghost use Rattle.serde_json.specs.Data.{string};
    ghost use Rattle.gltf_json_record.specs.declared.validation.Checked.TheVariants.{Valid};
    ghost use Rattle.gltf_json_animation.specs.Codes.{interpolation};

    /// The string that stands for it in JSON (glTF 2.0, section 5.8.2,
    /// `animation.sampler.interpolation`), as `LINEAR`.
    pub fn as_str(&self) -> &'static str
        ensures { interpolation (string result.now) ≡ Some (Valid self.now) }
    {
        match self {
            Interpolation::Linear => "LINEAR",
            Interpolation::Step => "STEP",
            Interpolation::CubicSpline => "CUBICSPLINE",
        }
    }
}

impl Code for Interpolation {
    ghost use Rattle.gltf_json_animation.specs.Codes.{interpolation};

    ghost reads = { interpolation };

    fn read(value: &Value) -> Option<Checked<Interpolation>> {
        Some(match value.as_str()? {
            "LINEAR" => Checked::Valid(Interpolation::Linear),
            "STEP" => Checked::Valid(Interpolation::Step),
            "CUBICSPLINE" => Checked::Valid(Interpolation::CubicSpline),
            _ => Checked::Invalid,
        })
    }
}

/// What of a node is animated (glTF 2.0, section 5.7.2, `animation.channel.target.path`).
#[derive(Clone, Copy, Debug, PartialEq, Eq)]
pub enum Property {
    /// Its translation: the code `translation`.
    Translation,
    /// Its rotation: the code `rotation`.
    Rotation,
    /// Its scale: the code `scale`.
    Scale,
    /// The weights of its morph targets: the code `weights`.
    MorphTargetWeights,
}

impl Property {
    ghost use Rattle.std.specs.Prelude.{◌≡◌, Some};
    ghost use Rattle.serde_json.specs.Data.{string};
    ghost use Rattle.gltf_json_record.specs.declared.validation.Checked.TheVariants.{Valid};
    ghost use Rattle.gltf_json_animation.specs.Codes.{property};

    /// The string that stands for it in JSON (glTF 2.0, section 5.7.2,
    /// `animation.channel.target.path`), as `translation`.
    pub fn as_str(&self) -> &'static str
        ensures { property (string result.now) ≡ Some (Valid self.now) }
    {
        match self {
            Property::Translation => "translation",
            Property::Rotation => "rotation",
            Property::Scale => "scale",
            Property::MorphTargetWeights => "weights",
        }
    }
}

impl Code for Property {
    ghost use Rattle.gltf_json_animation.specs.Codes.{property};

    ghost reads = { property };

    fn read(value: &Value) -> Option<Checked<Property>> {
        Some(match value.as_str()? {
            "translation" => Checked::Valid(Property::Translation),
            "rotation" => Checked::Valid(Property::Rotation),
            "scale" => Checked::Valid(Property::Scale),
            "weights" => Checked::Valid(Property::MorphTargetWeights),
            _ => Checked::Invalid,
        })
    }
}

/// What a channel animates (glTF 2.0, section 5.7, "Animation Channel Target").
#[derive(Debug, Drop)]
pub struct Target {
    /// The node: `node`. A target without it is refused.
    pub node: Index<kinds::Node>,
    /// What of the node: `path`.
    pub path: Checked<Property>,
    /// What the application stores here: `extras`.
    pub extras: Extras,
}

impl Target {
    ghost use Rattle.gltf_json_animation.specs.Animations.{target};

    /// A copy of the record, which shows what this one shows.
    #[tactic(auto, unfolding(crate::specs::Animations::target))]
    pub fn clone(&self, alloc: Global) -> Result<Target, AllocError>
        ensures { IfOk result (IsCopy target self.now) }
    {
        copy_record!(self, alloc; Target { node, path, } with {
            extras: Maybe,
        })
    }
}

impl Copies for Target {
    fn copy(&self, alloc: Global) -> Result<Target, AllocError> {
        self.clone(alloc)
    }
}

/// The rows of the target of a channel, for a macro that reads a record by them:
/// `target_rows!(read_record!(alloc, value))`.
#[macro_export]
macro_rules! target_rows {
    ($read:ident!($($from:ident),*)) => {
        $read!($($from),*; Target {
            node: required("node"),
            path: required("path"),
            extras: optional("extras"),
        })
    };
}

impl FromValue for Target {
    ghost use Rattle.gltf_json_animation.specs.Animations.{target};

    ghost kind = { target };

    #[tactic(auto, unfolding(crate::specs::Animations::target))]
    fn from_value(alloc: Global, value: &Value) -> Result<Target, Error> {
        target_rows!(read_record!(alloc, value))
    }
}

/// A sampler, and what it animates (glTF 2.0, section 5.6, "Animation Channel").
#[derive(Debug, Drop)]
pub struct Channel {
    /// The sampler, of the same animation: `sampler`.
    pub sampler: Index<kinds::AnimationSampler>,
    /// What is animated: `target`.
    pub target: Target,
    /// What the application stores here: `extras`.
    pub extras: Extras,
}

impl Channel {
    ghost use Rattle.gltf_json_animation.specs.Animations.{channel};

    /// A copy of the record, which shows what this one shows.
    #[tactic(auto, unfolding(crate::specs::Animations::channel))]
    pub fn clone(&self, alloc: Global) -> Result<Channel, AllocError>
        ensures { IfOk result (IsCopy channel self.now) }
    {
        copy_record!(self, alloc; Channel { sampler, } with {
            target: Member,
            extras: Maybe,
        })
    }
}

impl Copies for Channel {
    fn copy(&self, alloc: Global) -> Result<Channel, AllocError> {
        self.clone(alloc)
    }
}

/// The rows of a channel, for a macro that reads a record by them:
/// `channel_rows!(read_record!(alloc, value))`.
#[macro_export]
macro_rules! channel_rows {
    ($read:ident!($($from:ident),*)) => {
        $read!($($from),*; Channel {
            sampler: required("sampler"),
            target: required("target"),
            extras: optional("extras"),
        })
    };
}

impl FromValue for Channel {
    ghost use Rattle.gltf_json_animation.specs.Animations.{channel};

    ghost kind = { channel };

    #[tactic(auto, unfolding(crate::specs::Animations::channel))]
    fn from_value(alloc: Global, value: &Value) -> Result<Channel, Error> {
        channel_rows!(read_record!(alloc, value))
    }
}

/// Keyframes, and how values between them are made (glTF 2.0, section 5.8, "Animation Sampler").
#[derive(Debug, Drop)]
pub struct Sampler {
    /// The accessor of the keyframes' times, in seconds: `input`.
    pub input: Index<kinds::Accessor>,
    /// How values between two keyframes are made: `interpolation`. `Linear` where absent.
    pub interpolation: Checked<Interpolation>,
    /// The accessor of the keyframes' values: `output`.
    pub output: Index<kinds::Accessor>,
    /// What the application stores here: `extras`.
    pub extras: Extras,
}

impl Sampler {
    ghost use Rattle.gltf_json_animation.specs.Animations.{sampler};

    /// A copy of the record, which shows what this one shows.
    #[tactic(auto, unfolding(crate::specs::Animations::sampler))]
    pub fn clone(&self, alloc: Global) -> Result<Sampler, AllocError>
        ensures { IfOk result (IsCopy sampler self.now) }
    {
        copy_record!(self, alloc; Sampler { input, interpolation, output, } with {
            extras: Maybe,
        })
    }
}

impl Copies for Sampler {
    fn copy(&self, alloc: Global) -> Result<Sampler, AllocError> {
        self.clone(alloc)
    }
}

/// The rows of a sampler of an animation, for a macro that reads a record by them:
/// `sampler_rows!(read_record!(alloc, value))`.
#[macro_export]
macro_rules! sampler_rows {
    ($read:ident!($($from:ident),*)) => {
        $read!($($from),*; Sampler {
            input: required("input"),
            interpolation: or_default(
                "interpolation",
                Checked::Valid($crate::animation::Interpolation::Linear)
            ),
            output: required("output"),
            extras: optional("extras"),
        })
    };
}

impl FromValue for Sampler {
    ghost use Rattle.gltf_json_animation.specs.Animations.{sampler};

    ghost kind = { sampler };

    #[tactic(auto, unfolding(crate::specs::Animations::sampler))]
    fn from_value(alloc: Global, value: &Value) -> Result<Sampler, Error> {
        sampler_rows!(read_record!(alloc, value))
    }
}

/// An animation of nodes (glTF 2.0, section 5.5, "Animation").
#[derive(Debug, Drop)]
pub struct Animation {
    /// What is animated, and by which sampler: `channels`.
    pub channels: Vec<Channel>,
    /// The keyframes: `samplers`.
    pub samplers: Vec<Sampler>,
    /// A name given by the user: `name`.
    pub name: Option<String>,
    /// The extensions: `extensions`. None is known here.
    pub extensions: Option<Boxed<Others>>,
    /// What the application stores here: `extras`.
    pub extras: Extras,
}

impl Animation {
    ghost use Rattle.gltf_json_animation.specs.Animations.{animation};

    /// A copy of the record, which shows what this one shows.
    #[tactic(auto, unfolding(crate::specs::Animations::animation))]
    pub fn clone(&self, alloc: Global) -> Result<Animation, AllocError>
        ensures { IfOk result (IsCopy animation self.now) }
    {
        copy_record!(self, alloc; Animation {} with {
            channels: Member,
            samplers: Member,
            name: Maybe,
            extensions: Maybe,
            extras: Maybe,
        })
    }
}

impl Copies for Animation {
    fn copy(&self, alloc: Global) -> Result<Animation, AllocError> {
        self.clone(alloc)
    }
}

/// The rows of an animation, for a macro that reads a record by them:
/// `animation_rows!(read_record!(alloc, value))`.
#[macro_export]
macro_rules! animation_rows {
    ($read:ident!($($from:ident),*)) => {
        $read!($($from),*; Animation {
            channels: required("channels"),
            samplers: required("samplers"),
            name: optional("name"),
            extensions: optional("extensions"),
            extras: optional("extras"),
        })
    };
}

impl FromValue for Animation {
    ghost use Rattle.gltf_json_animation.specs.Animations.{animation};

    ghost kind = { animation };

    #[tactic(auto, unfolding(crate::specs::Animations::animation))]
    fn from_value(alloc: Global, value: &Value) -> Result<Animation, Error> {
        animation_rows!(read_record!(alloc, value))
    }
}
