//! The keyframes of cubic splines.

ghost use Rattle.std.specs.Prelude.{◌≡◌, ◌≢◌, ◌+◌, ◌*◌, ◌%◌, ◌<◌, Some};
ghost use Rattle.std.specs.Prelude.{length, slice_get};
ghost use Rattle.std.specs.Prelude.{MatchOption};
ghost use Rattle.gltf_geometry.specs.Items.{items_left};
ghost use Rattle.gltf_geometry.specs.Splines.{keyframes};

use crate::items::{Items, Sequence};

/// What the output of a sampler whose interpolation is `CUBICSPLINE` has for a keyframe (glTF 2.0,
/// section 3.11, "Animations", and appendix C, "Animation Sampler Interpolation Modes").
#[derive(Clone, Copy, Debug)]
pub struct Keyframe<T> {
    /// The tangent with which the spline arrives.
    pub in_tangent: T,
    /// The value at the keyframe.
    pub value: T,
    /// The tangent with which the spline goes on.
    pub out_tangent: T,
}

/// Outputs in threes.
#[derive_where(Clone, Copy; T)]
#[derive_where(Debug; T)]
pub struct KeyframeSequence<'a, T: Copy> {
    outputs: &'a [T],
}

/// The keyframe at a number.
fn keyframe_at<T: Copy>(outputs: &[T], index: usize) -> Keyframe<T>
    requires { 3 * index + 2 < length outputs.now }
    ensures in_tangent { slice_get outputs.now (3 * index) ≡ Some result.in_tangent }
    ensures value { slice_get outputs.now (3 * index + 1) ≡ Some result.value }
    ensures out_tangent { slice_get outputs.now (3 * index + 2) ≡ Some result.out_tangent }
{
    Keyframe {
        in_tangent: outputs[3 * index],
        value: outputs[3 * index + 1],
        out_tangent: outputs[3 * index + 2],
    }
}

impl<'a, T: Copy> Sequence for KeyframeSequence<'a, T> {
    ghost use Rattle.gltf_geometry.specs.Splines.{keyframes};

    type Item = Keyframe<T>;

    ghost list = { λ s. keyframes s.outputs.now };

    fn len(&self) -> usize {
        self.outputs.len() / 3
    }

    fn get(&self, index: usize) -> Keyframe<T> {
        keyframe_at(self.outputs, index)
    }
}

/// The keyframes of a spline.
pub type Spline<'a, T> = Items<KeyframeSequence<'a, T>>;

/// The keyframes of the outputs of a sampler whose interpolation is `CUBICSPLINE`: for each an
/// in-tangent, a value and an out-tangent (glTF 2.0, section 3.11). None where their number is no
/// multiple of three.
///
/// It is for one value a keyframe: translations, rotations, scales, or the weight of one morph
/// target. Of several weights a keyframe has all in-tangents first, then all values, then all
/// out-tangents.
pub fn spline<'a, T: Copy>(outputs: &'a [T]) -> Option<Spline<'a, T>>
    ensures { MatchOption result (length outputs.now % 3 ≢ 0)
        (λ s. (length outputs.now % 3 ≡ 0) × (items_left s ≡ keyframes outputs.now)) }
{
    if outputs.len() % 3 == 0 {
        Some(Items::new(KeyframeSequence { outputs }))
    } else {
        None
    }
}
