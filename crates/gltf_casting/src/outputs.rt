//! What keyframes are read as (glTF 2.0, section 3.11, "Animations").

use crate::morph_target_weights::MorphTargetWeights;
use crate::rotations::Rotations;
use gltf_data::accessor::Iter;
use gltf_items::F32;

/// The times of keyframes, in seconds.
pub type ReadInputs<'a> = Iter<'a, F32>;

/// Translations: x, y and z.
pub type Translations<'a> = Iter<'a, [F32; 3]>;

/// Scales: x, y and z.
pub type Scales<'a> = Iter<'a, [F32; 3]>;

/// What keyframes hold, by the property that a channel animates.
#[derive(Clone, Debug, Drop)]
pub enum ReadOutputs<'a> {
    /// Translations of a node.
    Translations(Translations<'a>),
    /// Rotations of a node.
    Rotations(Rotations<'a>),
    /// Scales of a node.
    Scales(Scales<'a>),
    /// Weights of the morph targets of a node's mesh.
    MorphTargetWeights(MorphTargetWeights<'a>),
}
