//! What is read of animations (glTF 2.0, section 3.11, "Animations"), under the names of the Rust
//! crate.

/// What is read of a channel and its sampler.
pub mod util {
    pub use crate::morph_target_weights::{self, MorphTargetWeights};
    pub use crate::outputs::{ReadInputs, ReadOutputs, Scales, Translations};
    pub use crate::rotations::{self, Rotations};
}
