//! Records of extensions with their document.
ghost use Rattle.std.specs.Prelude.{◌≡◌, ⊤};
ghost use Rattle.gltf_validation.specs.Documents.{counts_of};
ghost use Rattle.gltf_validation.specs.Rules.{Hold, Hold-prop};

use gltf_rules::{Records, Valid};
use gltf_validation::validate::Validate;
use std::alloc::AllocError;

/// A record that was read from an extension, with the document whose lists it points into. Its
/// rules hold: each index has its referent.
#[derive_where(Debug; R, D)]
pub struct Handle<'a, R: Validate + Copy, D: Records = Valid> {
    pub(crate) document: &'a D,
    pub(crate) json: R,
    pub(crate) ghost holds: { Hold (R.rules (counts_of (D.root document.now)) json) } by { Hold-prop (R.rules (counts_of (D.root document.now)) json) },
}

impl<'a, R: Validate + Copy, D: Records> Copy for Handle<'a, R, D> {}

impl<'a, R: Validate + Copy, D: Records> Clone for Handle<'a, R, D> {
    ghost is_clone = { λ x y. y ≡ x };

    ghost is_infallible = { λ _. ⊤ };

    fn clone(&self) -> Result<Self, AllocError> {
        Ok(Handle {
            document: self.document,
            json: self.json,
        })
    }
}

impl<'a, R: Validate + Copy, D: Records> Handle<'a, R, D> {
    ghost use Rattle.gltf_extensions.specs.Handles.{handle_of};

    /// The record, with all its members.
    pub fn as_record(&self) -> &R
        ensures { result.now ≡ (handle_of self.now).json }
    {
        &self.json
    }
}
