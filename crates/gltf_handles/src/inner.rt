//! What handles are made of.

ghost use Rattle.std.specs.Prelude.{◌≡◌, ⊤};
ghost use Rattle.gltf_validation.specs.Documents.{counts_of};
ghost use Rattle.gltf_validation.specs.Rules.{Hold, Hold-prop};

use gltf_rules::{Records, Valid};
use gltf_validation::validate::Validate;
use std::alloc::AllocError;

/// A record of a document, with the fact that its rules hold.
#[derive_where(Debug; T, D)]
pub struct Inner<'a, T: Validate, D: Records = Valid> {
    /// The document.
    pub document: &'a D,
    /// The record.
    pub json: &'a T,
    /// The rules of the record hold.
    pub ghost holds: { Hold (T.rules (counts_of (D.root document.now)) json.now) } by { Hold-prop
        (T.rules (counts_of (D.root document.now)) json.now) },
}

impl<'a, T: Validate, D: Records> Copy for Inner<'a, T, D> {}

impl<'a, T: Validate, D: Records> Clone for Inner<'a, T, D> {
    ghost is_clone = { λ x y. y ≡ x };

    ghost is_infallible = { λ _. ⊤ };

    fn clone(&self) -> Result<Self, AllocError> {
        Ok(*self)
    }
}
