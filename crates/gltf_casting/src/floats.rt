//! Items that can't be cast.

ghost use Rattle.std.specs.Prelude.{◌≡◌};

/// Items that may be floats, which are not cast.
pub(crate) trait MaybeFloats {
    ghost use Rattle.std.specs.Prelude.{Bool};

    /// They are floats.
    ghost are_floats: { Self → Bool };

    /// Whether they are floats.
    fn are_floats(&self) -> bool
        ensures { result ≡ are_floats self.now };
}
