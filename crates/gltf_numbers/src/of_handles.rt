//! What has numbers.

/// A handle with numbers among its members.
pub trait Numbers {
    ghost use Rattle.std.specs.Prelude.{◌≡◌, Option};

    /// Its numbers.
    type Numbers;

    /// The numbers that its record states, with the defaults of the standard.
    ghost of: { Self → Option Self.Numbers };

    /// The numbers, each the nearest double to its decimal text, and the default of the standard
    /// where a member is absent; None exactly where a member is there and is no number, or no list
    /// of as many numbers as the standard asks for, or where a member without a default is absent.
    fn numbers(&self) -> Option<Self::Numbers>
        ensures { result ≡ of self.now };
}
