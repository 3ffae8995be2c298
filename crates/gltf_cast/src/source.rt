//! The numbers that are cast.

ghost use Rattle.std.specs.Prelude.{◌≡◌, ℤ, pos};
ghost use Rattle.gltf_cast.specs.Casts.{Whole, I8, U8, I16, U16, cast};

use crate::number::Number;

/// A number that can be cast to each type of numbers.
pub(crate) trait Source: Copy {
    /// Its type.
    ghost kind: { Whole };

    /// The whole number that it is.
    ghost whole: { Self → ℤ };

    /// Casts it.
    fn to_number<N: Number>(self) -> N
        ensures { result ≡ N.of_whole (cast kind N.kind (whole self)) };
}

impl Source for i8 {
    ghost kind = { I8 };

    ghost whole = { λ x. x };

    fn to_number<N: Number>(self) -> N {
        N::from_i8(self)
    }
}

impl Source for u8 {
    ghost kind = { U8 };

    ghost whole = { pos };

    fn to_number<N: Number>(self) -> N {
        N::from_u8(self)
    }
}

impl Source for i16 {
    ghost kind = { I16 };

    ghost whole = { λ x. x };

    fn to_number<N: Number>(self) -> N {
        N::from_i16(self)
    }
}

impl Source for u16 {
    ghost kind = { U16 };

    ghost whole = { pos };

    fn to_number<N: Number>(self) -> N {
        N::from_u16(self)
    }
}
