//! The numbers that others are cast to.

ghost use Rattle.std.specs.Prelude.{◌≡◌, ℤ, pos, nat_abs};
ghost use Rattle.gltf_cast.specs.Casts.{Whole, I8, U8, I16, U16, cast, greatest_of};

/// A normalized integer: a whole number that stands for a fraction, the greatest of its type for 1
/// (glTF 2.0, section 5.1.4, `normalized`).
///
/// It is cast as in the Rust crate, by a power of two: to more bits by a multiplication, to fewer
/// by a division towards zero, and from a negative number to 0 where the type has no sign.
pub trait Number: Copy {
    /// Its type.
    ghost kind: { Whole };

    /// The number of this type that a whole number is.
    ghost of_whole: { ℤ → Self };

    /// Casts a number of one byte with a sign.
    fn from_i8(x: i8) -> Self
        ensures { result ≡ of_whole (cast I8 kind x) };

    /// Casts a number of one byte.
    fn from_u8(x: u8) -> Self
        ensures { result ≡ of_whole (cast U8 kind (pos x)) };

    /// Casts a number of two bytes with a sign.
    fn from_i16(x: i16) -> Self
        ensures { result ≡ of_whole (cast I16 kind x) };

    /// Casts a number of two bytes.
    fn from_u16(x: u16) -> Self
        ensures { result ≡ of_whole (cast U16 kind (pos x)) };

    /// The greatest number of this type, which stands for 1.
    fn greatest() -> Self
        ensures { result ≡ of_whole (greatest_of kind) };
}

impl Number for i8 {
    ghost kind = { I8 };

    ghost of_whole = { λ x. x };

    fn from_i8(x: i8) -> i8 {
        x
    }

    fn from_u8(x: u8) -> i8 {
        (x / 2) as i8
    }

    fn from_i16(x: i16) -> i8 {
        (x / 256) as i8
    }

    fn from_u16(x: u16) -> i8 {
        (x / 512) as i8
    }

    fn greatest() -> i8 {
        i8::MAX
    }
}

impl Number for u8 {
    ghost kind = { U8 };

    ghost of_whole = { nat_abs };

    fn from_i8(x: i8) -> u8 {
        if x < 0 { 0 } else { 2 * x as u8 }
    }

    fn from_u8(x: u8) -> u8 {
        x
    }

    fn from_i16(x: i16) -> u8 {
        if x < 0 { 0 } else { (x / 128) as u8 }
    }

    fn from_u16(x: u16) -> u8 {
        (x / 256) as u8
    }

    fn greatest() -> u8 {
        u8::MAX
    }
}

impl Number for i16 {
    ghost kind = { I16 };

    ghost of_whole = { λ x. x };

    fn from_i8(x: i8) -> i16 {
        256 * x as i16
    }

    fn from_u8(x: u8) -> i16 {
        128 * x as i16
    }

    fn from_i16(x: i16) -> i16 {
        x
    }

    fn from_u16(x: u16) -> i16 {
        (x / 2) as i16
    }

    fn greatest() -> i16 {
        i16::MAX
    }
}

impl Number for u16 {
    ghost kind = { U16 };

    ghost of_whole = { nat_abs };

    fn from_i8(x: i8) -> u16 {
        if x < 0 { 0 } else { 512 * x as u16 }
    }

    fn from_u8(x: u8) -> u16 {
        256 * x as u16
    }

    fn from_i16(x: i16) -> u16 {
        if x < 0 { 0 } else { 2 * x as u16 }
    }

    fn from_u16(x: u16) -> u16 {
        x
    }

    fn greatest() -> u16 {
        u16::MAX
    }
}
