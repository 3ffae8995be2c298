//! Casts of indices (glTF 2.0, section 3.7.2.1, "Meshes: Overview", `indices`). An index keeps its
//! value.

ghost use Rattle.std.specs.Prelude.{◌≡◌, ℕ};

/// How indices are cast.
pub trait Cast {
    /// What they are cast to.
    type Output;

    /// What an index of one byte is cast to.
    ghost of_u8: { ℕ → Self.Output };

    /// What an index of two bytes is cast to.
    ghost of_u16: { ℕ → Self.Output };

    /// What an index of four bytes is cast to.
    ghost of_u32: { ℕ → Self.Output };

    /// Casts an index of one byte.
    fn cast_u8(x: u8) -> Self::Output
        ensures { result ≡ of_u8 x };

    /// Casts an index of two bytes.
    fn cast_u16(x: u16) -> Self::Output
        ensures { result ≡ of_u16 x };

    /// Casts an index of four bytes.
    fn cast_u32(x: u32) -> Self::Output
        ensures { result ≡ of_u32 x };
}

/// To indices of four bytes.
#[derive(Clone, Copy, Debug)]
pub struct U32;

impl Cast for U32 {
    type Output = u32;

    ghost of_u8 = { λ x. x };

    ghost of_u16 = { λ x. x };

    ghost of_u32 = { λ x. x };

    fn cast_u8(x: u8) -> u32 {
        u32::from(x)
    }

    fn cast_u16(x: u16) -> u32 {
        u32::from(x)
    }

    fn cast_u32(x: u32) -> u32 {
        x
    }
}
