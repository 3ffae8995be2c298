//! Casts of joints (glTF 2.0, section 3.7.3.3, "Skinned Mesh Attributes", `JOINTS_n`): of the four
//! that a vertex has. A joint keeps its value.

ghost use Rattle.std.specs.Prelude.{◌≡◌, ℕ, List};

pub use crate::markers::U16;

/// How joints are cast.
pub trait Cast {
    /// What they are cast to.
    type Output;

    /// What four joints of one byte are cast to.
    ghost of_u8: { List ℕ → Self.Output };

    /// What four joints of two bytes are cast to.
    ghost of_u16: { List ℕ → Self.Output };

    /// Casts four joints of one byte.
    fn cast_u8(x: [u8; 4]) -> Self::Output
        ensures { result ≡ of_u8 x };

    /// Casts four joints of two bytes.
    fn cast_u16(x: [u16; 4]) -> Self::Output
        ensures { result ≡ of_u16 x };
}

impl Cast for U16 {
    type Output = [u16; 4];

    ghost of_u8 = { λ x. x };

    ghost of_u16 = { λ x. x };

    fn cast_u8(x: [u8; 4]) -> [u16; 4] {
        [
            u16::from(x[0]),
            u16::from(x[1]),
            u16::from(x[2]),
            u16::from(x[3]),
        ]
    }

    fn cast_u16(x: [u16; 4]) -> [u16; 4] {
        x
    }
}
