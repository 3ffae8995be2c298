//! What a broken rule is.
use std::fmt;

/// What is wrong where a rule is broken.
#[derive(Clone, Copy, Debug, PartialEq, Eq)]
pub enum Error {
    /// An index is not below the length of its list.
    IndexOutOfBounds,
    /// A code is not in its table, or an attribute's name is of no known form.
    Invalid,
    /// A member is absent that has to be there.
    Missing,
    /// A size does not fit the machine.
    Oversize,
    /// An extension is required that is not supported.
    Unsupported,
}

impl fmt::Display for Error {
    ghost use Rattle.std.specs.Prelude.{Some};
    ghost use Rattle.gltf_validation.specs.Texts.{error_text};

    ghost output = { λ e. Some (error_text e) };

    fn fmt<W: fmt::Write>(&self, f: &mut fmt::Formatter<W>) -> fmt::Result {
        match self {
            Error::IndexOutOfBounds => write!(f, "Index out of bounds"),
            Error::Invalid => write!(f, "Invalid value"),
            Error::Missing => write!(f, "Missing data"),
            Error::Oversize => write!(f, "Size exceeds system limits"),
            Error::Unsupported => write!(f, "Unsupported extension"),
        }
    }
}

impl std::error::Error for Error {}
