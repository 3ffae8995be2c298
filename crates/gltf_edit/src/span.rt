//! Where the bytes of a buffer stand in the one buffer.

/// Where the bytes of a buffer begin in the one buffer, and how many there are.
#[derive(Clone, Copy, Debug, Drop, PartialEq, Eq)]
pub struct Span {
    /// The place of the first byte.
    pub place: u32,
    /// The number of bytes.
    pub length: u32,
}
