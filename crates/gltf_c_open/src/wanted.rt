//! What is asked of the buffers of a file.

/// What is asked of the buffers of a file.
#[derive(Clone, Copy, Debug, PartialEq, Eq)]
pub struct Wanted {
    /// Buffers in other files wait for their bytes. Else they are refused.
    pub may_wait: bool,
    /// Each buffer has as many bytes as it declares, the zeros after them not counted.
    pub exact: bool,
}
