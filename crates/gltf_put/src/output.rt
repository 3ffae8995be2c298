//! Files that are to be written.

/// A file that is to be written.
#[derive(Drop)]
pub struct Output<'b> {
    /// Its path.
    pub path: String,
    /// Its bytes.
    pub bytes: &'b [u8],
}
