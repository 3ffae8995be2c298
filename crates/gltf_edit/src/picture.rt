//! What is known of an image whose bytes go into a buffer of their own.

/// What is known of an image whose bytes go into a buffer of their own.
#[derive(Debug, Drop)]
pub struct Picture {
    /// The number of its bytes.
    pub length: usize,
    /// Its media type, as `image/png`.
    pub media: String,
}
