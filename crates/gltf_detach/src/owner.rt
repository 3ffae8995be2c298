//! What has a URI.

/// What has a URI: a buffer or an image.
#[derive(Clone, Copy, Debug, Drop, PartialEq, Eq)]
pub enum Owner {
    /// A buffer.
    Buffer,
    /// An image, which names a view or has a URI.
    Image,
}
