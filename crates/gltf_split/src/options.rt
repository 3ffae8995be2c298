//! How a file is split.

use gltf_bundle::Keep;

/// What [`crate::split`] takes out of a file, and how its JSON text looks.
#[derive(Clone, Copy, Debug, Default, PartialEq, Eq)]
pub struct SplitOptions {
    /// Images are not touched: each one keeps its view or its URI, and no name is asked for it.
    pub keep_images: bool,
    /// An image that names no view, and whose URI leads to no bytes, is not touched, and keeps this
    /// URI. Such an image is no error then.
    pub keep_missing_images: bool,
    /// The views at the end of the list that only images name go, since images have files, and so
    /// do their bytes at the ends of buffers. Where images are not touched, or the document is
    /// mended, this says nothing.
    pub drop_image_views: bool,
    /// The JSON text has line breaks, and two spaces for each step in.
    pub pretty: bool,
}

impl SplitOptions {
    ghost use Rattle.std.specs.Prelude.{◌≡◌};
    ghost use Rattle.gltf_split.specs.Splits.{drops, kept};

    /// Which images are not touched.
    pub(crate) fn keep(&self) -> Keep
        ensures { result ≡ kept self.now }
    {
        Keep::new(self.keep_images, self.keep_missing_images)
    }

    /// Whether the views of images go: not where images are not touched.
    pub(crate) fn drops_views(&self) -> bool
        ensures { result ≡ drops self.now }
    {
        !self.keep_images && self.drop_image_views
    }
}
