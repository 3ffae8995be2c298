//! What is taken into a container.
ghost use Rattle.std.specs.Prelude.{◌≡◌};
ghost use Rattle.gltf_bundle.specs.Keep.{keep_of, spares};

use crate::error::BundleError;

/// What [`crate::bundle`] takes into the container.
#[derive(Clone, Copy, Debug, Default, PartialEq, Eq)]
pub struct BundleOptions {
    /// Images are not touched: each one that has a URI keeps it, and no name is asked for it.
    pub keep_images: bool,
    /// An image is not touched, and keeps its URI, where this leads to no bytes, or to bytes of no
    /// known media type. Such an image is no error then.
    pub keep_missing_images: bool,
}

impl BundleOptions {
    /// Which images are not touched.
    pub fn keep(&self) -> Keep
        ensures { result ≡ keep_of self.now.keep_images self.now.keep_missing_images }
    {
        Keep::new(self.keep_images, self.keep_missing_images)
    }
}

/// Which images are not touched.
#[derive(Clone, Copy, Debug, PartialEq, Eq)]
pub enum Keep {
    /// None of them.
    Nothing,
    /// Those with a URI that leads to no bytes, or to bytes of no known media type.
    Missing,
    /// Each one.
    Every,
}

impl Keep {
    /// Each one, or else those that are missing, where this is asked for.
    pub fn new(every: bool, missing: bool) -> Keep
        ensures { result ≡ keep_of every missing }
    {
        if every {
            Keep::Every
        } else if missing {
            Keep::Missing
        } else {
            Keep::Nothing
        }
    }

    /// Whether an image of which this is said is not touched.
    pub fn spares(&self, error: &BundleError) -> bool
        ensures { result ≡ spares self.now error.now }
    {
        match (self, error) {
            (Keep::Missing, BundleError::Image { .. } | BundleError::ImageType(_)) => true,
            _ => false,
        }
    }
}
