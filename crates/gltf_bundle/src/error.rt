//! Why a file was not bundled.
ghost use Rattle.std.specs.Prelude.{◌≡◌};
ghost use Rattle.gltf_bundle.specs.declared.error.BundleError.TheVariants.{Import};
ghost use Rattle.gltf_bundle.specs.Causes.{of_answer, of_fault};
ghost use Rattle.gltf_glb.specs.declared.error.Error.TheVariants.{Memory};

use gltf_edit::Fault;
use gltf_glb::Error;
use std::alloc::{AllocError, AllocFailed};
use std::fmt;

/// Why a file was not bundled.
#[derive(Debug, Drop)]
pub enum BundleError {
    /// The file is not imported: the error of [`gltf::import_from`]. Or there was not enough
    /// memory.
    Import(Error),
    /// The view at this index, or what `EXT_meshopt_compression` or `KHR_meshopt_compression` says
    /// of it, does not lie in its buffer: over the one buffer it would read the bytes of another.
    View(usize),
    /// The URI of an image leads to no bytes: the error that a buffer with this URI would have.
    Image {
        /// The image's index.
        image: usize,
        /// Its URI.
        uri: String,
        /// What is wrong with its URI.
        cause: Error,
    },
    /// The image at this index has a URI, which leads to bytes of no known media type, and neither
    /// a `data:` URI nor the member `mimeType` names one of images.
    ImageType(usize),
    /// The one buffer would have more than 4294967295 bytes.
    TooLong,
    /// The container would be too long, or not be accepted.
    Answer(Error),
}

impl BundleError {
    /// The error where what was made is refused, or there was not enough memory to make it.
    pub fn of_answer(error: Error) -> BundleError
        ensures { result ≡ of_answer error }
    {
        match error {
            Error::Memory => BundleError::Import(Error::Memory),
            error => BundleError::Answer(error),
        }
    }
}

impl From<AllocError> for BundleError {
    ghost from_gives = { λ _ e. e ≡ Import Memory };

    fn from(_cause: AllocError) -> BundleError {
        BundleError::Import(Error::Memory)
    }
}

impl<T: Drop> From<AllocFailed<T>> for BundleError {
    ghost from_gives = { λ _ e. e ≡ Import Memory };

    fn from(_cause: AllocFailed<T>) -> BundleError {
        BundleError::Import(Error::Memory)
    }
}

impl From<Fault> for BundleError {
    ghost from_gives = { λ fault e. e ≡ of_fault fault };

    fn from(fault: Fault) -> BundleError {
        match fault {
            Fault::Outside(view) => BundleError::View(view),
            Fault::TooLong => BundleError::TooLong,
            Fault::Memory => BundleError::Import(Error::Memory),
        }
    }
}

impl fmt::Display for BundleError {
    fn fmt<W: fmt::Write>(&self, f: &mut fmt::Formatter<W>) -> fmt::Result {
        match self {
            BundleError::Import(error) => write!(f, "{error}"),
            BundleError::View(view) => write!(f, "bufferViews[{view}]: not within its buffer"),
            BundleError::Image { image, uri, cause } => {
                write!(f, "images[{image}].uri: {:?}: {cause}", shown(uri.as_str()))
            }
            BundleError::ImageType(image) => write!(
                f,
                "/images/{image}: no image/ type in a data: URI or mimeType, nor bytes of PNG, \
                 JPEG, WebP, KTX2, AVIF or DDS; give it a mimeType"
            ),
            BundleError::TooLong => write!(f, "more than 4294967295 bytes of buffers and images"),
            BundleError::Answer(error) => write!(f, "what would be written: {error}"),
        }
    }
}

/// A URI, without the data that stand in it.
fn shown(uri: &str) -> &str {
    match uri.split_once(',') {
        Some((head, _)) if uri.starts_with("data:") => head,
        _ => uri,
    }
}
