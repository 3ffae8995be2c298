//! Images (glTF 2.0, section 3.8.3, "Images").
ghost use Rattle.std.specs.Prelude.{IfOk};
ghost use Rattle.gltf_json_record.specs.Copy.{IsCopy};

use gltf_json_record::boxed::Boxed;
use gltf_json_record::copy::Copies;
use gltf_json_record::error::Error;
use gltf_json_record::extensions::Others;
use gltf_json_record::extras::Extras;
use gltf_json_record::index::Index;
use gltf_json_record::lent::Maybe;
use gltf_json_record::read::FromValue;
use gltf_json_record::{copy_record, kinds, read_record};
use serde_json::Value;
use std::alloc::{AllocError, Global};

/// Where the bytes of an image are (glTF 2.0, section 5.18, "Image").
#[derive(Debug, Drop)]
pub struct Image {
    /// The view that holds the bytes of the image: `bufferView`.
    pub buffer_view: Option<Index<kinds::View>>,
    /// The media type of the image, as `image/png`: `mimeType`.
    pub mime_type: Option<String>,
    /// Where the bytes of the image are: `uri`.
    pub uri: Option<String>,
    /// A name given by the user: `name`.
    pub name: Option<String>,
    /// The extensions: `extensions`. None is known here.
    pub extensions: Option<Boxed<Others>>,
    /// What the application stores here: `extras`.
    pub extras: Extras,
}

impl Image {
    ghost use Rattle.gltf_json_scene.specs.Images.{image};

    /// A copy of the record, which shows what this one shows.
    #[tactic(auto, unfolding(crate::specs::Images::image))]
    pub fn clone(&self, alloc: Global) -> Result<Image, AllocError>
        ensures { IfOk result (IsCopy image self.now) }
    {
        copy_record!(self, alloc; Image { buffer_view, } with {
            mime_type: Maybe,
            uri: Maybe,
            name: Maybe,
            extensions: Maybe,
            extras: Maybe,
        })
    }
}

impl Copies for Image {
    fn copy(&self, alloc: Global) -> Result<Image, AllocError> {
        self.clone(alloc)
    }
}

/// The rows of an image, for a macro that reads a record by them:
/// `image_rows!(read_record!(alloc, value))`.
#[macro_export]
macro_rules! image_rows {
    ($read:ident!($($from:ident),*)) => {
        $read!($($from),*; Image {
            buffer_view: optional("bufferView"),
            mime_type: optional("mimeType"),
            uri: optional("uri"),
            name: optional("name"),
            extensions: optional("extensions"),
            extras: optional("extras"),
        })
    };
}

impl FromValue for Image {
    ghost use Rattle.gltf_json_scene.specs.Images.{image};

    ghost kind = { image };

    #[tactic(auto, unfolding(crate::specs::Images::image))]
    fn from_value(alloc: Global, value: &Value) -> Result<Image, Error> {
        image_rows!(read_record!(alloc, value))
    }
}
