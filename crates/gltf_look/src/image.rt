//! Images (glTF 2.0, section 3.8.3, "Images").

ghost use Rattle.std.specs.Prelude.{◌≡◌, ◌<◌, length};
ghost use Rattle.std.specs.Option.{option_copied};
ghost use Rattle.gltf_handles.specs.Members.{text, unknown_extensions, extension_named};

use gltf_handles::buffer::View;
use gltf_handles::inner::Inner;
use gltf_handles::member::unknown_extensions;
use gltf_json::boxed::lent;
use gltf_json::{Map, Value, image, kinds};
use gltf_rules::{Records, Valid};

/// An image (glTF 2.0, section 5.18, "Image").
#[derive_where(Clone, Copy)]
#[derive_where(Debug; D)]
pub struct Image<'a, D: Records = Valid> {
    index: usize,
    inner: Inner<'a, image::Image, D>,
}

/// Where the bytes of an image are (glTF 2.0, section 3.8.3).
#[derive_where(Clone, Copy)]
#[derive_where(Debug; D)]
pub enum Source<'a, D: Records = Valid> {
    /// In a view.
    View {
        /// The view that holds the bytes: `bufferView`.
        view: View<'a, D>,
        /// The media type of the bytes: `mimeType`.
        mime_type: &'a str,
    },
    /// Where this URI leads, or in it.
    Uri {
        /// The URI: `uri`.
        uri: &'a str,
        /// The media type of the bytes: `mimeType`.
        mime_type: Option<&'a str>,
    },
}

impl<'a, D: Records> Image<'a, D> {
    ghost use Rattle.gltf_look.specs.Images.{image_handle, IsImage, IsSource};

    /// The image at an index below the number of images.
    pub fn new(document: &'a D, index: usize) -> Self
        requires { index < length (D.root document.now).images.items }
        ensures { IsImage (D.root document.now) index result }
    {
        Image {
            index,
            inner: Inner {
                document,
                json: document.get::<kinds::Image>(index),
            },
        }
    }

    /// The position among the images of the document.
    pub fn index(&self) -> usize
        ensures { result ≡ (image_handle self.now).index }
    {
        self.index
    }

    /// The name given by the user.
    pub fn name(&self) -> Option<&'a str>
        ensures { option_copied result ≡ text (image_handle self.now).json.name }
    {
        self.inner.json.name.as_deref()
    }

    /// Where the bytes are: in a view where `bufferView` is there, else where `uri` leads.
    pub fn source(&self) -> Source<'a, D>
        ensures { IsSource (image_handle self.now) result }
    {
        let mime_type = self.inner.json.mime_type.as_deref();
        match self.inner.json.buffer_view {
            Some(index) => Source::View {
                view: View::new(self.inner.document, index.value()),
                mime_type: mime_type.unwrap(),
            },
            None => Source::Uri {
                uri: self.inner.json.uri.as_deref().unwrap(),
                mime_type,
            },
        }
    }

    /// The extensions, none of which is known at an image; None where there is no member
    /// `extensions`.
    pub fn extensions(&self) -> Option<&'a Map<String, Value>>
        ensures { option_copied result
            ≡ unknown_extensions (image_handle self.now).json.extensions }
    {
        unknown_extensions(&self.inner.json.extensions)
    }

    /// The extension of this name.
    pub fn extension_value(&self, name: &str) -> Option<&'a Value>
        ensures { option_copied result ≡ extension_named name.now
            (unknown_extensions (image_handle self.now).json.extensions) }
    {
        self.extensions()?.get(name)
    }

    /// What the application stores here: `extras`.
    pub fn extras(&self) -> Option<&'a Value>
        ensures { option_copied result ≡ (image_handle self.now).json.extras }
    {
        lent(&self.inner.json.extras)
    }
}
