//! Buffers and their views (glTF 2.0, section 3.6.1, "Buffers and Buffer Views").

ghost use Rattle.std.specs.Prelude.{◌≡◌, ◌<◌, length, unwrap_or};
ghost use Rattle.std.specs.Option.{option_copied};
ghost use Rattle.gltf_handles.specs.Members.{text, unknown_extensions, extension_named};
ghost use Rattle.gltf_handles.specs.Members.{Follows, IsCode, above_zero};

use crate::inner::Inner;
use crate::member::{meaning, unknown_extensions};
use gltf_json::boxed::lent;
pub use gltf_json::buffer::Target;
use gltf_json::{Map, Value, buffer, kinds};
use gltf_rules::{Records, Valid};

/// A block of bytes (glTF 2.0, section 5.10, "Buffer").
#[derive_where(Clone, Copy)]
#[derive_where(Debug; D)]
pub struct Buffer<'a, D: Records = Valid> {
    index: usize,
    inner: Inner<'a, buffer::Buffer, D>,
}

/// Where the bytes of a buffer come from (glTF 2.0, section 3.6.1).
#[derive(Clone, Copy, Debug)]
pub enum Source<'a> {
    /// The binary chunk of a GLB container.
    Bin,
    /// What this URI names, or holds.
    Uri(&'a str),
}

impl<'a, D: Records> Buffer<'a, D> {
    ghost use Rattle.gltf_handles.specs.Buffers.{buffer_handle, IsBuffer, uri_of};

    /// The buffer at an index below the number of buffers.
    pub fn new(document: &'a D, index: usize) -> Self
        requires { index < length (D.root document.now).buffers.items }
        ensures { IsBuffer (D.root document.now) index result }
    {
        Buffer {
            index,
            inner: Inner {
                document,
                json: document.get::<kinds::Buffer>(index),
            },
        }
    }

    /// The position among the buffers of the document.
    pub fn index(&self) -> usize
        ensures { result ≡ (buffer_handle self.now).index }
    {
        self.index
    }

    /// Where the bytes come from: `uri` where it is there, else the binary chunk.
    pub fn source(&self) -> Source<'a>
        ensures { uri_of result ≡ text (buffer_handle self.now).json.uri }
    {
        match self.inner.json.uri.as_deref() {
            Some(uri) => Source::Uri(uri),
            None => Source::Bin,
        }
    }

    /// The length in bytes: `byteLength`.
    pub fn length(&self) -> usize
        ensures { result ≡ (buffer_handle self.now).json.byte_length }
    {
        self.inner.json.byte_length as usize
    }

    /// The name given by the user.
    pub fn name(&self) -> Option<&'a str>
        ensures { option_copied result ≡ text (buffer_handle self.now).json.name }
    {
        self.inner.json.name.as_deref()
    }

    /// The extensions, none of which is known at a buffer; None where there is no member
    /// `extensions`.
    pub fn extensions(&self) -> Option<&'a Map<String, Value>>
        ensures { option_copied result ≡ unknown_extensions
            (buffer_handle self.now).json.extensions }
    {
        unknown_extensions(&self.inner.json.extensions)
    }

    /// The extension of this name.
    pub fn extension_value(&self, name: &str) -> Option<&'a Value>
        ensures { option_copied result
            ≡ extension_named name.now
            (unknown_extensions (buffer_handle self.now).json.extensions) }
    {
        self.extensions()?.get(name)
    }

    /// What the application stores here: `extras`.
    pub fn extras(&self) -> Option<&'a Value>
        ensures { option_copied result ≡ (buffer_handle self.now).json.extras }
    {
        lent(&self.inner.json.extras)
    }
}

/// A slice of a buffer (glTF 2.0, section 5.11, "Buffer View").
#[derive_where(Clone, Copy)]
#[derive_where(Debug; D)]
pub struct View<'a, D: Records = Valid> {
    index: usize,
    inner: Inner<'a, buffer::View, D>,
}

impl<'a, D: Records> View<'a, D> {
    ghost use Rattle.gltf_handles.specs.Buffers.{view_handle, IsBuffer, IsView};

    /// The view at an index below the number of views.
    pub fn new(document: &'a D, index: usize) -> Self
        requires { index < length (D.root document.now).buffer_views.items }
        ensures { IsView (D.root document.now) index result }
    {
        View {
            index,
            inner: Inner {
                document,
                json: document.get::<kinds::View>(index),
            },
        }
    }

    /// The position among the views of the document.
    pub fn index(&self) -> usize
        ensures { result ≡ (view_handle self.now).index }
    {
        self.index
    }

    /// The buffer that it is a slice of.
    pub fn buffer(&self) -> Buffer<'a, D>
        ensures { IsBuffer (view_handle self.now).document
            (view_handle self.now).json.buffer result }
    {
        Buffer::new(self.inner.document, self.inner.json.buffer.value())
    }

    /// The length in bytes: `byteLength`.
    pub fn length(&self) -> usize
        ensures { result ≡ (view_handle self.now).json.byte_length }
    {
        self.inner.json.byte_length as usize
    }

    /// The distance in bytes from the start of the buffer: `byteOffset`, 0 where that is absent.
    pub fn offset(&self) -> usize
        ensures { result ≡ unwrap_or (view_handle self.now).json.byte_offset 0 }
    {
        self.inner.json.byte_offset.unwrap_or(0) as usize
    }

    /// The distance in bytes from item to item: `byteStride`. None where that is absent or 0: items
    /// are packed.
    pub fn stride(&self) -> Option<usize>
        ensures { result ≡ above_zero (view_handle self.now).json.byte_stride }
    {
        match self.inner.json.byte_stride {
            None | Some(0) => None,
            Some(stride) => Some(stride as usize),
        }
    }

    /// The name given by the user.
    pub fn name(&self) -> Option<&'a str>
        ensures { option_copied result ≡ text (view_handle self.now).json.name }
    {
        self.inner.json.name.as_deref()
    }

    /// What the bytes are for: `target`.
    pub fn target(&self) -> Option<Target>
        ensures { Follows IsCode (view_handle self.now).json.target result }
    {
        Some(meaning(self.inner.json.target?))
    }

    /// The extensions, none of which is known at a view; None where there is no member
    /// `extensions`.
    pub fn extensions(&self) -> Option<&'a Map<String, Value>>
        ensures { option_copied result
            ≡ unknown_extensions (view_handle self.now).json.extensions }
    {
        unknown_extensions(&self.inner.json.extensions)
    }

    /// The document that it is of.
    pub fn document(&self) -> &'a D
        ensures { D.root result.now ≡ (view_handle self.now).document }
    {
        self.inner.document
    }

    /// The extension of this name.
    pub fn extension_value(&self, name: &str) -> Option<&'a Value>
        ensures { option_copied result
            ≡ extension_named name.now
            (unknown_extensions (view_handle self.now).json.extensions) }
    {
        self.extensions()?.get(name)
    }

    /// What the application stores here: `extras`.
    pub fn extras(&self) -> Option<&'a Value>
        ensures { option_copied result ≡ (view_handle self.now).json.extras }
    {
        lent(&self.inner.json.extras)
    }
}
