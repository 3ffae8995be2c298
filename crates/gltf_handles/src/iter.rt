//! The lists of a document: each handle of a kind once, in index order; and the names of
//! extensions, as they stand.

ghost use Rattle.std.specs.Prelude.{◌≡◌, length, slice_get, Some, map, string_bytes};
ghost use Rattle.gltf_handles.specs.Accessors.{IsAccessor};
ghost use Rattle.gltf_handles.specs.Buffers.{IsBuffer, IsView};
ghost use Rattle.gltf_handles.specs.Documents.{AreBuffers, AreViews, AreAccessors, AreTexts};
ghost use Rattle.gltf_handles.specs.Lists.{position};

use crate::accessor::Accessor;
use crate::buffer::{Buffer, View};
use crate::list::{Indexed, List};
use gltf_rules::Valid;

/// The buffers of a document (glTF 2.0, section 3.6.1, "Buffers and Buffer Views").
pub type Buffers<'a> = List<AllBuffers<'a>>;

/// The views of a document (glTF 2.0, section 3.6.1, "Buffers and Buffer Views").
pub type Views<'a> = List<AllViews<'a>>;

/// The accessors of a document (glTF 2.0, section 3.6.2, "Accessors").
pub type Accessors<'a> = List<AllAccessors<'a>>;

/// The names of the extensions that a document uses: `extensionsUsed` (glTF 2.0, section 3.12,
/// "Specifying Extensions").
pub type ExtensionsUsed<'a> = List<Texts<'a>>;

/// The names of the extensions without which a document cannot be shown: `extensionsRequired` (glTF
/// 2.0, section 3.12, "Specifying Extensions").
pub type ExtensionsRequired<'a> = List<Texts<'a>>;

/// All buffers of a document.
pub fn buffers<'a>(document: &'a Valid) -> Buffers<'a>
    ensures { AreBuffers document.now (position result) }
{
    List::new(AllBuffers { document })
}

/// All views of a document.
pub fn views<'a>(document: &'a Valid) -> Views<'a>
    ensures { AreViews document.now (position result) }
{
    List::new(AllViews { document })
}

/// All accessors of a document.
pub fn accessors<'a>(document: &'a Valid) -> Accessors<'a>
    ensures { AreAccessors document.now (position result) }
{
    List::new(AllAccessors { document })
}

/// The names of the extensions that a document uses, in stored order.
pub fn extensions_used<'a>(document: &'a Valid) -> ExtensionsUsed<'a>
    ensures { AreTexts document.now.extensions_used.items (position result) }
{
    let texts = &document.as_root().extensions_used;
    List::new(Texts { texts })
}

/// The names of the extensions without which a document cannot be shown, in stored order.
pub fn extensions_required<'a>(document: &'a Valid) -> ExtensionsRequired<'a>
    ensures { AreTexts document.now.extensions_required.items (position result) }
{
    let texts = &document.as_root().extensions_required;
    List::new(Texts { texts })
}

/// The source that `Buffers` walks over.
#[derive(Clone, Copy, Debug)]
pub struct AllBuffers<'a> {
    /// The document of the buffers.
    pub document: &'a Valid,
}

impl<'a> Indexed for AllBuffers<'a> {
    type Item = Buffer<'a>;

    ghost count = { λ s. length s.document.now.buffers.items };

    ghost gives = { λ s i b. IsBuffer s.document.now i b };

    fn len(&self) -> usize {
        self.document.as_root().buffers.len()
    }

    fn get(&self, index: usize) -> Buffer<'a> {
        Buffer::new(self.document, index)
    }
}

/// The source that `Views` walks over.
#[derive(Clone, Copy, Debug)]
pub struct AllViews<'a> {
    /// The document of the views.
    pub document: &'a Valid,
}

impl<'a> Indexed for AllViews<'a> {
    type Item = View<'a>;

    ghost count = { λ s. length s.document.now.buffer_views.items };

    ghost gives = { λ s i v. IsView s.document.now i v };

    fn len(&self) -> usize {
        self.document.as_root().buffer_views.len()
    }

    fn get(&self, index: usize) -> View<'a> {
        View::new(self.document, index)
    }
}

/// The source that `Accessors` walks over.
#[derive(Clone, Copy, Debug)]
pub struct AllAccessors<'a> {
    /// The document of the accessors.
    pub document: &'a Valid,
}

impl<'a> Indexed for AllAccessors<'a> {
    type Item = Accessor<'a>;

    ghost count = { λ s. length s.document.now.accessors.items };

    ghost gives = { λ s i a. IsAccessor s.document.now i a };

    fn len(&self) -> usize {
        self.document.as_root().accessors.len()
    }

    fn get(&self, index: usize) -> Accessor<'a> {
        Accessor::new(self.document, index)
    }
}

/// The source that `ExtensionsUsed` and `ExtensionsRequired` walk over.
#[derive(Clone, Copy, Debug)]
pub struct Texts<'a> {
    /// The texts, in stored order.
    pub texts: &'a [String],
}

impl<'a> Indexed for Texts<'a> {
    type Item = &'a str;

    ghost count = { λ s. length s.texts.now };

    ghost gives = { λ s i t. slice_get (map string_bytes s.texts.now) i ≡ Some t.now };

    fn len(&self) -> usize {
        self.texts.len()
    }

    fn get(&self, index: usize) -> &'a str {
        self.texts[index].as_str()
    }
}
