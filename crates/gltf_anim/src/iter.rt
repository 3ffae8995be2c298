//! The list of a document's animations: each handle once, in index order.

ghost use Rattle.std.specs.Prelude.{length};
ghost use Rattle.gltf_anim.specs.Animations.{IsAnimation};
ghost use Rattle.gltf_anim.specs.Documents.{AreAnimations};
ghost use Rattle.gltf_handles.specs.Lists.{position};

use crate::animation::Animation;
use gltf_handles::list::{Indexed, List};
use gltf_rules::Valid;

/// The animations of a document (glTF 2.0, section 3.11, "Animations").
pub type Animations<'a> = List<AllAnimations<'a>>;

/// All animations of a document.
pub fn animations<'a>(document: &'a Valid) -> Animations<'a>
    ensures { AreAnimations document.now (position result) }
{
    List::new(AllAnimations { document })
}

/// The source that `Animations` walks over.
#[derive(Clone, Copy, Debug)]
pub struct AllAnimations<'a> {
    /// The document of the animations.
    pub document: &'a Valid,
}

impl<'a> Indexed for AllAnimations<'a> {
    type Item = Animation<'a>;

    ghost count = { λ s. length s.document.now.animations.items };

    ghost gives = { λ s i a. IsAnimation s.document.now i a };

    fn len(&self) -> usize {
        self.document.as_root().animations.len()
    }

    fn get(&self, index: usize) -> Animation<'a> {
        Animation::new(self.document, index)
    }
}
