//! The list of a document's materials: each handle once, in index order.

ghost use Rattle.std.specs.Prelude.{length};
ghost use Rattle.gltf_handles.specs.Lists.{position};
ghost use Rattle.gltf_material.specs.Documents.{AreMaterials};
ghost use Rattle.gltf_material.specs.Materials.{IsMaterial};

use crate::material::Material;
use gltf_handles::list::{Indexed, List};
use gltf_rules::Valid;

/// The materials of a document (glTF 2.0, section 3.9, "Materials").
pub type Materials<'a> = List<AllMaterials<'a>>;

/// All materials of a document.
pub fn materials<'a>(document: &'a Valid) -> Materials<'a>
    ensures { AreMaterials document.now (position result) }
{
    List::new(AllMaterials { document })
}

/// The source that `Materials` walks over.
#[derive(Clone, Copy, Debug)]
pub struct AllMaterials<'a> {
    /// The document of the materials.
    pub document: &'a Valid,
}

impl<'a> Indexed for AllMaterials<'a> {
    type Item = Material<'a>;

    ghost count = { λ s. length s.document.now.materials.items };

    ghost gives = { λ s i m. IsMaterial s.document.now i m };

    fn len(&self) -> usize {
        self.document.as_root().materials.len()
    }

    fn get(&self, index: usize) -> Material<'a> {
        Material::new(self.document, index)
    }
}
