//! The materials that variants give (the extension `KHR_materials_variants`).

ghost use Rattle.std.specs.Prelude.{◌≡◌, ◌<◌, ◌≤◌, length};
ghost use Rattle.gltf_material.specs.Materials.{IsMaterial, IsDefaultMaterial};

use crate::material::Material;
use gltf_json::extensions::mesh;
use gltf_json::kinds;
use gltf_rules::{Records, Valid};

/// The material that some variants give to a primitive (`KHR_materials_variants`, "Variant
/// Mappings").
#[derive_where(Clone, Copy)]
#[derive_where(Debug; D)]
pub struct Mapping<'a, D: Records = Valid> {
    document: &'a D,
    index: usize,
    json: &'a mesh::Mapping,
}

impl<'a, D: Records> Mapping<'a, D> {
    ghost use Rattle.gltf_material.specs.Variants.{mapping_handle, IsMapping};

    /// The mapping at an index below the number of a primitive's mappings.
    pub fn new(document: &'a D, mappings: &'a [mesh::Mapping], index: usize) -> Self
        requires { index < length mappings.now }
        ensures { IsMapping D.Records mappings.now (D.root document.now) index result }
    {
        Mapping {
            document,
            index,
            json: &mappings[index],
        }
    }

    /// The numbers of the variants that use the material, as they stand: `variants`. No rule says
    /// that there are variants of these numbers.
    pub fn variants(&self) -> &'a [u32]
        ensures { result.now ≡ (mapping_handle D.Records self.now).json.variants.items }
    {
        &self.json.variants
    }

    /// The material: `material`. No rule says that there is one of this number: where there is
    /// none, the default material.
    pub fn material(&self) -> Material<'a, D>
        ensures within { (mapping_handle D.Records self.now).json.material
            < length (mapping_handle D.Records self.now).document.materials.items
            → IsMaterial (mapping_handle D.Records self.now).document
            (mapping_handle D.Records self.now).json.material result }
        ensures beyond { length (mapping_handle D.Records self.now).document.materials.items
            ≤ (mapping_handle D.Records self.now).json.material
            → IsDefaultMaterial (mapping_handle D.Records self.now).document result }
    {
        let index = self.json.material as usize;
        if index < self.document.len::<kinds::Material>() {
            Material::new(self.document, index)
        } else {
            Material::default(self.document)
        }
    }
}
