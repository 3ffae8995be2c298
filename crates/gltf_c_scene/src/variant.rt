//! Materials of variants that a document does not have (`KHR_materials_variants`).
ghost use Rattle.std.specs.Prelude.{◌≡◌};
ghost use Rattle.gltf_c_scene.specs.Variants.{mapping_fault, stray, variant_fault_of};

use crate::mesh::{has_variant, mappings, record};
use gltf_c_fault::fault::{GltfFault, extension_fault};
use gltf_json::Root;
use gltf_json::extensions::mesh::Mapping;
use gltf_json_record::path::Step;

/// What is wrong with the material of a primitive under a variant, that of the first mapping which
/// has the variant: the document has no material with this index. None where it has one, and where
/// there is no such mapping.
pub fn variant_fault(
    root: &Root,
    mesh: usize,
    primitive: usize,
    variant: usize,
) -> Option<GltfFault>
    ensures { result ≡ variant_fault_of mesh primitive variant root.now }
{
    let mappings = mappings(record(root, mesh, primitive)?);
    let mapping = stray(mappings, variant, root.materials.len())?;
    Some(fault_at(mesh, primitive, mapping))
}

/// What is said of the material of a mapping that the document does not have.
fn fault_at(mesh: usize, primitive: usize, mapping: usize) -> GltfFault
    ensures { result ≡ mapping_fault mesh primitive mapping }
{
    let steps = [
        Step::Member("meshes"),
        Step::Item(mesh),
        Step::Member("primitives"),
        Step::Item(primitive),
        Step::Member("extensions"),
        Step::Member("KHR_materials_variants"),
        Step::Member("mappings"),
        Step::Item(mapping),
        Step::Member("material"),
    ];
    extension_fault(&steps, b"the document has no material with this index")
}

/// The position of the first mapping that has a variant, where its material is not below `count`.
fn stray(mappings: &[Mapping], variant: usize, count: usize) -> Option<usize>
    ensures { result ≡ stray count variant 0 mappings.now }
{
    for (i, mapping) in mappings.iter().enumerate() {
        if has_variant(&mapping.variants, variant) {
            return if (mapping.material as usize) < count {
                None
            } else {
                Some(i)
            };
        }
    }
    None
}
