//! Variants of materials (the extension `KHR_materials_variants`).

ghost use Rattle.std.specs.Prelude.{◌≡◌, ◌<◌, length, string_bytes};
ghost use Rattle.gltf_rules.specs.Extensions.{variants_of};

use gltf_json::Root;
use gltf_json::extensions::scene::khr_materials_variants;
use gltf_rules::Valid;

/// A variant, which primitives map to materials (`KHR_materials_variants`).
#[derive(Clone, Copy, Debug)]
pub struct Variant<'a> {
    json: &'a khr_materials_variants::Variant,
}

impl<'a> Variant<'a> {
    ghost use Rattle.gltf_look.specs.Variants.{variant_record, IsVariant};

    /// The variant at an index below the number of variants.
    pub fn new(document: &'a Valid, index: usize) -> Self
        requires { index < length (variants_of document.now.extensions) }
        ensures { IsVariant document.now index result }
    {
        let variants = records(document.as_root());
        Variant {
            json: &variants[index],
        }
    }

    /// The name of the variant: `name`.
    pub fn name(&self) -> &'a str
        ensures { result.now ≡ string_bytes (variant_record self.now).name }
    {
        self.json.name.as_str()
    }
}

/// The records of the variants of a document: none where the extension is absent.
pub(crate) fn records(root: &Root) -> &[khr_materials_variants::Variant]
    ensures { result.now ≡ variants_of root.now.extensions }
{
    match &root.extensions {
        Some(extensions) => match &extensions.khr_materials_variants {
            Some(extension) => extension.variants.as_slice(),
            None => &[],
        },
        None => &[],
    }
}
