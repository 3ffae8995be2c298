//! The mappings of `KHR_materials_variants` ("Variant Mappings").
ghost use Rattle.std.specs.Prelude.{◌≡◌, OnOk};
ghost use Rattle.std.specs.Option.{option_copied};
ghost use Rattle.gltf_validation.specs.Locations.{places_of};
ghost use Rattle.gltf_findings.specs.Checks.{told_after, optional_checks};
ghost use Rattle.gltf_inspect_records.specs.Variants.{index_checks, variant_count, mapping_checks};
ghost use Rattle.gltf_inspect_records.specs.Variants.{extensions_checks};

use crate::list::{Inspect, inspect_each, inspect_list};
use gltf_findings::code::Code;
use gltf_findings::findings::Findings;
use gltf_json::root::Root;
use gltf_json_geometry::extensions::mesh::{Mapping, Primitive};
use gltf_validation::location::Location;
use std::alloc::AllocError;

/// Reports each material and each variant that the extensions of a primitive name and that is not
/// there.
pub(crate) fn tell_extensions(
    extensions: Option<&Primitive>,
    root: &Root,
    location: &Location<'_>,
    findings: &mut Findings,
) -> Result<(), AllocError>
    ensures { OnOk result (findings.new ≡ told_after findings.old (places_of location.now)
        (optional_checks (extensions_checks root.now) (option_copied extensions.entry))) }
{
    let Some(extensions) = extensions else {
        return Ok(());
    };
    match &extensions.khr_materials_variants {
        None => Ok(()),
        Some(variants) => {
            let at = Location::Member(location, "KHR_materials_variants");
            inspect_list(
                variants.mappings.as_slice(),
                "mappings",
                root,
                &at,
                findings,
            )
        }
    }
}

impl Inspect for Mapping {
    ghost checks = { λ r m. mapping_checks r m };

    fn inspect(
        &self,
        root: &Root,
        location: &Location<'_>,
        findings: &mut Findings,
    ) -> Result<(), AllocError> {
        let is_there = (self.material as usize) < root.materials.len();
        findings.tell_member(is_there, Code::UnresolvedReference, "material", location)?;
        let at = Location::Member(location, "variants");
        inspect_each(self.variants.as_slice(), root, &at, findings)
    }
}

/// The index of a variant.
impl Inspect for u32 {
    ghost checks = { λ r i. index_checks (variant_count r) i };

    fn inspect(
        &self,
        root: &Root,
        location: &Location<'_>,
        findings: &mut Findings,
    ) -> Result<(), AllocError> {
        let is_there = (*self as usize) < variant_count(root);
        findings.tell(is_there, Code::UnresolvedReference, location)
    }
}

/// How many variants the document has.
fn variant_count(root: &Root) -> usize
    ensures { result ≡ variant_count root.now }
{
    match &root.extensions {
        None => 0,
        Some(extensions) => match &extensions.khr_materials_variants {
            None => 0,
            Some(variants) => variants.variants.len(),
        },
    }
}
