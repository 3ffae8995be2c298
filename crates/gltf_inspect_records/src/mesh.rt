//! Meshes and their primitives (glTF 2.0, section 3.7).
ghost use Rattle.std.specs.Prelude.{◌≡◌, OnOk};
ghost use Rattle.gltf_validation.specs.Locations.{places_of};
ghost use Rattle.gltf_findings.specs.Checks.{told_after, optional_checks};
ghost use Rattle.gltf_inspect_records.specs.Meshes.{is_unsigned, is_scalar, indices_checks};
ghost use Rattle.gltf_inspect_records.specs.Meshes.{primitive_checks, mesh_checks, has_attributes};
ghost use Rattle.gltf_inspect_records.specs.Meshes.{all_attributes_checks, indices_index_checks};
ghost use Rattle.gltf_inspect_records.specs.Variants.{extensions_checks};

use crate::attributes::tell_attributes;
use crate::list::{Inspect, inspect_each};
use crate::variants::tell_extensions;
use gltf_findings::code::Code;
use gltf_findings::findings::Findings;
use gltf_inspect_meshes::meaning::{POSITIONS, first_of};
use gltf_json::boxed::lent;
use gltf_json::root::Root;
use gltf_json_geometry::accessor::{Accessor, ComponentType, Type};
use gltf_json_geometry::mesh::{Mesh, Primitive};
use gltf_json_record::validation::Checked;
use gltf_validation::location::Location;
use std::alloc::AllocError;

impl Inspect for Mesh {
    ghost checks = { λ r m. mesh_checks r m };

    fn inspect(
        &self,
        root: &Root,
        location: &Location<'_>,
        findings: &mut Findings,
    ) -> Result<(), AllocError> {
        let at = Location::Member(location, "primitives");
        findings.tell(!self.primitives.is_empty(), Code::EmptyEntity, &at)?;
        inspect_each(self.primitives.as_slice(), root, &at, findings)
    }
}

impl Inspect for Primitive {
    ghost checks = { λ r p. primitive_checks r p };

    fn inspect(
        &self,
        root: &Root,
        location: &Location<'_>,
        findings: &mut Findings,
    ) -> Result<(), AllocError> {
        let at = Location::Member(location, "attributes");
        tell_attributes_of(self, root, &at, findings)?;
        let at = Location::Member(location, "indices");
        tell_indices_of(self, root, &at, findings)?;
        let at = Location::Member(location, "extensions");
        tell_extensions_of(self, root, &at, findings)
    }
}

fn tell_extensions_of(
    primitive: &Primitive,
    root: &Root,
    location: &Location<'_>,
    findings: &mut Findings,
) -> Result<(), AllocError>
    ensures { OnOk result (findings.new ≡ told_after findings.old (places_of location.now)
        (optional_checks (extensions_checks root.now) primitive.now.extensions)) }
{
    tell_extensions(lent(&primitive.extensions), root, location, findings)
}

fn has_attributes(primitive: &Primitive) -> bool
    ensures { result ≡ has_attributes primitive.now }
{
    !primitive.attributes.is_empty() || !primitive.unknown_attributes.is_empty()
}

fn tell_attributes_of(
    primitive: &Primitive,
    root: &Root,
    location: &Location<'_>,
    findings: &mut Findings,
) -> Result<(), AllocError>
    ensures { OnOk result (findings.new ≡ told_after findings.old (places_of location.now)
        (all_attributes_checks root.now primitive.now)) }
{
    findings.tell(has_attributes(primitive), Code::EmptyEntity, location)?;
    let has_positions = first_of(POSITIONS, &primitive.attributes).is_some();
    findings.tell(has_positions, Code::NoPosition, location)?;
    tell_attributes(
        root.accessors.as_slice(),
        &primitive.attributes,
        location,
        findings,
    )
}

fn tell_indices_of(
    primitive: &Primitive,
    root: &Root,
    location: &Location<'_>,
    findings: &mut Findings,
) -> Result<(), AllocError>
    ensures { OnOk result (findings.new ≡ told_after findings.old (places_of location.now)
        (optional_checks (indices_index_checks root.now) primitive.now.indices)) }
{
    let Some(index) = primitive.indices else {
        return Ok(());
    };
    match root.accessors.as_slice().get(index.value()) {
        None => Ok(()),
        Some(accessor) => tell_indices(accessor, root, location, findings),
    }
}

fn tell_indices(
    accessor: &Accessor,
    root: &Root,
    location: &Location<'_>,
    findings: &mut Findings,
) -> Result<(), AllocError>
    ensures { OnOk result (findings.new ≡ told_after findings.old (places_of location.now)
        (indices_checks root.now accessor.now)) }
{
    let is_format = is_unsigned(accessor.component_type)
        && is_scalar(accessor.type_)
        && !accessor.normalized;
    findings.tell(is_format, Code::IndicesInvalidFormat, location)?;
    let Some(index) = accessor.buffer_view else {
        return Ok(());
    };
    match root.buffer_views.as_slice().get(index.value()) {
        None => Ok(()),
        Some(view) => findings.tell(
            view.byte_stride.is_none(),
            Code::IndicesWithByteStride,
            location,
        ),
    }
}

fn is_unsigned(component: Checked<ComponentType>) -> bool
    ensures { result ≡ is_unsigned component }
{
    matches!(
        component,
        Checked::Valid(ComponentType::U8 | ComponentType::U16 | ComponentType::U32)
    )
}

/// Whether items have a single component.
pub(crate) fn is_scalar(shape: Checked<Type>) -> bool
    ensures { result ≡ is_scalar shape }
{
    matches!(shape, Checked::Valid(Type::Scalar))
}
