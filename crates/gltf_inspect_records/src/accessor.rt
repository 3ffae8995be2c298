//! Accessors and their sparse parts (glTF 2.0, section 3.6.2).
ghost use Rattle.std.specs.Prelude.{◌≡◌, ◌<◌, OnOk, slice_get};
ghost use Rattle.gltf_validation.specs.Locations.{places_of};
ghost use Rattle.gltf_findings.specs.Checks.{told_after, optional_checks};
ghost use Rattle.gltf_inspect_records.specs.Accessors.{may_be_normalized, in_view_checks};
ghost use Rattle.gltf_inspect_records.specs.Accessors.{part_checks, sparse_checks, accessor_checks};
ghost use Rattle.gltf_inspect_records.specs.Accessors.{base_checks, member_checks};

use crate::list::Inspect;
use gltf_findings::code::Code;
use gltf_findings::findings::Findings;
use gltf_inspect_meshes::item::{component_size, fit, item_size, last_size, or_zero};
use gltf_json::boxed::lent;
use gltf_json::root::Root;
use gltf_json_geometry::accessor::sparse::Sparse;
use gltf_json_geometry::accessor::{Accessor, ComponentType};
use gltf_json_geometry::buffer::View;
use gltf_json_record::validation::Checked;
use gltf_validation::location::Location;
use std::alloc::AllocError;

impl Inspect for Accessor {
    ghost checks = { λ r a. accessor_checks r a };

    fn inspect(
        &self,
        root: &Root,
        location: &Location<'_>,
        findings: &mut Findings,
    ) -> Result<(), AllocError> {
        tell_members(self, location, findings)?;
        tell_base(self, root, location, findings)?;
        let at = Location::Member(location, "sparse");
        tell_sparse_of(self, root, &at, findings)
    }
}

fn tell_sparse_of(
    accessor: &Accessor,
    root: &Root,
    location: &Location<'_>,
    findings: &mut Findings,
) -> Result<(), AllocError>
    ensures { OnOk result (findings.new ≡ told_after findings.old (places_of location.now)
        (optional_checks (sparse_checks root.now accessor.now) accessor.now.sparse)) }
{
    match lent(&accessor.sparse) {
        None => Ok(()),
        Some(sparse) => tell_sparse(accessor, sparse, root, location, findings),
    }
}

fn tell_members(
    accessor: &Accessor,
    location: &Location<'_>,
    findings: &mut Findings,
) -> Result<(), AllocError>
    ensures { OnOk result (findings.new ≡ told_after findings.old (places_of location.now)
        (member_checks accessor.now)) }
{
    findings.tell_member(
        1 <= accessor.count,
        Code::ValueNotInRange,
        "count",
        location,
    )?;
    let is_allowed = !accessor.normalized || may_be_normalized(accessor.component_type);
    findings.tell_member(is_allowed, Code::NormalizedInvalid, "normalized", location)?;
    let is_aligned = or_zero(accessor.byte_offset) % component_size(accessor.component_type) == 0;
    findings.tell_member(is_aligned, Code::OffsetAlignment, "byteOffset", location)?;
    let has_view = accessor.byte_offset.is_none() || accessor.buffer_view.is_some();
    findings.tell_member(
        has_view,
        Code::UnsatisfiedDependency,
        "byteOffset",
        location,
    )
}

fn may_be_normalized(component: Checked<ComponentType>) -> bool
    ensures { result ≡ may_be_normalized component }
{
    !matches!(
        component,
        Checked::Valid(ComponentType::U32 | ComponentType::F32)
    )
}

fn tell_base(
    accessor: &Accessor,
    root: &Root,
    location: &Location<'_>,
    findings: &mut Findings,
) -> Result<(), AllocError>
    ensures { OnOk result (findings.new ≡ told_after findings.old (places_of location.now)
        (optional_checks (base_checks root.now accessor.now) accessor.now.buffer_view)) }
{
    let Some(index) = accessor.buffer_view else {
        return Ok(());
    };
    match root.buffer_views.as_slice().get(index.value()) {
        None => Ok(()),
        Some(view) => tell_in_view(accessor, view, location, findings),
    }
}

fn tell_in_view(
    accessor: &Accessor,
    view: &View,
    location: &Location<'_>,
    findings: &mut Findings,
) -> Result<(), AllocError>
    ensures { OnOk result (findings.new ≡ told_after findings.old (places_of location.now)
        (in_view_checks accessor.now view.now)) }
{
    let size = component_size(accessor.component_type);
    let packed = item_size(accessor.type_, size);
    let stride = match view.byte_stride {
        None => packed,
        Some(stride) => stride,
    };
    findings.tell(packed <= stride, Code::SmallByteStride, location)?;
    let at = Location::Member(location, "byteOffset");
    let offset = or_zero(accessor.byte_offset);
    let total = offset as u128 + or_zero(view.byte_offset) as u128;
    findings.tell(total % size as u128 == 0, Code::TotalOffsetAlignment, &at)?;
    let last = last_size(accessor.type_, size);
    let fits = accessor.count == 0
        || stride < packed
        || fit(offset, stride, accessor.count, last, view.byte_length);
    findings.tell(fits, Code::AccessorTooLong, &at)
}

fn tell_sparse(
    accessor: &Accessor,
    sparse: &Sparse,
    root: &Root,
    location: &Location<'_>,
    findings: &mut Findings,
) -> Result<(), AllocError>
    ensures { OnOk result (findings.new ≡ told_after findings.old (places_of location.now)
        (sparse_checks root.now accessor.now sparse.now)) }
{
    let count = Location::Member(location, "count");
    findings.tell(1 <= sparse.count, Code::ValueNotInRange, &count)?;
    findings.tell(
        sparse.count <= accessor.count,
        Code::SparseCountOutOfRange,
        &count,
    )?;
    let views = root.buffer_views.as_slice();
    let size = component_size(sparse.indices.component_type);
    let indices = Part {
        offset: sparse.indices.byte_offset,
        align: size,
        stride: size,
        last: size,
        count: sparse.count,
    };
    let at = Location::Member(location, "indices");
    let view = sparse.indices.buffer_view.value();
    tell_part(indices, views, view, &at, findings)?;
    let size = component_size(accessor.component_type);
    let values = Part {
        offset: sparse.values.byte_offset,
        align: size,
        stride: item_size(accessor.type_, size),
        last: last_size(accessor.type_, size),
        count: sparse.count,
    };
    let at = Location::Member(location, "values");
    let view = sparse.values.buffer_view.value();
    tell_part(values, views, view, &at, findings)
}

/// Packed items of a sparse part.
#[derive(Clone, Copy)]
struct Part {
    offset: u64,
    align: u64,
    stride: u64,
    last: u64,
    count: u64,
}

fn tell_part(
    part: Part,
    views: &[View],
    index: usize,
    location: &Location<'_>,
    findings: &mut Findings,
) -> Result<(), AllocError>
    requires { 0 < part.align }
    ensures { OnOk result (findings.new ≡ told_after findings.old (places_of location.now)
        (optional_checks (part_checks part.offset part.align part.stride part.last part.count)
        (slice_get views.now index))) }
{
    let Some(view) = views.get(index) else {
        return Ok(());
    };
    let at = Location::Member(location, "byteOffset");
    let total = part.offset as u128 + or_zero(view.byte_offset) as u128;
    findings.tell(
        total % part.align as u128 == 0,
        Code::TotalOffsetAlignment,
        &at,
    )?;
    let fits = part.count == 0
        || fit(
            part.offset,
            part.stride,
            part.count,
            part.last,
            view.byte_length,
        );
    findings.tell(fits, Code::AccessorTooLong, &at)
}
