//! Buffers, their views and the views of images (glTF 2.0, sections 3.6.1 and 3.8.3).
ghost use Rattle.std.specs.Prelude.{◌≡◌, OnOk, slice_get};
ghost use Rattle.gltf_validation.specs.Locations.{places_of};
ghost use Rattle.gltf_findings.specs.Checks.{told_after, optional_checks};
ghost use Rattle.gltf_inspect_records.specs.Views.{buffer_checks, view_checks, image_checks, stride_checks};
ghost use Rattle.gltf_inspect_records.specs.Views.{within_checks};

use crate::list::Inspect;
use gltf_findings::code::Code;
use gltf_findings::findings::Findings;
use gltf_inspect_meshes::item::or_zero;
use gltf_json::root::Root;
use gltf_json_geometry::buffer::{Buffer, View};
use gltf_json_scene::image::Image;
use gltf_validation::location::Location;
use std::alloc::AllocError;

impl Inspect for Buffer {
    ghost checks = { λ _ b. buffer_checks b };

    fn inspect(
        &self,
        _root: &Root,
        location: &Location<'_>,
        findings: &mut Findings,
    ) -> Result<(), AllocError> {
        let is_some = 1 <= self.byte_length;
        findings.tell_member(is_some, Code::ValueNotInRange, "byteLength", location)
    }
}

impl Inspect for View {
    ghost checks = { λ r v. view_checks r v };

    fn inspect(
        &self,
        root: &Root,
        location: &Location<'_>,
        findings: &mut Findings,
    ) -> Result<(), AllocError> {
        let is_some = 1 <= self.byte_length;
        findings.tell_member(is_some, Code::ValueNotInRange, "byteLength", location)?;
        let at = Location::Member(location, "byteStride");
        tell_stride_of(self, &at, findings)?;
        tell_in_buffer(self, root, location, findings)
    }
}

fn tell_stride_of(
    view: &View,
    location: &Location<'_>,
    findings: &mut Findings,
) -> Result<(), AllocError>
    ensures { OnOk result (findings.new ≡ told_after findings.old (places_of location.now)
        (optional_checks (stride_checks view.now.byte_length) view.now.byte_stride)) }
{
    match view.byte_stride {
        None => Ok(()),
        Some(stride) => tell_stride(view.byte_length, stride, location, findings),
    }
}

fn tell_in_buffer(
    view: &View,
    root: &Root,
    location: &Location<'_>,
    findings: &mut Findings,
) -> Result<(), AllocError>
    ensures { OnOk result (findings.new ≡ told_after findings.old (places_of location.now)
        (optional_checks (within_checks view.now)
        (slice_get root.now.buffers.items view.now.buffer))) }
{
    match root.buffers.as_slice().get(view.buffer.value()) {
        None => Ok(()),
        Some(buffer) => tell_within(view, buffer, location, findings),
    }
}

fn tell_stride(
    len: u64,
    stride: u64,
    location: &Location<'_>,
    findings: &mut Findings,
) -> Result<(), AllocError>
    ensures { OnOk result (findings.new ≡ told_after findings.old (places_of location.now)
        (stride_checks len stride)) }
{
    let is_in_range = 4 <= stride && stride <= 252;
    findings.tell(is_in_range, Code::ValueNotInRange, location)?;
    findings.tell(stride % 4 == 0, Code::ValueMultipleOf, location)?;
    findings.tell(stride <= len, Code::ViewTooBigByteStride, location)
}

fn tell_within(
    view: &View,
    buffer: &Buffer,
    location: &Location<'_>,
    findings: &mut Findings,
) -> Result<(), AllocError>
    ensures { OnOk result (findings.new ≡ told_after findings.old (places_of location.now)
        (within_checks view.now buffer.now)) }
{
    let offset = or_zero(view.byte_offset);
    let begins = offset < buffer.byte_length;
    findings.tell_member(begins, Code::ViewTooLong, "byteOffset", location)?;
    let ends = buffer.byte_length <= offset
        || offset as u128 + view.byte_length as u128 <= buffer.byte_length as u128;
    findings.tell_member(ends, Code::ViewTooLong, "byteLength", location)
}

impl Inspect for Image {
    ghost checks = { λ r i. image_checks r i };

    fn inspect(
        &self,
        root: &Root,
        location: &Location<'_>,
        findings: &mut Findings,
    ) -> Result<(), AllocError> {
        let is_one = self.uri.is_none() || self.buffer_view.is_none();
        findings.tell(is_one, Code::OneOfMismatch, location)?;
        let Some(index) = self.buffer_view else {
            return Ok(());
        };
        match root.buffer_views.as_slice().get(index.value()) {
            None => Ok(()),
            Some(view) => findings.tell_member(
                view.byte_stride.is_none(),
                Code::ImageViewWithByteStride,
                "bufferView",
                location,
            ),
        }
    }
}
