//! The rules of buffers and buffer views (glTF 2.0, section 3.6.1).
ghost use Rattle.gltf_validation.specs.Buffers.{buffer_rules, view_rules};

use crate::counts::Counts;
use crate::location::Location;
use crate::members::{member, members};
use crate::report::Report;
use crate::validate::Validate;
use gltf_json_geometry::buffer::{Buffer, View};
use std::alloc::AllocError;

impl Validate for Buffer {
    ghost rules = { λ c r. buffer_rules c r };

    fn validate(
        &self,
        counts: &Counts,
        location: &Location<'_>,
        report: &mut Report,
    ) -> Result<(), AllocError> {
        member(&self.byte_length, "byteLength", counts, location, report)
    }
}

impl Validate for View {
    ghost rules = { λ c r. view_rules c r };

    fn validate(
        &self,
        counts: &Counts,
        location: &Location<'_>,
        report: &mut Report,
    ) -> Result<(), AllocError> {
        members!(self, counts, location, report; {
            buffer: "buffer",
            byte_length: "byteLength",
            byte_offset: "byteOffset",
            byte_stride: "byteStride",
            target: "target",
        })
    }
}
