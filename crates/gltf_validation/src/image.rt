//! The rules of images (glTF 2.0, section 3.8.3).
ghost use Rattle.gltf_validation.specs.Images.{image_rules};

use crate::counts::Counts;
use crate::location::Location;
use crate::members::{member, needed};
use crate::report::Report;
use crate::validate::Validate;
use gltf_json_scene::image::Image;
use std::alloc::AllocError;

impl Validate for Image {
    ghost rules = { λ c r. image_rules c r };

    fn validate(
        &self,
        counts: &Counts,
        location: &Location<'_>,
        report: &mut Report,
    ) -> Result<(), AllocError> {
        member(&self.buffer_view, "bufferView", counts, location, report)?;
        let needs_mime_type = self.buffer_view.is_some();
        needed(
            needs_mime_type,
            &self.mime_type,
            "mimeType",
            location,
            report,
        )?;
        let needs_uri = self.buffer_view.is_none();
        needed(needs_uri, &self.uri, "uri", location, report)
    }
}
