//! Images, textures, samplers, cameras, lights and variants (glTF 2.0, sections 3.8 and 3.10, and
//! two extensions).
use crate::line::Line;
use crate::shown::{Numbered, Shown, write_next, write_part, write_rest};
use gltf_look::camera::{Camera, Orthographic, Perspective, Projection};
use gltf_look::image::{Image, Source};
use gltf_look::khr_lights_punctual::Light;
use gltf_look::khr_materials_variants::Variant;
use gltf_look::texture::{Sampler, Texture};
use gltf_rules::Records;

impl<D: Records> Shown for Image<'_, D> {
    fn show(&self, line: &mut Line<'_>) {
        write!(line, "index {}", self.index());
        write_next("name", self.name(), line);
        write_source(self.source(), line);
        write_rest!(self, line);
    }
}

/// Writes where the bytes of an image are.
fn write_source<D: Records>(source: Source<'_, D>, line: &mut Line<'_>) {
    match source {
        Source::View { view, mime_type } => {
            write!(line, ", source View {} of {mime_type:?}", view.index());
        }
        Source::Uri { uri, mime_type } => { write!(line, ", source Uri {uri:?} of {mime_type:?}") }
    }
}

impl<D: Records> Shown for Texture<'_, D> {
    fn show(&self, line: &mut Line<'_>) {
        write!(line, "index {}", self.index());
        write_next("name", self.name(), line);
        write_part("sampler", Some(self.sampler()), line);
        write_part("source", Some(self.source()), line);
        write_rest!(self, line);
    }
}

impl<D: Records> Shown for Sampler<'_, D> {
    fn show(&self, line: &mut Line<'_>) {
        write!(line, "index {:?}", self.index());
        write_next("mag_filter", self.mag_filter(), line);
        write_next("min_filter", self.min_filter(), line);
        write_next("wrap_s", self.wrap_s(), line);
        write_next("wrap_t", self.wrap_t(), line);
        write_next("name", self.name(), line);
        write_rest!(self, line);
    }
}

impl<D: Records> Shown for Camera<'_, D> {
    fn show(&self, line: &mut Line<'_>) {
        write!(line, "index {}", self.index());
        write_next("name", self.name(), line);
        match self.projection() {
            Projection::Orthographic(given) => write_part("Orthographic", Some(given), line),
            Projection::Perspective(given) => write_part("Perspective", Some(given), line),
        }
        write_rest!(self, line);
    }
}

impl Shown for Orthographic<'_> {
    fn show(&self, line: &mut Line<'_>) {
        write!(line, "xmag {:?}", self.xmag());
        write_next("ymag", self.ymag(), line);
        write_next("zfar", self.zfar(), line);
        write_next("znear", self.znear(), line);
        write_rest!(self, line);
    }
}

impl Shown for Perspective<'_> {
    fn show(&self, line: &mut Line<'_>) {
        write!(line, "aspect_ratio {:?}", self.aspect_ratio());
        write_next("yfov", self.yfov(), line);
        write_next("zfar", self.zfar(), line);
        write_next("znear", self.znear(), line);
        write_rest!(self, line);
    }
}

impl<D: Records> Shown for Light<'_, D> {
    fn show(&self, line: &mut Line<'_>) {
        write!(line, "index {}", self.index());
        write_next("name", self.name(), line);
        write_next("color", self.color(), line);
        write_next("intensity", self.intensity(), line);
        write_next("range", self.range(), line);
        write_next("kind", self.kind(), line);
        write_next("extras", self.extras(), line);
    }
}

impl Shown for Variant<'_> {
    fn show(&self, line: &mut Line<'_>) {
        write!(line, "name {:?}", self.name());
    }
}

impl<D: Records> Numbered for Camera<'_, D> {
    fn number(&self) -> usize {
        self.index()
    }
}

impl<D: Records> Numbered for Light<'_, D> {
    fn number(&self) -> usize {
        self.index()
    }
}
