//! Animations, their channels, targets and samplers (glTF 2.0, section 3.11).
use crate::line::Line;
use crate::shown::{Shown, write_next, write_part, write_parts, write_rest};
use gltf_anim::animation::{Animation, Channel, Sampler, Target};
use gltf_rules::Records;

impl<D: Records> Shown for Animation<'_, D> {
    fn show(&self, line: &mut Line<'_>) {
        write!(line, "index {}", self.index());
        write_next("name", self.name(), line);
        write_parts("channels", self.channels(), line);
        write_parts("samplers", self.samplers(), line);
        write_rest!(self, line);
    }
}

impl<D: Records> Shown for Channel<'_, D> {
    fn show(&self, line: &mut Line<'_>) {
        write!(line, "index {}", self.index());
        write!(line, " of animation {}", self.animation().index());
        write_part("sampler", Some(self.sampler()), line);
        write_part("target", Some(self.target()), line);
        write_next("extras", self.extras(), line);
    }
}

impl<D: Records> Shown for Target<'_, D> {
    fn show(&self, line: &mut Line<'_>) {
        write!(
            line,
            "{:?} of node {}",
            self.property(),
            self.node().index()
        );
        write!(line, " in animation {}", self.animation().index());
        write_next("extras", self.extras(), line);
    }
}

impl<D: Records> Shown for Sampler<'_, D> {
    fn show(&self, line: &mut Line<'_>) {
        write!(line, "index {}", self.index());
        write!(line, " of animation {}", self.animation().index());
        write_next("input", self.input().index(), line);
        write_next("interpolation", self.interpolation(), line);
        write_next("output", self.output().index(), line);
        write_next("extras", self.extras(), line);
    }
}
