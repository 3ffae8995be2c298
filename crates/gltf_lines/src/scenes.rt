//! Nodes, scenes and skins (glTF 2.0, sections 3.5 and 3.7.3).
use crate::line::Line;
use crate::shown::{Numbered, Shown, write_next, write_number, write_numbers, write_rest};
use gltf_rules::Records;
use gltf_scene::scene::{Node, Scene};
use gltf_scene::skin::Skin;

impl<D: Records> Shown for Node<'_, D> {
    /// What a node refers to is shown by its index: a node may be its own child.
    fn show(&self, line: &mut Line<'_>) {
        write!(line, "index {}", self.index());
        write_next("name", self.name(), line);
        write_number("camera", self.camera(), line);
        write_number("light", self.light(), line);
        write_number("mesh", self.mesh(), line);
        write_number("skin", self.skin(), line);
        write_numbers("children", self.children(), line);
        write_next("transform", self.transform(), line);
        write_next("weights", self.weights(), line);
        write_rest!(self, line);
    }
}

impl<D: Records> Shown for Scene<'_, D> {
    fn show(&self, line: &mut Line<'_>) {
        write!(line, "index {}", self.index());
        write_next("name", self.name(), line);
        write_numbers("nodes", self.nodes(), line);
        write_rest!(self, line);
    }
}

impl<D: Records> Shown for Skin<'_, D> {
    fn show(&self, line: &mut Line<'_>) {
        write!(line, "index {}", self.index());
        write_next("name", self.name(), line);
        write_number("inverse_bind_matrices", self.inverse_bind_matrices(), line);
        write_number("skeleton", self.skeleton(), line);
        write_numbers("joints", self.joints(), line);
        write_rest!(self, line);
    }
}

impl<D: Records> Numbered for Node<'_, D> {
    fn number(&self) -> usize {
        self.index()
    }
}

impl<D: Records> Numbered for Skin<'_, D> {
    fn number(&self) -> usize {
        self.index()
    }
}
