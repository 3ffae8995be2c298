//! Meshes, their primitives, attributes, morph targets and mappings (glTF 2.0, section 3.7, and an
//! extension).
use crate::line::{Line, Written};
use crate::list::{Walked, write_steps};
use crate::shown::{Numbered, Shown, write_next, write_number, write_parts, write_rest};
use gltf_material::khr_materials_variants::Mapping;
use gltf_rules::Records;
use gltf_scene::mesh::iter::Attributes;
use gltf_scene::mesh::{Attribute, BoundingBox, Mesh, MorphTarget, Primitive, Semantic};

impl<D: Records> Shown for Mesh<'_, D> {
    fn show(&self, line: &mut Line<'_>) {
        write!(line, "index {}", self.index());
        write_next("name", self.name(), line);
        write_parts("primitives", self.primitives(), line);
        write_next("weights", self.weights(), line);
        write_rest!(self, line);
    }
}

impl<D: Records> Shown for Primitive<'_, D> {
    /// Of attributes the accessor of `POSITION` is looked up.
    fn show(&self, line: &mut Line<'_>) {
        write!(line, "index {}", self.index());
        write_attributes(self.attributes(), line);
        write_number("positions", self.get(&Semantic::Positions), line);
        write_number("indices", self.indices(), line);
        write_next("material", self.material().index(), line);
        write_next("mode", self.mode(), line);
        write_parts("morph_targets", self.morph_targets(), line);
        write_parts("mappings", self.mappings(), line);
        write_box(self.bounding_box(), line);
        write_rest!(self, line);
    }
}

impl<D: Records> Shown for MorphTarget<'_, D> {
    fn show(&self, line: &mut Line<'_>) {
        line.push_str("target");
        write_number("positions", self.positions(), line);
        write_number("normals", self.normals(), line);
        write_number("tangents", self.tangents(), line);
    }
}

impl<D: Records> Shown for Mapping<'_, D> {
    fn show(&self, line: &mut Line<'_>) {
        write!(line, "variants {:?}", self.variants());
        write_next("material", self.material().index(), line);
    }
}

impl<D: Records> Numbered for Mesh<'_, D> {
    fn number(&self) -> usize {
        self.index()
    }
}

/// Writes all attributes.
fn write_attributes<D: Records>(attributes: Attributes<'_, D>, line: &mut Line<'_>) {
    line.push_str(", attributes [");
    for attribute in attributes {
        line.push_str("(");
        write_attribute(Some(attribute), line);
        line.push_str(")");
    }
    line.push_str("]");
}

/// Writes what an attribute means, and the index of its accessor.
fn write_attribute<D: Records>(attribute: Option<Attribute<'_, D>>, line: &mut Line<'_>) {
    match attribute {
        Some((semantic, accessor)) => write!(line, "{semantic:?} {}", accessor.index()),
        None => line.push_str("none"),
    }
}

/// Writes the corners of a box.
fn write_box(bounds: Option<BoundingBox<'_>>, line: &mut Line<'_>) {
    match bounds {
        Some(bounds) => write!(line, ", box {:?} to {:?}", bounds.min, bounds.max),
        None => line.push_str(", box None"),
    }
}

/// Writes what the steps over attributes give: `next`, `nth:NUMBER`, `len`, `hint`, `last` and
/// `count`.
pub fn write_attribute_steps<D: Records>(
    mut attributes: Attributes<'_, D>,
    words: &str,
    text: &mut String,
) -> Written {
    write_steps(&mut attributes, words, text)
}

impl<D: Records> Walked for Attributes<'_, D> {
    fn write_next(&mut self, line: &mut Line<'_>) {
        write_attribute(self.next(), line);
    }

    fn write_nth(&mut self, places: usize, line: &mut Line<'_>) {
        write_attribute(self.nth(places), line);
    }

    fn write_last(&self, line: &mut Line<'_>) {
        if let Some(attributes) = line.kept(self.clone()) {
            write_attribute(attributes.last(), line);
        }
    }

    fn write_len(&self, line: &mut Line<'_>) {
        write!(line, "{}", self.len());
    }

    fn write_hint(&self, line: &mut Line<'_>) {
        write!(line, "{:?}", self.size_hint());
    }

    fn write_count(&self, line: &mut Line<'_>) {
        if let Some(attributes) = line.kept(self.clone()) {
            write!(line, "{}", attributes.count());
        }
    }
}
