//! The indices in accessors (glTF 2.0, section 3.6.2), buffer views (section 3.6.1) and meshes
//! (section 3.7).
ghost use Rattle.std.specs.Prelude.{◌≡◌, OnOk};
ghost use Rattle.gltf_validation.specs.Locations.{places_of};
ghost use Rattle.gltf_uses.specs.Uses.{after_uses};
ghost use Rattle.gltf_uses.specs.Geometry.{indices_uses, values_uses, sparse_uses, accessor_uses};
ghost use Rattle.gltf_uses.specs.Geometry.{view_uses, morph_target_uses, mapping_uses};
ghost use Rattle.gltf_uses.specs.Geometry.{variants_uses, primitive_extensions_uses};
ghost use Rattle.gltf_uses.specs.Geometry.{primitive_uses, mesh_uses, entries_uses};

use crate::sink::Sink;
use crate::visit::{Visit, member, members};
use gltf_json_geometry::accessor::Accessor;
use gltf_json_geometry::accessor::sparse::{Indices, Sparse, Values};
use gltf_json_geometry::buffer::View;
use gltf_json_geometry::extensions::mesh as extended;
use gltf_json_geometry::mesh::{Mesh, MorphTarget, Primitive};
use gltf_json_geometry::semantic::Semantic;
use gltf_json_record::index::Index;
use gltf_json_record::kinds;
use gltf_validation::location::Location;
use std::alloc::AllocError;
use std::collections::BTreeMap;

impl Visit for Indices {
    ghost uses = { λ r. indices_uses r };

    fn visit<S: Sink>(&self, location: &Location<'_>, sink: &mut S) -> Result<(), AllocError> {
        member(&self.buffer_view, "bufferView", location, sink)
    }
}

impl Visit for Values {
    ghost uses = { λ r. values_uses r };

    fn visit<S: Sink>(&self, location: &Location<'_>, sink: &mut S) -> Result<(), AllocError> {
        member(&self.buffer_view, "bufferView", location, sink)
    }
}

impl Visit for Sparse {
    ghost uses = { λ r. sparse_uses r };

    fn visit<S: Sink>(&self, location: &Location<'_>, sink: &mut S) -> Result<(), AllocError> {
        members!(self, location, sink; {
            indices: "indices",
            values: "values",
        })
    }
}

impl Visit for Accessor {
    ghost uses = { λ r. accessor_uses r };

    fn visit<S: Sink>(&self, location: &Location<'_>, sink: &mut S) -> Result<(), AllocError> {
        members!(self, location, sink; {
            buffer_view: "bufferView",
            sparse: "sparse",
        })
    }
}

impl Visit for View {
    ghost uses = { λ r. view_uses r };

    fn visit<S: Sink>(&self, location: &Location<'_>, sink: &mut S) -> Result<(), AllocError> {
        member(&self.buffer, "buffer", location, sink)
    }
}

impl Visit for MorphTarget {
    ghost uses = { λ r. morph_target_uses r };

    fn visit<S: Sink>(&self, location: &Location<'_>, sink: &mut S) -> Result<(), AllocError> {
        members!(self, location, sink; {
            positions: "POSITION",
            normals: "NORMAL",
            tangents: "TANGENT",
        })
    }
}

impl Visit for extended::Mapping {
    ghost uses = { λ r. mapping_uses r };

    fn visit<S: Sink>(&self, location: &Location<'_>, sink: &mut S) -> Result<(), AllocError> {
        let material: Index<kinds::Material> = Index::new(self.material);
        member(&material, "material", location, sink)
    }
}

impl Visit for extended::KhrMaterialsVariants {
    ghost uses = { λ r. variants_uses r };

    fn visit<S: Sink>(&self, location: &Location<'_>, sink: &mut S) -> Result<(), AllocError> {
        member(&self.mappings, "mappings", location, sink)
    }
}

impl Visit for extended::Primitive {
    ghost uses = { λ r. primitive_extensions_uses r };

    fn visit<S: Sink>(&self, location: &Location<'_>, sink: &mut S) -> Result<(), AllocError> {
        member(
            &self.khr_materials_variants,
            "KHR_materials_variants",
            location,
            sink,
        )
    }
}

impl Visit for Primitive {
    ghost uses = { λ r. primitive_uses r };

    fn visit<S: Sink>(&self, location: &Location<'_>, sink: &mut S) -> Result<(), AllocError> {
        let attributes = Location::Member(location, "attributes");
        visit_attributes(&self.attributes, &attributes, sink)?;
        members!(self, location, sink; {
            indices: "indices",
            material: "material",
            targets: "targets",
            extensions: "extensions",
        })
    }
}

impl Visit for Mesh {
    ghost uses = { λ r. mesh_uses r };

    fn visit<S: Sink>(&self, location: &Location<'_>, sink: &mut S) -> Result<(), AllocError> {
        member(&self.primitives, "primitives", location, sink)
    }
}

// Adds the indices of the attributes, in the order of their meanings.
fn visit_attributes<T: Visit, S: Sink>(
    attributes: &BTreeMap<Semantic, T>,
    location: &Location<'_>,
    sink: &mut S,
) -> Result<(), AllocError>
    ensures { OnOk result (sink.new ≡ after_uses S.after sink.old (places_of location.now)
        (entries_uses T.uses attributes.now.entries)) }
{
    for (semantic, value) in attributes {
        value.visit(&Location::Attribute(&*location, semantic), sink)?;
    }
    Ok(())
}
