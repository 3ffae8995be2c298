//! The records of a document but for its materials.
ghost use Rattle.gltf_inspect_extensions.specs.Records.{accessor_checks, animation_checks};
ghost use Rattle.gltf_inspect_extensions.specs.Records.{asset_checks, buffer_checks, view_checks};
ghost use Rattle.gltf_inspect_extensions.specs.Records.{camera_checks, orthographic_checks};
ghost use Rattle.gltf_inspect_extensions.specs.Records.{perspective_checks, image_checks};
ghost use Rattle.gltf_inspect_extensions.specs.Records.{mesh_checks, primitive_checks};
ghost use Rattle.gltf_inspect_extensions.specs.Records.{primitive_extensions_checks};
ghost use Rattle.gltf_inspect_extensions.specs.Records.{node_checks, node_extensions_checks};
ghost use Rattle.gltf_inspect_extensions.specs.Records.{sampler_checks, scene_checks, skin_checks};
ghost use Rattle.gltf_inspect_extensions.specs.Records.{texture_checks};

use crate::extended::{
    Extended, tell_extensions, tell_known, tell_list, tell_optional, tell_others,
};
use gltf_findings::findings::Findings;
use gltf_inspect_meshes::names::NameSet;
use gltf_json_animation::animation::Animation;
use gltf_json_geometry::accessor::Accessor;
use gltf_json_geometry::buffer::{Buffer, View};
use gltf_json_geometry::extensions::mesh as shape;
use gltf_json_geometry::mesh::{Mesh, Primitive};
use gltf_json_record::boxed::lent;
use gltf_json_scene::asset::Asset;
use gltf_json_scene::camera::{Camera, Orthographic, Perspective};
use gltf_json_scene::extensions::scene as place;
use gltf_json_scene::image::Image;
use gltf_json_scene::scene::{Node, Scene};
use gltf_json_scene::skin::Skin;
use gltf_json_scene::texture::{Sampler, Texture};
use gltf_validation::location::Location;
use std::alloc::AllocError;

impl Extended for Accessor {
    ghost checks = { λ used r. accessor_checks used r };

    fn tell(
        &self,
        used: &NameSet,
        location: &Location<'_>,
        findings: &mut Findings,
    ) -> Result<(), AllocError> {
        tell_extensions(lent(&self.extensions), used, location, findings)
    }
}

impl Extended for Animation {
    ghost checks = { λ used r. animation_checks used r };

    fn tell(
        &self,
        used: &NameSet,
        location: &Location<'_>,
        findings: &mut Findings,
    ) -> Result<(), AllocError> {
        tell_extensions(lent(&self.extensions), used, location, findings)
    }
}

impl Extended for Asset {
    ghost checks = { λ used r. asset_checks used r };

    fn tell(
        &self,
        used: &NameSet,
        location: &Location<'_>,
        findings: &mut Findings,
    ) -> Result<(), AllocError> {
        tell_extensions(lent(&self.extensions), used, location, findings)
    }
}

impl Extended for Buffer {
    ghost checks = { λ used r. buffer_checks used r };

    fn tell(
        &self,
        used: &NameSet,
        location: &Location<'_>,
        findings: &mut Findings,
    ) -> Result<(), AllocError> {
        tell_extensions(lent(&self.extensions), used, location, findings)
    }
}

impl Extended for View {
    ghost checks = { λ used r. view_checks used r };

    fn tell(
        &self,
        used: &NameSet,
        location: &Location<'_>,
        findings: &mut Findings,
    ) -> Result<(), AllocError> {
        tell_extensions(lent(&self.extensions), used, location, findings)
    }
}

impl Extended for Orthographic {
    ghost checks = { λ used r. orthographic_checks used r };

    fn tell(
        &self,
        used: &NameSet,
        location: &Location<'_>,
        findings: &mut Findings,
    ) -> Result<(), AllocError> {
        tell_extensions(lent(&self.extensions), used, location, findings)
    }
}

impl Extended for Perspective {
    ghost checks = { λ used r. perspective_checks used r };

    fn tell(
        &self,
        used: &NameSet,
        location: &Location<'_>,
        findings: &mut Findings,
    ) -> Result<(), AllocError> {
        tell_extensions(lent(&self.extensions), used, location, findings)
    }
}

impl Extended for Image {
    ghost checks = { λ used r. image_checks used r };

    fn tell(
        &self,
        used: &NameSet,
        location: &Location<'_>,
        findings: &mut Findings,
    ) -> Result<(), AllocError> {
        tell_extensions(lent(&self.extensions), used, location, findings)
    }
}

impl Extended for Scene {
    ghost checks = { λ used r. scene_checks used r };

    fn tell(
        &self,
        used: &NameSet,
        location: &Location<'_>,
        findings: &mut Findings,
    ) -> Result<(), AllocError> {
        tell_extensions(lent(&self.extensions), used, location, findings)
    }
}

impl Extended for Skin {
    ghost checks = { λ used r. skin_checks used r };

    fn tell(
        &self,
        used: &NameSet,
        location: &Location<'_>,
        findings: &mut Findings,
    ) -> Result<(), AllocError> {
        tell_extensions(lent(&self.extensions), used, location, findings)
    }
}

impl Extended for Sampler {
    ghost checks = { λ used r. sampler_checks used r };

    fn tell(
        &self,
        used: &NameSet,
        location: &Location<'_>,
        findings: &mut Findings,
    ) -> Result<(), AllocError> {
        tell_extensions(lent(&self.extensions), used, location, findings)
    }
}

impl Extended for Texture {
    ghost checks = { λ used r. texture_checks used r };

    fn tell(
        &self,
        used: &NameSet,
        location: &Location<'_>,
        findings: &mut Findings,
    ) -> Result<(), AllocError> {
        tell_extensions(lent(&self.extensions), used, location, findings)
    }
}

impl Extended for Camera {
    ghost checks = { λ used r. camera_checks used r };

    fn tell(
        &self,
        used: &NameSet,
        location: &Location<'_>,
        findings: &mut Findings,
    ) -> Result<(), AllocError> {
        tell_extensions(lent(&self.extensions), used, location, findings)?;
        let orthographic = self.orthographic.as_ref();
        tell_optional(orthographic, "orthographic", used, location, findings)?;
        tell_optional(
            self.perspective.as_ref(),
            "perspective",
            used,
            location,
            findings,
        )
    }
}

impl Extended for place::Node {
    ghost checks = { λ used r. node_extensions_checks used r };

    fn tell(
        &self,
        used: &NameSet,
        location: &Location<'_>,
        findings: &mut Findings,
    ) -> Result<(), AllocError> {
        let lights = &self.khr_lights_punctual;
        tell_known(lights, "KHR_lights_punctual", used, location, findings)?;
        tell_others(&self.others, used, location, findings)
    }
}

impl Extended for Node {
    ghost checks = { λ used r. node_checks used r };

    fn tell(
        &self,
        used: &NameSet,
        location: &Location<'_>,
        findings: &mut Findings,
    ) -> Result<(), AllocError> {
        tell_extensions(lent(&self.extensions), used, location, findings)
    }
}

impl Extended for shape::Primitive {
    ghost checks = { λ used r. primitive_extensions_checks used r };

    fn tell(
        &self,
        used: &NameSet,
        location: &Location<'_>,
        findings: &mut Findings,
    ) -> Result<(), AllocError> {
        let variants = &self.khr_materials_variants;
        tell_known(variants, "KHR_materials_variants", used, location, findings)?;
        tell_others(&self.others, used, location, findings)
    }
}

impl Extended for Primitive {
    ghost checks = { λ used r. primitive_checks used r };

    fn tell(
        &self,
        used: &NameSet,
        location: &Location<'_>,
        findings: &mut Findings,
    ) -> Result<(), AllocError> {
        tell_extensions(lent(&self.extensions), used, location, findings)
    }
}

impl Extended for Mesh {
    ghost checks = { λ used r. mesh_checks used r };

    fn tell(
        &self,
        used: &NameSet,
        location: &Location<'_>,
        findings: &mut Findings,
    ) -> Result<(), AllocError> {
        tell_extensions(lent(&self.extensions), used, location, findings)?;
        tell_list(
            self.primitives.as_slice(),
            "primitives",
            used,
            location,
            findings,
        )
    }
}
