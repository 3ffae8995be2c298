//! The rules of nodes and scenes (glTF 2.0, section 3.5).
ghost use Rattle.gltf_validation.specs.Scenes.{node_extensions_rules, node_rules, scene_rules};

use crate::counts::Counts;
use crate::location::Location;
use crate::members::{member, members};
use crate::report::Report;
use crate::validate::Validate;
use gltf_json_scene::extensions::scene as extended;
use gltf_json_scene::scene::{Node, Scene};
use std::alloc::AllocError;

impl Validate for extended::Node {
    ghost rules = { λ c r. node_extensions_rules c r };

    fn validate(
        &self,
        counts: &Counts,
        location: &Location<'_>,
        report: &mut Report,
    ) -> Result<(), AllocError> {
        members!(self, counts, location, report; {
            khr_lights_punctual: "KHR_lights_punctual",
        })
    }
}

impl Validate for Node {
    ghost rules = { λ c r. node_rules c r };

    fn validate(
        &self,
        counts: &Counts,
        location: &Location<'_>,
        report: &mut Report,
    ) -> Result<(), AllocError> {
        members!(self, counts, location, report; {
            camera: "camera",
            children: "children",
            mesh: "mesh",
            skin: "skin",
            extensions: "extensions",
        })
    }
}

impl Validate for Scene {
    ghost rules = { λ c r. scene_rules c r };

    fn validate(
        &self,
        counts: &Counts,
        location: &Location<'_>,
        report: &mut Report,
    ) -> Result<(), AllocError> {
        member(&self.nodes, "nodes", counts, location, report)
    }
}
