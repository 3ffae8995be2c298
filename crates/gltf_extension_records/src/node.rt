//! The extensions of a node.

use crate::members;
use gltf_json_record::error::Error;
use gltf_json_record::index::Index;
use gltf_json_record::read::FromValue;
use gltf_json_record::{kinds, read_record};
use gltf_validation::counts::Counts;
use gltf_validation::location::Location;
use gltf_validation::report::Report;
use gltf_validation::validate::Validate;
use serde_json::Value;
use std::alloc::{AllocError, Global};

/// Whether a node and its descendants are shown (the extension `KHR_node_visibility`).
#[derive(Clone, Copy, Debug)]
pub struct NodeVisibility {
    /// Whether they are: `visible`, by default true.
    pub visible: bool,
}

impl FromValue for NodeVisibility {
    ghost use Rattle.gltf_extension_records.specs.Nodes.{node_visibility};

    ghost kind = { node_visibility };

    #[tactic(auto, unfolding(crate::specs::Nodes::node_visibility))]
    fn from_value(alloc: Global, value: &Value) -> Result<NodeVisibility, Error> {
        read_record!(alloc, value; NodeVisibility {
            visible: or_default("visible", true),
        })
    }
}

impl Validate for NodeVisibility {
    ghost use Rattle.gltf_validation.specs.Rules.{Nothing};

    ghost rules = { λ _ _. Nothing };

    fn validate(
        &self,
        _counts: &Counts,
        _location: &Location<'_>,
        _report: &mut Report,
    ) -> Result<(), AllocError> {
        Ok(())
    }
}

/// The accessors of the transformations of instances, an item an instance (`attributes` of the
/// extension `EXT_mesh_gpu_instancing`).
#[derive(Clone, Copy, Debug)]
pub struct InstanceAttributes {
    /// The translations: `TRANSLATION`.
    pub translation: Option<Index<kinds::Accessor>>,
    /// The rotations, as quaternions x, y, z, w: `ROTATION`.
    pub rotation: Option<Index<kinds::Accessor>>,
    /// The scales: `SCALE`.
    pub scale: Option<Index<kinds::Accessor>>,
}

impl FromValue for InstanceAttributes {
    ghost use Rattle.gltf_extension_records.specs.Nodes.{instance_attributes};

    ghost kind = { instance_attributes };

    #[tactic(auto, unfolding(crate::specs::Nodes::instance_attributes))]
    fn from_value(alloc: Global, value: &Value) -> Result<InstanceAttributes, Error> {
        read_record!(alloc, value; InstanceAttributes {
            translation: optional("TRANSLATION"),
            rotation: optional("ROTATION"),
            scale: optional("SCALE"),
        })
    }
}

impl Validate for InstanceAttributes {
    ghost use Rattle.gltf_extension_records.specs.Rules.{instance_attributes_rules};

    ghost rules = { λ c r. instance_attributes_rules c r };

    fn validate(
        &self,
        counts: &Counts,
        location: &Location<'_>,
        report: &mut Report,
    ) -> Result<(), AllocError> {
        members!(self, counts, location, report; {
            translation: "TRANSLATION",
            rotation: "ROTATION",
            scale: "SCALE",
        })
    }
}

/// Instances of the mesh of a node (the extension `EXT_mesh_gpu_instancing`).
#[derive(Clone, Copy, Debug)]
pub struct MeshGpuInstancing {
    /// Where their transformations are: `attributes`.
    pub attributes: InstanceAttributes,
}

impl FromValue for MeshGpuInstancing {
    ghost use Rattle.gltf_extension_records.specs.Nodes.{mesh_gpu_instancing};

    ghost kind = { mesh_gpu_instancing };

    #[tactic(auto, unfolding(crate::specs::Nodes::mesh_gpu_instancing))]
    fn from_value(alloc: Global, value: &Value) -> Result<MeshGpuInstancing, Error> {
        read_record!(alloc, value; MeshGpuInstancing {
            attributes: required("attributes"),
        })
    }
}

impl Validate for MeshGpuInstancing {
    ghost use Rattle.gltf_extension_records.specs.Rules.{mesh_gpu_instancing_rules};

    ghost rules = { λ c r. mesh_gpu_instancing_rules c r };

    fn validate(
        &self,
        counts: &Counts,
        location: &Location<'_>,
        report: &mut Report,
    ) -> Result<(), AllocError> {
        members!(self, counts, location, report; {
            attributes: "attributes",
        })
    }
}
