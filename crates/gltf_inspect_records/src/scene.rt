//! Nodes and skins (glTF 2.0, sections 3.5 and 3.7.3).
ghost use Rattle.std.specs.Prelude.{◌≡◌, OnOk, length};
ghost use Rattle.gltf_validation.specs.Locations.{places_of};
ghost use Rattle.gltf_findings.specs.Checks.{told_after, optional_checks};
ghost use Rattle.gltf_inspect_records.specs.Scenes.{node_checks, is_float, is_matrix, matrices_checks};
ghost use Rattle.gltf_inspect_records.specs.Scenes.{skin_checks, matrices_index_checks};

use crate::list::Inspect;
use gltf_findings::code::Code;
use gltf_findings::findings::Findings;
use gltf_json::root::Root;
use gltf_json_geometry::accessor::{Accessor, ComponentType, Type};
use gltf_json_record::validation::Checked;
use gltf_json_scene::scene::Node;
use gltf_json_scene::skin::Skin;
use gltf_validation::location::Location;
use std::alloc::AllocError;

impl Inspect for Node {
    ghost checks = { λ _ n. node_checks n };

    fn inspect(
        &self,
        _root: &Root,
        location: &Location<'_>,
        findings: &mut Findings,
    ) -> Result<(), AllocError> {
        let has_parts = self.translation.is_some()
            || self.rotation.is_some()
            || self.scale.is_some();
        let is_allowed = self.matrix.is_none() || !has_parts;
        findings.tell_member(is_allowed, Code::NodeMatrixTrs, "matrix", location)?;
        let has_mesh = self.mesh.is_some();
        let is_fine = self.skin.is_none() || has_mesh;
        findings.tell_member(is_fine, Code::UnsatisfiedDependency, "skin", location)?;
        let is_fine = self.weights.is_none() || has_mesh;
        findings.tell_member(is_fine, Code::UnsatisfiedDependency, "weights", location)
    }
}

impl Inspect for Skin {
    ghost checks = { λ r s. skin_checks r s };

    fn inspect(
        &self,
        root: &Root,
        location: &Location<'_>,
        findings: &mut Findings,
    ) -> Result<(), AllocError> {
        let is_some = !self.joints.is_empty();
        findings.tell_member(is_some, Code::EmptyEntity, "joints", location)?;
        let at = Location::Member(location, "inverseBindMatrices");
        tell_inverse(self, root, &at, findings)
    }
}

fn tell_inverse(
    skin: &Skin,
    root: &Root,
    location: &Location<'_>,
    findings: &mut Findings,
) -> Result<(), AllocError>
    ensures { OnOk result (findings.new ≡ told_after findings.old (places_of location.now)
        (optional_checks (matrices_index_checks root.now (length skin.now.joints.items))
        skin.now.inverse_bind_matrices)) }
{
    let Some(index) = skin.inverse_bind_matrices else {
        return Ok(());
    };
    let joints = skin.joints.len();
    match root.accessors.as_slice().get(index.value()) {
        None => Ok(()),
        Some(accessor) => tell_matrices(joints, accessor, location, findings),
    }
}

fn tell_matrices(
    joints: usize,
    accessor: &Accessor,
    location: &Location<'_>,
    findings: &mut Findings,
) -> Result<(), AllocError>
    ensures { OnOk result (findings.new ≡ told_after findings.old (places_of location.now)
        (matrices_checks joints accessor.now)) }
{
    let is_format = is_float(accessor.component_type) && is_matrix(accessor.type_);
    findings.tell(is_format, Code::IbmInvalidFormat, location)?;
    findings.tell(joints as u64 <= accessor.count, Code::IbmCount, location)
}

/// Whether components are floats.
pub(crate) fn is_float(component: Checked<ComponentType>) -> bool
    ensures { result ≡ is_float component }
{
    matches!(component, Checked::Valid(ComponentType::F32))
}

fn is_matrix(shape: Checked<Type>) -> bool
    ensures { result ≡ is_matrix shape }
{
    matches!(shape, Checked::Valid(Type::Mat4))
}
