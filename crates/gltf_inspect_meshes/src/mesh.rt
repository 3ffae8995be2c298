//! Meshes and their primitives (glTF 2.0, section 3.7).
ghost use Rattle.std.specs.Prelude.{◌≡◌, OnOk};
ghost use Rattle.gltf_validation.specs.Locations.{places_of};
ghost use Rattle.gltf_findings.specs.Checks.{told_after, optional_checks};
ghost use Rattle.gltf_inspect_meshes.specs.Meshes.{primitive_checks, mesh_checks, weights_checks};

use crate::coords::tell_coords;
use crate::format::tell_formats;
use crate::list::{Inspect, inspect_each};
use crate::mode::tell_mode;
use crate::sets::tell_sets;
use crate::target::{have_targets, target_count, tell_targets};
use crate::weights::is_list_of;
use gltf_findings::code::Code;
use gltf_findings::findings::Findings;
use gltf_json::root::Root;
use gltf_json_geometry::mesh::{Mesh, Primitive};
use gltf_validation::location::Location;
use std::alloc::AllocError;

impl Inspect for Mesh {
    ghost checks = { λ r q m. mesh_checks r q m };

    fn inspect(
        &self,
        root: &Root,
        is_quantized: bool,
        location: &Location<'_>,
        findings: &mut Findings,
    ) -> Result<(), AllocError> {
        let primitives = self.primitives.as_slice();
        let count = target_count(primitives);
        let at = Location::Member(location, "primitives");
        let are_equal = have_targets(count, primitives);
        findings.tell(are_equal, Code::UnequalTargetsCount, &at)?;
        inspect_each(primitives, root, is_quantized, &at, findings)?;
        let at = Location::Member(location, "weights");
        tell_weights(self, count, &at, findings)
    }
}

fn tell_weights(
    mesh: &Mesh,
    count: usize,
    location: &Location<'_>,
    findings: &mut Findings,
) -> Result<(), AllocError>
    ensures { OnOk result (findings.new ≡ told_after findings.old (places_of location.now)
        (optional_checks (weights_checks count) mesh.now.weights)) }
{
    match &mesh.weights {
        None => Ok(()),
        Some(weights) => {
            let fits = is_list_of(count, weights);
            findings.tell(fits, Code::MeshInvalidWeightsCount, location)
        }
    }
}

impl Inspect for Primitive {
    ghost checks = { λ r q p. primitive_checks r q p };

    fn inspect(
        &self,
        root: &Root,
        is_quantized: bool,
        location: &Location<'_>,
        findings: &mut Findings,
    ) -> Result<(), AllocError> {
        let at = Location::Member(location, "attributes");
        tell_sets(&self.attributes, &at, findings)?;
        tell_formats(root, is_quantized, &self.attributes, &at, findings)?;
        let accessors = root.accessors.as_slice();
        tell_mode(accessors, self, location, findings)?;
        tell_coords(root, self, location, findings)?;
        let at = Location::Member(location, "targets");
        tell_targets(accessors, self, &at, findings)
    }
}
