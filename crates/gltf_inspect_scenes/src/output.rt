//! The values of samplers (glTF 2.0, section 3.11): their formats, and how many there are.
ghost use Rattle.std.specs.Prelude.{◌≡◌, ◌*◌, ◌==◌, ◌≤◌};
ghost use Rattle.std.specs.Option.{option_copied};
ghost use Rattle.gltf_inspect_scenes.specs.Outputs.{is_number, fits_path, node_morphs};
ghost use Rattle.gltf_inspect_scenes.specs.Outputs.{values_at_time, is_spline, is_weights, are_some};

use gltf_inspect_meshes::format::{is_float, width};
use gltf_inspect_meshes::target::target_count;
use gltf_json::root::Root;
use gltf_json_animation::animation::{Interpolation, Property};
use gltf_json_geometry::accessor::{Accessor, ComponentType};
use gltf_json_record::validation::Checked;
use gltf_json_scene::scene::Node;

/// Whether the format of values is one of those for a path.
pub(crate) fn fits_path(path: Checked<Property>, accessor: &Accessor) -> bool
    ensures { result ≡ fits_path path accessor.now }
{
    let width = width(accessor.type_);
    let component = accessor.component_type;
    let normalized = accessor.normalized;
    match path {
        Checked::Invalid => true,
        Checked::Valid(Property::Translation | Property::Scale) => {
            width == 3 && is_float(component, normalized)
        }
        Checked::Valid(Property::Rotation) => width == 4 && is_number(component, normalized),
        Checked::Valid(Property::MorphTargetWeights) => {
            width == 1 && is_number(component, normalized)
        }
    }
}

fn is_number(component: Checked<ComponentType>, normalized: bool) -> bool
    ensures { result ≡ is_number component normalized }
{
    match component {
        Checked::Invalid | Checked::Valid(ComponentType::U32) => false,
        Checked::Valid(ComponentType::F32) => !normalized,
        Checked::Valid(_) => normalized,
    }
}

/// Whether weights are animated.
pub fn is_weights(path: Checked<Property>) -> bool
    ensures { result ≡ is_weights path }
{
    matches!(path, Checked::Valid(Property::MorphTargetWeights))
}

/// Whether values are those of a cubic spline.
pub fn is_spline(interpolation: Checked<Interpolation>) -> bool
    ensures { result ≡ is_spline interpolation }
{
    matches!(interpolation, Checked::Valid(Interpolation::CubicSpline))
}

/// How many morph targets the mesh of a node has; `None` where the node names a mesh that is not
/// there.
pub(crate) fn node_morphs(root: &Root, node: &Node) -> Option<usize>
    ensures { result ≡ node_morphs root.now node.now }
{
    match node.mesh {
        None => Some(0),
        Some(index) => match root.meshes.as_slice().get(index.value()) {
            None => None,
            Some(mesh) => Some(target_count(mesh.primitives.as_slice())),
        },
    }
}

/// Whether there are some, or it is not known how many there are.
pub(crate) fn are_some(morphs: Option<usize>) -> bool
    ensures { result ≡ are_some morphs }
{
    match morphs {
        None => true,
        Some(count) => 0 < count,
    }
}

pub(crate) fn values_at_time(interpolation: Checked<Interpolation>) -> u64
    ensures { result ≡ values_at_time interpolation }
{
    if is_spline(interpolation) { 3 } else { 1 }
}

/// Whether a number is the product of three others, whatever the size of the product.
pub(crate) fn is_product(count: u64, times: u64, values: u64, items: u64) -> bool
    ensures { result ≡ (count == times * values * items) }
{
    if items == 0 {
        return count == 0;
    }
    match times.checked_mul(values) {
        None => false,
        Some(product) => match product.checked_mul(items) {
            None => false,
            Some(product) => count == product,
        },
    }
}
