//! The items of accessors: their components and sizes (glTF 2.0, section 3.6.2.2).
ghost use Rattle.std.specs.Prelude.{◌≡◌, ◌≤◌};
ghost use Rattle.gltf_handles.specs.Sizes.{code_of, item_size};
ghost use Rattle.gltf_c_bytes.specs.Shapes.{component_number, size_of_code, many_of_code};
ghost use Rattle.gltf_c_bytes.specs.Shapes.{is_matrix, is_packed};
ghost use Rattle.gltf_access.specs.Components.{layout_of, padded_size};

use gltf_access::padded_size;
use gltf_data::accessor::Dimensions;
use gltf_json::accessor::{Accessor, ComponentType, Type};
use gltf_json_record::validation::Checked;

/// The number of a type of components.
pub(crate) fn component_number(component: Checked<ComponentType>) -> u32
    ensures { result ≡ code_of component_number component }
{
    match component {
        Checked::Invalid => 0,
        Checked::Valid(ComponentType::I8) => 5120,
        Checked::Valid(ComponentType::U8) => 5121,
        Checked::Valid(ComponentType::I16) => 5122,
        Checked::Valid(ComponentType::U16) => 5123,
        Checked::Valid(ComponentType::U32) => 5125,
        Checked::Valid(ComponentType::F32) => 5126,
    }
}

/// The bytes of a component.
fn component_size(component: Checked<ComponentType>) -> usize
    ensures gives { result ≡ size_of_code component }
    ensures small { result ≤ 4 }
{
    match component {
        Checked::Invalid => 0,
        Checked::Valid(ComponentType::I8 | ComponentType::U8) => 1,
        Checked::Valid(ComponentType::I16 | ComponentType::U16) => 2,
        Checked::Valid(ComponentType::U32 | ComponentType::F32) => 4,
    }
}

/// How many components an item has.
pub(crate) fn multiplicity(shape: Checked<Type>) -> usize
    ensures { result ≡ many_of_code shape }
{
    match shape {
        Checked::Invalid => 0,
        Checked::Valid(Type::Scalar) => 1,
        Checked::Valid(Type::Vec2) => 2,
        Checked::Valid(Type::Vec3) => 3,
        Checked::Valid(Type::Vec4 | Type::Mat2) => 4,
        Checked::Valid(Type::Mat3) => 9,
        Checked::Valid(Type::Mat4) => 16,
    }
}

/// The bytes of an item, without padding.
pub(crate) fn item_size(accessor: &Accessor) -> usize
    ensures { result ≡ item_size accessor.now }
{
    component_size(accessor.component_type) * multiplicity(accessor.type_)
}

/// The bytes that an item takes up with its padding.
pub(crate) fn padded_item_size(accessor: &Accessor) -> usize
    ensures { result ≡ padded_size (layout_of accessor.now) }
{
    match accessor.type_ {
        Checked::Invalid => 0,
        Checked::Valid(shape) => padded_size(
            component_size(accessor.component_type),
            Dimensions::from(shape),
        ),
    }
}

/// Whether an item is a matrix.
pub(crate) fn is_matrix(shape: Checked<Type>) -> bool
    ensures { result ≡ is_matrix shape }
{
    matches!(shape, Checked::Valid(Type::Mat2 | Type::Mat3 | Type::Mat4))
}

/// Whether an item has no padding inside: each column of a matrix begins at a multiple of four
/// bytes (glTF 2.0, section 3.6.2.4).
pub(crate) fn is_packed(accessor: &Accessor) -> bool
    ensures { result ≡ is_packed accessor.now }
{
    match accessor.type_ {
        Checked::Valid(Type::Mat2) => component_size(accessor.component_type) != 1,
        Checked::Valid(Type::Mat3) => component_size(accessor.component_type) == 4,
        _ => true,
    }
}
