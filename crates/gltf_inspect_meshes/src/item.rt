//! The bytes of an item (glTF 2.0, section 3.6.2.4).
ghost use Rattle.std.specs.Prelude.{◌≡◌, ◌≤◌, ◌<◌};
ghost use Rattle.gltf_inspect_meshes.specs.Facts.{or_zero};
ghost use Rattle.gltf_inspect_meshes.specs.Items.{component_size, item_size, last_size, fit};

use gltf_json_geometry::accessor::{ComponentType, Type};
use gltf_json_record::validation::Checked;

/// The bytes of a component: at least 1 and at most 4.
pub fn component_size(component: Checked<ComponentType>) -> u64
    ensures size { result ≡ component_size component }
    ensures some { 0 < result }
    ensures few { result ≤ 4 }
{
    match component {
        Checked::Invalid | Checked::Valid(ComponentType::I8 | ComponentType::U8) => 1,
        Checked::Valid(ComponentType::I16 | ComponentType::U16) => 2,
        Checked::Valid(ComponentType::U32 | ComponentType::F32) => 4,
    }
}

/// The bytes from one packed item to the next, where a component has so many.
pub fn item_size(shape: Checked<Type>, size: u64) -> u64
    requires { size ≤ 4 }
    ensures { result ≡ item_size shape size }
{
    match shape {
        Checked::Invalid => 0,
        Checked::Valid(Type::Scalar) => size,
        Checked::Valid(Type::Vec2) => 2 * size,
        Checked::Valid(Type::Vec3) => 3 * size,
        Checked::Valid(Type::Vec4) => 4 * size,
        Checked::Valid(Type::Mat2) if size == 1 => 8,
        Checked::Valid(Type::Mat2) => 4 * size,
        Checked::Valid(Type::Mat3) if size == 1 => 12,
        Checked::Valid(Type::Mat3) if size == 2 => 24,
        Checked::Valid(Type::Mat3) => 9 * size,
        Checked::Valid(Type::Mat4) => 16 * size,
    }
}

/// The bytes up to the end of an item's last component.
pub fn last_size(shape: Checked<Type>, size: u64) -> u64
    requires { size ≤ 4 }
    ensures { result ≡ last_size shape size }
{
    match shape {
        Checked::Invalid => 0,
        Checked::Valid(Type::Scalar) => size,
        Checked::Valid(Type::Vec2) => 2 * size,
        Checked::Valid(Type::Vec3) => 3 * size,
        Checked::Valid(Type::Vec4) => 4 * size,
        Checked::Valid(Type::Mat2) if size == 1 => 6,
        Checked::Valid(Type::Mat2) => 4 * size,
        Checked::Valid(Type::Mat3) if size == 1 => 11,
        Checked::Valid(Type::Mat3) if size == 2 => 22,
        Checked::Valid(Type::Mat3) => 9 * size,
        Checked::Valid(Type::Mat4) => 16 * size,
    }
}

/// Whether so many items fit into so many bytes.
pub fn fit(start: u64, stride: u64, count: u64, last: u64, len: u64) -> bool
    ensures { result ≡ fit start stride count last len }
{
    match stride.checked_mul(count.saturating_sub(1)) {
        None => false,
        Some(before) => start as u128 + before as u128 + last as u128 <= len as u128,
    }
}

/// An offset, which stands for 0 where it is absent.
pub fn or_zero(offset: Option<u64>) -> u64
    ensures { result ≡ or_zero offset }
{
    match offset {
        None => 0,
        Some(offset) => offset,
    }
}
