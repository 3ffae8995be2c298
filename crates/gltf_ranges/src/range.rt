//! Where the items of an accessor stand and what they are made of, as numbers in an order.
ghost use Rattle.std.specs.Prelude.{◌≡◌};
ghost use Rattle.gltf_ranges.specs.Ranges.{component_number, shape_number, alone, plain, range_of};

use gltf_json_geometry::accessor::{Accessor, ComponentType, Type};
use gltf_json_record::validation::Checked;

/// The range of an accessor. Where its items come from a view alone, `own` is 0; else it is 1, and
/// `view` is the index of the accessor, so that no other one has this range.
#[derive(Clone, Copy, PartialEq, Eq, PartialOrd, Ord)]
pub(crate) struct Range {
    own: u8,
    view: usize,
    offset: u64,
    count: u64,
    component: u8,
    shape: u8,
}

fn component_number(component: Checked<ComponentType>) -> u8
    ensures { result ≡ component_number component }
{
    match component {
        Checked::Invalid => 0,
        Checked::Valid(component) => match component {
            ComponentType::I8 => 1,
            ComponentType::U8 => 2,
            ComponentType::I16 => 3,
            ComponentType::U16 => 4,
            ComponentType::U32 => 5,
            ComponentType::F32 => 6,
        },
    }
}

fn shape_number(shape: Checked<Type>) -> u8
    ensures { result ≡ shape_number shape }
{
    match shape {
        Checked::Invalid => 0,
        Checked::Valid(shape) => match shape {
            Type::Scalar => 1,
            Type::Vec2 => 2,
            Type::Vec3 => 3,
            Type::Vec4 => 4,
            Type::Mat2 => 5,
            Type::Mat3 => 6,
            Type::Mat4 => 7,
        },
    }
}

/// The range of an accessor that is like no other one.
fn alone(index: usize) -> Range
    ensures { result ≡ alone index }
{
    Range {
        own: 1,
        view: index,
        offset: 0,
        count: 0,
        component: 0,
        shape: 0,
    }
}

/// The range of an accessor whose items come from a view alone.
fn plain(view: usize, accessor: &Accessor) -> Range
    ensures { result ≡ plain view accessor.now }
{
    Range {
        own: 0,
        view,
        offset: accessor.byte_offset.unwrap_or(0),
        count: accessor.count,
        component: component_number(accessor.component_type),
        shape: shape_number(accessor.type_),
    }
}

/// The range of the accessor at an index.
pub(crate) fn range_of(index: usize, accessor: &Accessor) -> Range
    ensures { result ≡ range_of index accessor.now }
{
    match accessor.buffer_view {
        None => alone(index),
        Some(view) => {
            if accessor.sparse.is_some() {
                alone(index)
            } else {
                plain(view.value(), accessor)
            }
        }
    }
}
