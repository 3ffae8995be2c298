//! How the components of an item stand in its bytes (glTF 2.0, section 3.6.2.4, "Data Alignment").

ghost use Rattle.std.specs.Prelude.{◌≡◌, ◌≤◌};
ghost use Rattle.gltf_access.specs.Components.{columns_of, rows_of, to_four, padding_of, laid_out};
ghost use Rattle.gltf_access.specs.Components.{padded_size};

use gltf_data::accessor::Dimensions;

/// The columns of an item: those of a matrix; a scalar or a vector is one.
#[derive(Clone, Copy, Debug)]
pub struct Layout {
    /// How many there are.
    pub columns: usize,
    /// The bytes of the components of one.
    pub column: usize,
    /// The bytes of padding at the end of one.
    pub padding: usize,
}

/// How many bytes there are from an item of an accessor to the next where the view states no
/// distance: those of an item with the padding that the standard has in small matrices. Each column
/// of a matrix begins at a multiple of four bytes, so behind each column there are bytes up to such
/// a multiple (glTF 2.0, section 3.6.2.4, "Data Alignment"). That is 8 of a MAT2 of one-byte
/// components, 12 of a MAT3 of these, and 24 of a MAT3 of two-byte components; of any other type it
/// is the size of an item, `Accessor::size`. The last item of a view may end with its last
/// component: 2, 1 or 2 bytes before. A component has `component_size` bytes: 1, 2 or 4.
pub fn padded_size(component_size: usize, shape: Dimensions) -> usize
    requires { component_size ≤ 4 }
    ensures { result ≡ padded_size (laid_out component_size shape) }
{
    let layout = layout_of(component_size, shape);
    let step = layout.column + layout.padding;
    layout.columns * step
}

/// The layout of an item of components of so many bytes in such a shape.
pub(crate) fn layout_of(component_size: usize, shape: Dimensions) -> Layout
    requires { component_size ≤ 4 }
    ensures { result ≡ laid_out component_size shape }
{
    let column = rows(shape) * component_size;
    Layout {
        columns: columns(shape),
        column,
        padding: padding(shape, column),
    }
}

fn columns(shape: Dimensions) -> usize
    ensures { result ≡ columns_of shape }
{
    match shape {
        Dimensions::Scalar | Dimensions::Vec2 | Dimensions::Vec3 | Dimensions::Vec4 => 1,
        Dimensions::Mat2 => 2,
        Dimensions::Mat3 => 3,
        Dimensions::Mat4 => 4,
    }
}

fn rows(shape: Dimensions) -> usize
    ensures gives { result ≡ rows_of shape }
    ensures small { result ≤ 4 }
{
    match shape {
        Dimensions::Scalar => 1,
        Dimensions::Vec2 | Dimensions::Mat2 => 2,
        Dimensions::Vec3 | Dimensions::Mat3 => 3,
        Dimensions::Vec4 | Dimensions::Mat4 => 4,
    }
}

/// The bytes of padding at the end of a column of so many bytes.
fn padding(shape: Dimensions, column: usize) -> usize
    ensures { result ≡ padding_of shape column }
{
    match shape {
        Dimensions::Scalar | Dimensions::Vec2 | Dimensions::Vec3 | Dimensions::Vec4 => 0,
        Dimensions::Mat2 | Dimensions::Mat3 | Dimensions::Mat4 => to_four(column),
    }
}

/// How many bytes are missing to a multiple of four.
fn to_four(size: usize) -> usize
    ensures { result ≡ to_four size }
{
    (4 - size % 4) % 4
}
