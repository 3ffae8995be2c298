//! Why a reader read nothing.

ghost use Rattle.std.specs.Prelude.{◌≡◌};
ghost use Rattle.gltf_access.specs.Texts.{component_text, shape_text};

use gltf_data::accessor::{DataType, Dimensions, Unreadable};
use std::fmt;

/// Why nothing is read of what the standard has for it: the first of these that is so. Only of a
/// morph target `NoReader` comes before `Absent`: its record keeps no attribute that no reader
/// reads.
#[derive(Clone, Copy, Debug, PartialEq, Eq)]
pub enum NotRead {
    /// The record has no such member.
    Absent,
    /// No reader reads this attribute: it is one of the application (glTF 2.0, section 3.7.2.1,
    /// "Meshes: Overview"), or of a morph target another than `POSITION`, `NORMAL` and `TANGENT`
    /// (section 3.7.2.2, "Morph Targets").
    NoReader,
    /// The standard has no items of this type for it (sections 3.7.2.1, "Meshes: Overview", 3.7.3.1,
    /// "Overview" of skins, and 3.11, "Animations").
    Type {
        /// The type of each component of an item of the accessor.
        component: DataType,
        /// The components of an item.
        dimensions: Dimensions,
    },
    /// The accessor cannot be read as items of the reader's type.
    Unreadable(Unreadable),
}

/// The name of a type of components, as the standard writes it.
fn component_name(component: DataType) -> &'static str
    ensures { result.now ≡ component_text component }
{
    match component {
        DataType::I8 => "BYTE",
        DataType::U8 => "UNSIGNED_BYTE",
        DataType::I16 => "SHORT",
        DataType::U16 => "UNSIGNED_SHORT",
        DataType::U32 => "UNSIGNED_INT",
        DataType::F32 => "FLOAT",
    }
}

/// The name of the dimensions of an item, as `type` has it.
fn shape_name(dimensions: Dimensions) -> &'static str
    ensures { result.now ≡ shape_text dimensions }
{
    match dimensions {
        Dimensions::Scalar => "SCALAR",
        Dimensions::Vec2 => "VEC2",
        Dimensions::Vec3 => "VEC3",
        Dimensions::Vec4 => "VEC4",
        Dimensions::Mat2 => "MAT2",
        Dimensions::Mat3 => "MAT3",
        Dimensions::Mat4 => "MAT4",
    }
}

impl fmt::Display for NotRead {
    ghost use Rattle.std.specs.Prelude.{Some};
    ghost use Rattle.gltf_access.specs.Texts.{not_read_text};

    ghost output = { λ reason. Some (not_read_text reason) };

    fn fmt<W: fmt::Write>(&self, f: &mut fmt::Formatter<W>) -> fmt::Result {
        match self {
            NotRead::Absent => write!(f, "there is no such member"),
            NotRead::NoReader => write!(f, "no reader reads this attribute"),
            NotRead::Type {
                component,
                dimensions,
            } => {
                let (shape, component) = (shape_name(*dimensions), component_name(*component));
                write!(
                    f,
                    "the standard has no items of type {shape} of {component} here"
                )
            }
            NotRead::Unreadable(reason) => write!(f, "{reason}"),
        }
    }
}

impl std::error::Error for NotRead {}
