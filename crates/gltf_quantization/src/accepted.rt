//! Which types the extension adds to which attributes.
use gltf_handles::accessor::{DataType, Dimensions};

/// An attribute whose types the extension extends ("Extending Mesh Attributes" and "Extending Morph
/// Target Attributes").
#[derive(Clone, Copy, Debug, PartialEq, Eq)]
pub enum QuantizedAttribute {
    /// The position of a vertex: `POSITION`.
    Position,
    /// The normal of a vertex: `NORMAL`.
    Normal,
    /// The tangent of a vertex: `TANGENT`.
    Tangent,
    /// Texture coordinates of a vertex: `TEXCOORD_n`.
    TexCoord,
    /// How a morph target moves positions: its `POSITION`.
    PositionDisplacement,
    /// How a morph target changes normals: its `NORMAL`.
    NormalDisplacement,
    /// How a morph target changes tangents: its `TANGENT`.
    TangentDisplacement,
}

impl QuantizedAttribute {
    ghost use Rattle.std.specs.Prelude.{◌≡◌};
    ghost use Rattle.gltf_quantization.specs.Accepted.{accepts, has_dimensions, is_added};

    /// Whether the extension adds this type to those of the attribute: how many components an item
    /// has, their type, and whether they are normalized.
    pub fn accepts(&self, dimensions: Dimensions, data_type: DataType, normalized: bool) -> bool
        ensures { result ≡ accepts self.now dimensions data_type normalized }
    {
        self.has_dimensions(dimensions) && self.is_added(data_type, normalized)
    }

    /// Whether an item has so many components.
    fn has_dimensions(&self, dimensions: Dimensions) -> bool
        ensures { result ≡ has_dimensions self.now dimensions }
    {
        match (*self, dimensions) {
            (QuantizedAttribute::Position, Dimensions::Vec3)
            | (QuantizedAttribute::Normal, Dimensions::Vec3)
            | (QuantizedAttribute::Tangent, Dimensions::Vec4)
            | (QuantizedAttribute::TexCoord, Dimensions::Vec2)
            | (QuantizedAttribute::PositionDisplacement, Dimensions::Vec3)
            | (QuantizedAttribute::NormalDisplacement, Dimensions::Vec3)
            | (QuantizedAttribute::TangentDisplacement, Dimensions::Vec3) => true,
            _ => false,
        }
    }

    /// Whether the extension adds components of this type.
    fn is_added(&self, data_type: DataType, normalized: bool) -> bool
        ensures { result ≡ is_added self.now data_type normalized }
    {
        match (*self, data_type) {
            (QuantizedAttribute::Position, DataType::I8)
            | (QuantizedAttribute::Position, DataType::U8)
            | (QuantizedAttribute::Position, DataType::I16)
            | (QuantizedAttribute::Position, DataType::U16) => true,
            (QuantizedAttribute::TexCoord, DataType::I8)
            | (QuantizedAttribute::TexCoord, DataType::I16) => true,
            (QuantizedAttribute::TexCoord, DataType::U8)
            | (QuantizedAttribute::TexCoord, DataType::U16) => !normalized,
            (QuantizedAttribute::PositionDisplacement, DataType::I8)
            | (QuantizedAttribute::PositionDisplacement, DataType::I16) => true,
            (QuantizedAttribute::Normal, DataType::I8)
            | (QuantizedAttribute::Normal, DataType::I16)
            | (QuantizedAttribute::Tangent, DataType::I8)
            | (QuantizedAttribute::Tangent, DataType::I16)
            | (QuantizedAttribute::NormalDisplacement, DataType::I8)
            | (QuantizedAttribute::NormalDisplacement, DataType::I16)
            | (QuantizedAttribute::TangentDisplacement, DataType::I8)
            | (QuantizedAttribute::TangentDisplacement, DataType::I16) => normalized,
            _ => false,
        }
    }
}
