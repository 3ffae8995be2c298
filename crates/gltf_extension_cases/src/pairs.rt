//! Which types `KHR_mesh_quantization` adds.
use gltf::accessor::{DataType, Dimensions};
use gltf_quantization::QuantizedAttribute;
use std::alloc::AllocError;

const DIMENSIONS: [Dimensions; 7] = [
    Dimensions::Scalar,
    Dimensions::Vec2,
    Dimensions::Vec3,
    Dimensions::Vec4,
    Dimensions::Mat2,
    Dimensions::Mat3,
    Dimensions::Mat4,
];

const TYPES: [DataType; 6] = [
    DataType::I8,
    DataType::U8,
    DataType::I16,
    DataType::U16,
    DataType::U32,
    DataType::F32,
];

/// Writes all types that are accepted of an attribute, out of all that there are.
pub(crate) fn write_accepted(name: &str, line: &mut String) -> Result<(), AllocError> {
    let Some(attribute) = attribute_of(name) else {
        return line.push_str("no attribute");
    };
    for dimensions in DIMENSIONS {
        for data_type in TYPES {
            for normalized in [false, true] {
                if attribute.accepts(dimensions, data_type, normalized) {
                    write!(line, " {dimensions:?} {data_type:?} {normalized};")?;
                }
            }
        }
    }
    Ok(())
}

fn attribute_of(name: &str) -> Option<QuantizedAttribute> {
    match name {
        "Position" => Some(QuantizedAttribute::Position),
        "Normal" => Some(QuantizedAttribute::Normal),
        "Tangent" => Some(QuantizedAttribute::Tangent),
        "TexCoord" => Some(QuantizedAttribute::TexCoord),
        "PositionDisplacement" => Some(QuantizedAttribute::PositionDisplacement),
        "NormalDisplacement" => Some(QuantizedAttribute::NormalDisplacement),
        "TangentDisplacement" => Some(QuantizedAttribute::TangentDisplacement),
        _ => None,
    }
}
