//! What is meant where a member is absent.
use gltf_case::asked::Asked;
use gltf_case::shown::Written;
use gltf_numbers::defaults;

/// Writes the numbers that are meant where the member of a part is absent: `default PART.MEMBER`.
pub(crate) fn write(asked: Asked<'_>, line: &mut String) -> Written {
    match asked.words {
        "node.translation" => write!(line, "{:?}", defaults::TRANSLATION),
        "node.rotation" => write!(line, "{:?}", defaults::ROTATION),
        "node.scale" => write!(line, "{:?}", defaults::SCALE),
        "material.alphaCutoff" => write!(line, "{:?}", defaults::ALPHA_CUTOFF),
        "material.emissiveFactor" => write!(line, "{:?}", defaults::EMISSIVE_FACTOR),
        "pbr.baseColorFactor" => write!(line, "{:?}", defaults::BASE_COLOR_FACTOR),
        "pbr.metallicFactor" => write!(line, "{:?}", defaults::METALLIC_FACTOR),
        "pbr.roughnessFactor" => write!(line, "{:?}", defaults::ROUGHNESS_FACTOR),
        "normal.scale" => write!(line, "{:?}", defaults::NORMAL_SCALE),
        "occlusion.strength" => write!(line, "{:?}", defaults::OCCLUSION_STRENGTH),
        "ior.ior" => write!(line, "{:?}", defaults::IOR),
        "emissiveStrength.emissiveStrength" => { write!(line, "{:?}", defaults::EMISSIVE_STRENGTH) }
        "glossiness.diffuseFactor" => write!(line, "{:?}", defaults::DIFFUSE_FACTOR),
        "glossiness.specularFactor" => write!(line, "{:?}", defaults::GLOSSY_SPECULAR_FACTOR),
        "glossiness.glossinessFactor" => write!(line, "{:?}", defaults::GLOSSINESS_FACTOR),
        "transmission.transmissionFactor" => write!(line, "{:?}", defaults::TRANSMISSION_FACTOR),
        "volume.thicknessFactor" => write!(line, "{:?}", defaults::THICKNESS_FACTOR),
        "volume.attenuationColor" => write!(line, "{:?}", defaults::ATTENUATION_COLOR),
        "specular.specularFactor" => write!(line, "{:?}", defaults::SPECULAR_FACTOR),
        "specular.specularColorFactor" => write!(line, "{:?}", defaults::SPECULAR_COLOR_FACTOR),
        "texture.offset" => write!(line, "{:?}", defaults::TEXTURE_OFFSET),
        "texture.rotation" => write!(line, "{:?}", defaults::TEXTURE_ROTATION),
        "texture.scale" => write!(line, "{:?}", defaults::TEXTURE_SCALE),
        "light.color" => write!(line, "{:?}", defaults::LIGHT_COLOR),
        "light.intensity" => write!(line, "{:?}", defaults::LIGHT_INTENSITY),
        "kind.innerConeAngle" => write!(line, "{:?}", defaults::INNER_CONE_ANGLE),
        "kind.outerConeAngle" => write!(line, "{:?}", defaults::OUTER_CONE_ANGLE),
        _ => line.push_str("no member"),
    }
}
