//! The numbers that are meant where a member is absent, as the standard and the extensions state
//! them.

/// `translation` of a node, in metres (glTF 2.0, section 5.25, "Node").
pub const TRANSLATION: [f64; 3] = [0.0, 0.0, 0.0];

/// `rotation` of a node, as a unit quaternion x, y, z, w (glTF 2.0, section 5.25, "Node").
pub const ROTATION: [f64; 4] = [0.0, 0.0, 0.0, 1.0];

/// `scale` of a node (glTF 2.0, section 5.25, "Node").
pub const SCALE: [f64; 3] = [1.0, 1.0, 1.0];

/// `alphaCutoff` of a material (glTF 2.0, section 5.19, "Material").
pub const ALPHA_CUTOFF: f64 = 0.5;

/// `emissiveFactor` of a material (glTF 2.0, section 5.19, "Material").
pub const EMISSIVE_FACTOR: [f64; 3] = [0.0, 0.0, 0.0];

/// `baseColorFactor` (glTF 2.0, section 5.22, "Material PBR Metallic Roughness").
pub const BASE_COLOR_FACTOR: [f64; 4] = [1.0, 1.0, 1.0, 1.0];

/// `metallicFactor` (glTF 2.0, section 5.22, "Material PBR Metallic Roughness").
pub const METALLIC_FACTOR: f64 = 1.0;

/// `roughnessFactor` (glTF 2.0, section 5.22, "Material PBR Metallic Roughness").
pub const ROUGHNESS_FACTOR: f64 = 1.0;

/// `scale` of a normal texture (glTF 2.0, section 5.20, "Material Normal Texture Info").
pub const NORMAL_SCALE: f64 = 1.0;

/// `strength` of an occlusion texture (glTF 2.0, section 5.21, "Material Occlusion Texture Info").
pub const OCCLUSION_STRENGTH: f64 = 1.0;

/// `ior` of a material (`KHR_materials_ior`).
pub const IOR: f64 = 1.5;

/// `emissiveStrength` of a material (`KHR_materials_emissive_strength`).
pub const EMISSIVE_STRENGTH: f64 = 1.0;

/// `diffuseFactor` (`KHR_materials_pbrSpecularGlossiness`).
pub const DIFFUSE_FACTOR: [f64; 4] = [1.0, 1.0, 1.0, 1.0];

/// `specularFactor` beside a diffuse colour (`KHR_materials_pbrSpecularGlossiness`).
pub const GLOSSY_SPECULAR_FACTOR: [f64; 3] = [1.0, 1.0, 1.0];

/// `glossinessFactor` (`KHR_materials_pbrSpecularGlossiness`).
pub const GLOSSINESS_FACTOR: f64 = 1.0;

/// `transmissionFactor` (`KHR_materials_transmission`).
pub const TRANSMISSION_FACTOR: f64 = 0.0;

/// `thicknessFactor` (`KHR_materials_volume`).
pub const THICKNESS_FACTOR: f64 = 0.0;

/// `attenuationColor` (`KHR_materials_volume`).
pub const ATTENUATION_COLOR: [f64; 3] = [1.0, 1.0, 1.0];

/// `specularFactor` (`KHR_materials_specular`).
pub const SPECULAR_FACTOR: f64 = 1.0;

/// `specularColorFactor` (`KHR_materials_specular`).
pub const SPECULAR_COLOR_FACTOR: [f64; 3] = [1.0, 1.0, 1.0];

/// `offset` of texture coordinates (`KHR_texture_transform`).
pub const TEXTURE_OFFSET: [f64; 2] = [0.0, 0.0];

/// `rotation` of texture coordinates, in radians (`KHR_texture_transform`).
pub const TEXTURE_ROTATION: f64 = 0.0;

/// `scale` of texture coordinates (`KHR_texture_transform`).
pub const TEXTURE_SCALE: [f64; 2] = [1.0, 1.0];

/// `color` of a light: white (`KHR_lights_punctual`, "Light Shared Properties").
pub const LIGHT_COLOR: [f64; 3] = [1.0, 1.0, 1.0];

/// `intensity` of a light, in candela or lux (`KHR_lights_punctual`, "Light Shared Properties").
pub const LIGHT_INTENSITY: f64 = 1.0;

/// `innerConeAngle` of a spot, in radians (`KHR_lights_punctual`, "Spot").
pub const INNER_CONE_ANGLE: f64 = 0.0;

/// `outerConeAngle` of a spot, in radians: a quarter of pi, as the nearest double
/// (`KHR_lights_punctual`, "Spot").
pub const OUTER_CONE_ANGLE: f64 = 0.7853981633974483;
