//! The numbers that are meant where a member is absent, as the extensions state them.

/// `clearcoatFactor` (`KHR_materials_clearcoat`).
pub const CLEARCOAT_FACTOR: f64 = 0.0;

/// `clearcoatRoughnessFactor` (`KHR_materials_clearcoat`).
pub const CLEARCOAT_ROUGHNESS_FACTOR: f64 = 0.0;

/// `sheenColorFactor` (`KHR_materials_sheen`).
pub const SHEEN_COLOR_FACTOR: [f64; 3] = [0.0, 0.0, 0.0];

/// `sheenRoughnessFactor` (`KHR_materials_sheen`).
pub const SHEEN_ROUGHNESS_FACTOR: f64 = 0.0;

/// `iridescenceFactor` (`KHR_materials_iridescence`).
pub const IRIDESCENCE_FACTOR: f64 = 0.0;

/// `iridescenceIor` (`KHR_materials_iridescence`).
pub const IRIDESCENCE_IOR: f64 = 1.3;

/// `iridescenceThicknessMinimum` (`KHR_materials_iridescence`).
pub const IRIDESCENCE_THICKNESS_MINIMUM: f64 = 100.0;

/// `iridescenceThicknessMaximum` (`KHR_materials_iridescence`).
pub const IRIDESCENCE_THICKNESS_MAXIMUM: f64 = 400.0;

/// `anisotropyStrength` (`KHR_materials_anisotropy`).
pub const ANISOTROPY_STRENGTH: f64 = 0.0;

/// `anisotropyRotation` (`KHR_materials_anisotropy`).
pub const ANISOTROPY_ROTATION: f64 = 0.0;

/// `dispersion` (`KHR_materials_dispersion`).
pub const DISPERSION: f64 = 0.0;

/// `diffuseTransmissionFactor` (`KHR_materials_diffuse_transmission`).
pub const DIFFUSE_TRANSMISSION_FACTOR: f64 = 0.0;

/// `diffuseTransmissionColorFactor` (`KHR_materials_diffuse_transmission`).
pub const DIFFUSE_TRANSMISSION_COLOR_FACTOR: [f64; 3] = [1.0, 1.0, 1.0];

/// `scale` of a normal texture (glTF 2.0, section 5.20, "Material Normal Texture Info").
pub const NORMAL_SCALE: f64 = 1.0;

/// `offset` of texture coordinates (`KHR_texture_transform`).
pub const TEXTURE_OFFSET: [f64; 2] = [0.0, 0.0];

/// `rotation` of texture coordinates, in radians (`KHR_texture_transform`).
pub const TEXTURE_ROTATION: f64 = 0.0;

/// `scale` of texture coordinates (`KHR_texture_transform`).
pub const TEXTURE_SCALE: [f64; 2] = [1.0, 1.0];
