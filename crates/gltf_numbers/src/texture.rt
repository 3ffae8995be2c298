//! The numbers of the uses of textures.

ghost use Rattle.gltf_material.specs.Textures.{transform_record};
ghost use Rattle.gltf_numbers.specs.Textures.{transform_numbers};

use crate::defaults::{TEXTURE_OFFSET, TEXTURE_ROTATION, TEXTURE_SCALE};
use crate::of_handles::Numbers;
use crate::value::{number_or, numbers_or};
use gltf_material::texture as handles;

/// The numbers by which texture coordinates are scaled, then turned, then moved (the extension
/// `KHR_texture_transform`).
#[derive(Clone, Copy, Debug)]
pub struct TextureTransform {
    /// The offset of the origin, in widths and heights of the texture: `offset`, by default 0 each.
    pub offset: [f64; 2],
    /// The angle in radians, counter-clockwise round the origin: `rotation`, by default 0.
    pub rotation: f64,
    /// The factors by which the coordinates are scaled: `scale`, by default 1 each.
    pub scale: [f64; 2],
}

impl Numbers for handles::TextureTransform<'_> {
    type Numbers = TextureTransform;

    ghost of = { λ t. transform_numbers (transform_record t) };

    fn numbers(&self) -> Option<TextureTransform> {
        Some(TextureTransform {
            offset: numbers_or(self.offset(), TEXTURE_OFFSET)?,
            rotation: number_or(self.rotation(), TEXTURE_ROTATION)?,
            scale: numbers_or(self.scale(), TEXTURE_SCALE)?,
        })
    }
}
