//! A scan whose accessors' items go on widening what the items before them span: keyframes, indices
//! and coordinates that rise, beside positions that stay within their bounds and floats that are no
//! numbers.
use crate::blob::{Blob, copies, floats};
use crate::random::Random;
use crate::text::File;
use crate::views::views;
use std::alloc::{AllocError, Global};

/// The bits of 0.0078125, the first one of what rises.
const FIRST: u32 = 0x3c00_0000;

/// The bits of 512, the last time.
const LAST: u32 = 0x4400_0000;

/// The bits of a float that is no number.
const NAN: u32 = 0x7fc0_0000;

/// How many bits lie between two numbers that follow each other.
const STEP: u32 = 256;

/// What stands before the accessors.
const BEGIN: &str = r#"{"asset": {"version": "2.0", "generator": "Scan v3.@d @d"},
  "scene": 0, "scenes": [{"nodes": [0, 1]}],
  "nodes": [{"name": "Scan.@d", "mesh": 0}, {"name": "Arm.@d", "mesh": 1}],
  "meshes": [{"name": "Points.@d", "primitives": [
    {"mode": 0, "attributes": {"POSITION": 0, "TEXCOORD_0": 1, "_GAPS": 14}, "indices": 2}]},
    {"name": "Mended.@d", "primitives": [
    {"mode": 0, "attributes": {"POSITION": 3, "TEXCOORD_0": 4, "COLOR_0": 6}, "indices": 5}]}],
  "skins": [{"joints": [0], "inverseBindMatrices": 13}],
  "animations": [{"name": "Slide.@d",
    "channels": [{"sampler": 0, "target": {"node": 0, "path": "translation"}}],
    "samplers": [{"input": 7, "output": 8}]},
    {"name": "Turn.@d",
    "channels": [{"sampler": 0, "target": {"node": 0, "path": "translation"}},
      {"sampler": 1, "target": {"node": 0, "path": "rotation"}},
      {"sampler": 2, "target": {"node": 0, "path": "scale"}}],
    "samplers": [{"input": 9, "output": 10}, {"input": 9, "output": 11},
      {"input": 9, "output": 12}]}],
  "accessors": ["#;

/// The accessors of the first mesh, and the sparse ones of the second, with so many items each.
const POINTS: &str = r#"
    {"bufferView": 0, "componentType": 5126, "count": @k, "type": "VEC3",
      "min": [1, 1, 1], "max": [1.9990234375, 1.9990234375, 1.9990234375]},
    {"bufferView": 1, "componentType": 5126, "count": @k, "type": "VEC2"},
    {"bufferView": 2, "componentType": 5125, "count": @k, "type": "SCALAR",
      "min": [0], "max": [@l]},
    {"bufferView": 0, "componentType": 5126, "count": @k, "type": "VEC3",
      "min": [1, 1, 1], "max": [1.9990234375, 1.9990234375, 1.9990234375],
      "sparse": {"count": @t, "indices": {"bufferView": 3, "componentType": 5125},
        "values": {"bufferView": 4}}},
    {"bufferView": 1, "componentType": 5126, "count": @k, "type": "VEC2",
      "sparse": {"count": @t, "indices": {"bufferView": 3, "componentType": 5125},
        "values": {"bufferView": 5}}},"#;

/// The accessor of indices of two bytes.
const SHORTS: &str = r#"
    {"bufferView": 6, "componentType": 5123, "count": @k, "type": "SCALAR",
      "min": [0], "max": [@l]},"#;

/// The accessors of colours, of keyframes, of inverse bind matrices and of what is no number.
const KEYFRAMES: &str = r#"
    {"bufferView": 7, "componentType": 5121, "normalized": true, "count": @k, "type": "VEC4",
      "min": [0, 0, 0, 0], "max": [255, 255, 255, 255]},
    {"bufferView": 8, "componentType": 5126, "count": @k, "type": "SCALAR",
      "min": [0.0078125], "max": [512]},
    {"bufferView": 10, "componentType": 5126, "count": @k, "type": "VEC3"},
    {"bufferView": 9, "componentType": 5126, "count": @k, "type": "SCALAR",
      "min": [0.0078125], "max": [512]},
    {"bufferView": 11, "componentType": 5126, "count": @k, "type": "VEC3"},
    {"bufferView": 13, "componentType": 5126, "count": @k, "type": "VEC4"},
    {"bufferView": 12, "componentType": 5126, "count": @k, "type": "VEC3"},
    {"bufferView": 14, "componentType": 5126, "count": @t, "type": "MAT4"},
    {"bufferView": 15, "componentType": 5126, "count": @k, "type": "SCALAR"}"#;

/// The scan as a container, with so many points: a multiple of 256, up to 512,000.
pub fn container(alloc: Global, seed: u64, points: u32) -> Result<File, AllocError> {
    let mut file = File::new(alloc, seed, false);
    file.text(BEGIN)?;
    file.list(POINTS, points, points.wrapping_add(1))?;
    let shorts = shorts(points);
    file.list(SHORTS, shorts, shorts.wrapping_add(1))?;
    file.list(KEYFRAMES, points, points.wrapping_add(1))?;
    file.text("], \"bufferViews\": [")?;
    let length = views(&mut file, &lengths(points))?;
    file.text("], \"buffers\": [{\"byteLength\": ")?;
    file.number(length)?;
    file.text("}]}")?;
    file.into_container(&blob(alloc, seed, points)?)
}

/// How many indices of two bytes there are.
fn shorts(points: u32) -> u32 {
    points.min(65_534)
}

/// How many bytes each view has.
fn lengths(points: u32) -> [u32; 16] {
    let all = |size: u32| points.wrapping_mul(size);
    let tenth = |size: u32| (points / 10).wrapping_mul(size);
    [
        all(12),
        all(8),
        all(4),
        tenth(4),
        tenth(12),
        tenth(8),
        shorts(points).wrapping_mul(2),
        all(4),
        all(4),
        all(4),
        all(12),
        all(12),
        all(12),
        all(16),
        tenth(64),
        all(4),
    ]
}

/// The bytes of the views.
fn blob(alloc: Global, seed: u64, points: u32) -> Result<Blob, AllocError> {
    let floats = floats(alloc, &mut Random::new(seed ^ 0x5ca9))?;
    let mut blob = Blob::new(alloc);
    blob.floats(&floats, points.wrapping_mul(12))?;
    rising(&mut blob, &floats, points, 2, &[1], STEP)?;
    indices(&mut blob, points)?;
    overridden(&mut blob, points / 10)?;
    blob.floats(&floats, (points / 10).wrapping_mul(12))?;
    rising(&mut blob, &floats, points / 10, 2, &[1], STEP * 10)?;
    short_indices(&mut blob, shorts(points))?;
    colours(&mut blob, points / 256)?;
    times(&mut blob, &floats, points)?;
    times(&mut blob, &floats, points)?;
    rising(&mut blob, &floats, points, 3, &[0], STEP)?;
    rising(&mut blob, &floats, points, 3, &[2], STEP)?;
    rising(&mut blob, &floats, points, 3, &[0, 1, 2], STEP)?;
    rising(&mut blob, &floats, points, 4, &[3], STEP)?;
    rising(&mut blob, &floats, points / 10, 16, &[12, 13, 14], STEP)?;
    gaps(&mut blob, points)?;
    Ok(blob)
}

/// Adds so many items of so many floats each, some columns of which rise.
fn rising(
    blob: &mut Blob,
    floats: &[u8],
    count: u32,
    width: usize,
    columns: &[usize],
    step: u32,
) -> Result<(), AllocError> {
    let start = blob.bytes.len();
    for _ in 0..width {
        copies(&mut blob.bytes, floats, count.wrapping_mul(4))?;
    }
    for column in columns {
        blob.rise(start, width, *column, FIRST, step);
        blob.loosen(start, width, *column)?;
    }
    Ok(())
}

/// Adds times that rise up to the last one.
fn times(blob: &mut Blob, floats: &[u8], count: u32) -> Result<(), AllocError> {
    rising(blob, floats, count.saturating_sub(1), 1, &[0], STEP)?;
    blob.word(LAST)
}

/// Adds the index of each point.
fn indices(blob: &mut Blob, count: u32) -> Result<(), AllocError> {
    let start = blob.bytes.len();
    copies(&mut blob.bytes, &[0; 256], count.wrapping_mul(4))?;
    blob.rise(start, 1, 0, 0, 1);
    Ok(())
}

/// Adds the index of each tenth point, of so many.
fn overridden(blob: &mut Blob, count: u32) -> Result<(), AllocError> {
    let start = blob.bytes.len();
    copies(&mut blob.bytes, &[0; 256], count.wrapping_mul(4))?;
    blob.rise(start, 1, 0, 0, 10);
    Ok(())
}

/// Adds the first indices, in two bytes each.
fn short_indices(blob: &mut Blob, count: u32) -> Result<(), AllocError> {
    for k in 0..count {
        blob.short(u16::try_from(k).unwrap_or(0))?;
    }
    Ok(())
}

/// Adds so many floats that are no numbers.
fn gaps(blob: &mut Blob, count: u32) -> Result<(), AllocError> {
    let start = blob.bytes.len();
    copies(&mut blob.bytes, &NAN.to_le_bytes(), count.wrapping_mul(4))?;
    blob.loosen(start, 1, 0)
}

/// Adds so many colours of each of 256 greys, from black to white.
fn colours(blob: &mut Blob, count: u32) -> Result<(), AllocError> {
    for grey in 0..=255u8 {
        copies(&mut blob.bytes, &[grey; 64], count.wrapping_mul(4))?;
    }
    Ok(())
}
