//! Characters: joints, a skinned mesh with morph targets, animations.
use crate::blob::{Blob, floats};
use crate::random::Random;
use crate::text::File;
use crate::views::views;
use std::alloc::{AllocError, Global};

/// How many joints a character has.
const JOINTS: u32 = 200;

/// How many keyframes a channel has.
const KEYS: u32 = 30;

/// The first accessor of a morph target, that of the first one whose positions are sparse, and the
/// one behind them.
const TARGETS: (u32, u32, u32) = (8, 28, 38);

/// Ten joints below the first of them.
const TEN_JOINTS: &str = r#"
    {"name": "mixamorig:Spine.@d", "children": [@1, @2], "rotation": [0.0@d31, -0.0@d92, 0, 0.99@d],
      "translation": [0, 9.@d, -1.2@d], "scale": [1, 1, 1]},
    {"name": "mixamorig:Arm.@d", "children": [@3, @4], "rotation": [0.0@d31, -0.0@d92, 0, 0.99@d],
      "translation": [0, 9.@d, -1.2@d], "scale": [1, 1, 1]},
    {"name": "mixamorig:Leg.@d", "children": [@5, @6], "rotation": [0.0@d31, -0.0@d92, 0, 0.99@d],
      "translation": [0, 9.@d, -1.2@d], "scale": [1, 1, 1]},
    {"name": "mixamorig:Hand.@d", "children": [@7, @8], "rotation": [0.0@d31, -0.0@d92, 0, 0.99@d],
      "translation": [0, 9.@d, -1.2@d], "scale": [1, 1, 1]},
    {"name": "mixamorig:Foot.@d", "children": [@9], "rotation": [0.0@d31, -0.0@d92, 0, 0.99@d],
      "translation": [0, 9.@d, -1.2@d], "scale": [1, 1, 1]},
    {"name": "mixamorig:Toe.@d", "translation": [0, 9.@d, -1.2@d]},
    {"name": "mixamorig:Toe.@d", "translation": [0, 9.@d, -1.2@d]},
    {"name": "mixamorig:Thumb.@d", "translation": [0, 9.@d, -1.2@d]},
    {"name": "mixamorig:Index.@d", "translation": [0, 9.@d, -1.2@d]},
    {"name": "mixamorig:End.@d", "translation": [0, 9.@d, -1.2@d]}"#;

/// The three channels of a joint.
const CHANNELS: &str = r#"
    {"sampler": @a, "target": {"node": @j, "path": "translation"}},
    {"sampler": @b, "target": {"node": @j, "path": "rotation"}},
    {"sampler": @c, "target": {"node": @j, "path": "scale"}}"#;

/// The three samplers of a joint.
const SAMPLERS: &str = r#"
    {"input": 0, "interpolation": "LINEAR", "output": @e},
    {"input": 0, "interpolation": "LINEAR", "output": @f},
    {"input": 0, "interpolation": "STEP", "output": @g}"#;

/// The accessors of the keyframes of a joint.
const KEYFRAMES: &str = r#"
    {"bufferView": @e, "componentType": 5126, "count": 30, "type": "VEC3"},
    {"bufferView": @f, "componentType": 5126, "count": 30, "type": "VEC4"},
    {"bufferView": @g, "componentType": 5126, "count": 30, "type": "VEC3"}"#;

/// The accessors before those of the vertices.
const TIMES_AND_BINDS: &str = r#"
    {"bufferView": 0, "componentType": 5126, "count": 30, "type": "SCALAR",
      "min": [0.03125], "max": [5]},
    {"bufferView": 1, "componentType": 5126, "count": 200, "type": "MAT4"}"#;

/// What the floats of vertices are between.
const BOUNDS: &str = r#", "min": [1, 1, 1], "max": [1.9990234375, 1.9990234375, 1.9990234375]"#;

/// The mesh, without its morph targets.
const MESH: &str = r#"
  "meshes": [{"name": "Body.@d", "primitives": [{"attributes": {"JOINTS_0": 6, "NORMAL": 4,
    "POSITION": 3, "TANGENT": 38, "TEXCOORD_0": 5, "WEIGHTS_0": 7}, "indices": 2, "targets": ["#;

/// A character as a container, with so many vertices, a multiple of 20 up to 65,000, and so many
/// animations.
pub fn container(
    alloc: Global,
    seed: u64,
    vertices: u32,
    animations: u32,
) -> Result<File, AllocError> {
    let mut file = File::new(alloc, seed, false);
    file.text("{\"asset\": {\"version\": \"2.0\", \"generator\": \"FBX2glTF v0.9.@d\"},")?;
    nodes(&mut file)?;
    mesh(&mut file)?;
    for k in 0..animations {
        let comma = if k == 0 { "\"animations\": [" } else { "," };
        file.text(comma)?;
        animation(&mut file, k)?;
    }
    file.text("], \"accessors\": [")?;
    accessors(&mut file, vertices)?;
    file.list(KEYFRAMES, 0, animations.wrapping_mul(JOINTS))?;
    file.text("], \"bufferViews\": [")?;
    let lengths = lengths(alloc, vertices, animations)?;
    let length = views(&mut file, &lengths)?;
    file.text("], \"buffers\": [{\"byteLength\": ")?;
    file.number(length)?;
    file.text("}]}")?;
    file.into_container(&blob(alloc, seed, &lengths, vertices)?)
}

/// Adds the nodes, the scene and the skin.
fn nodes(file: &mut File) -> Result<(), AllocError> {
    file.text("\"scene\": 0, \"scenes\": [{\"nodes\": [200, 201]}], \"nodes\": [")?;
    file.list(TEN_JOINTS, 0, JOINTS / 10)?;
    file.text(", {\"name\": \"Armature\", \"children\": [")?;
    file.list("@0", 0, JOINTS / 10)?;
    file.text("]}, {\"name\": \"Body\", \"mesh\": 0, \"skin\": 0}], \"skins\": [{\"joints\": [")?;
    file.list("@k", 0, JOINTS)?;
    file.text("], \"skeleton\": 200, \"inverseBindMatrices\": 1}],")
}

/// Adds the mesh.
fn mesh(file: &mut File) -> Result<(), AllocError> {
    file.text(MESH)?;
    file.list("{\"POSITION\": @k}", TARGETS.0, TARGETS.2)?;
    file.text("]}], \"weights\": [")?;
    file.list("0.@d", TARGETS.0, TARGETS.2)?;
    file.text("]}],")
}

/// Adds an animation.
fn animation(file: &mut File, k: u32) -> Result<(), AllocError> {
    let first = k.wrapping_mul(JOINTS);
    let end = first.wrapping_add(JOINTS);
    file.text("{\"name\": \"Take.@d\", \"channels\": [")?;
    file.list(CHANNELS, first, end)?;
    file.text("], \"samplers\": [")?;
    file.list(SAMPLERS, first, end)?;
    file.text("]}")
}

/// Adds the accessors of the mesh.
fn accessors(file: &mut File, vertices: u32) -> Result<(), AllocError> {
    file.text(TIMES_AND_BINDS)?;
    accessor(file, 2, 5123, vertices.wrapping_mul(3), "SCALAR\"")?;
    accessor(file, 3, 5126, vertices, "VEC3\"")?;
    file.text(BOUNDS)?;
    accessor(file, 4, 5126, vertices, "VEC3\"")?;
    accessor(file, 5, 5126, vertices, "VEC2\"")?;
    accessor(file, 6, 5121, vertices, "VEC4\"")?;
    accessor(file, 7, 5123, vertices, "VEC4\", \"normalized\": true")?;
    for k in TARGETS.0..TARGETS.1 {
        accessor(file, k, 5126, vertices, "VEC3\"")?;
        file.text(BOUNDS)?;
    }
    for k in TARGETS.1..TARGETS.2 {
        sparse(file, k, vertices)?;
    }
    accessor(file, 38, 5126, vertices, "VEC4\"")?;
    accessor(file, 39, 5123, vertices / 10, "SCALAR\"")?;
    file.text("},")
}

/// Adds an accessor of the view with its index, behind another one, without its last brace.
fn accessor(
    file: &mut File,
    view: u32,
    component: u32,
    count: u32,
    kind: &str,
) -> Result<(), AllocError> {
    file.text(if view == 2 {
        ", {\"bufferView\": "
    } else {
        "}, {\"bufferView\": "
    })?;
    file.number(u64::from(view))?;
    file.text(", \"componentType\": ")?;
    file.number(u64::from(component))?;
    file.text(", \"count\": ")?;
    file.number(u64::from(count))?;
    file.text(", \"type\": \"")?;
    file.text(kind)
}

/// Adds an accessor of zeros, each tenth of which is replaced.
fn sparse(file: &mut File, view: u32, vertices: u32) -> Result<(), AllocError> {
    file.text("}, {\"componentType\": 5126, \"type\": \"VEC3\", \"count\": ")?;
    file.number(u64::from(vertices))?;
    file.text(", \"min\": [0, 0, 0], \"max\": [1.9990234375, 1.9990234375, 1.9990234375]")?;
    file.text(", \"sparse\": {\"count\": ")?;
    file.number(u64::from(vertices / 10))?;
    file.text(", \"indices\": {\"bufferView\": 39, \"componentType\": 5123}")?;
    file.text(", \"values\": {\"bufferView\": ")?;
    file.number(u64::from(view))?;
    file.text("}}")
}

/// How many bytes each view has.
fn lengths(alloc: Global, vertices: u32, animations: u32) -> Result<Vec<u32>, AllocError> {
    let mut lengths = Vec::new(alloc);
    lengths.extend_from_slice(&[120, 64 * JOINTS])?;
    for size in [6u32, 12, 12, 8, 4, 8] {
        lengths.push(size.wrapping_mul(vertices))?;
    }
    for _ in TARGETS.0..TARGETS.1 {
        lengths.push(vertices.wrapping_mul(12))?;
    }
    for _ in TARGETS.1..TARGETS.2 {
        lengths.push((vertices / 10).wrapping_mul(12))?;
    }
    lengths.push(vertices.wrapping_mul(16))?;
    lengths.push((vertices / 10).wrapping_mul(2))?;
    for _ in 0..animations.wrapping_mul(JOINTS) {
        lengths.extend_from_slice(&[360, 480, 360])?;
    }
    Ok(lengths)
}

/// The bytes of the views.
fn blob(alloc: Global, seed: u64, lengths: &[u32], vertices: u32) -> Result<Blob, AllocError> {
    let mut random = Random::new(seed ^ 0x5eed);
    let floats = floats(alloc, &mut random)?;
    let mut blob = Blob::new(alloc);
    for (k, length) in lengths.iter().enumerate() {
        match k {
            0 => times(&mut blob)?,
            2 => indices(&mut blob, vertices)?,
            6 => joints(&mut blob, &mut random, *length)?,
            39 => overridden(&mut blob, vertices)?,
            _ => blob.floats(&floats, *length)?,
        }
    }
    Ok(blob)
}

/// Adds the times of keyframes, from 1/32 to 5. Those between are others in each round.
fn times(blob: &mut Blob) -> Result<(), AllocError> {
    for k in 0..KEYS {
        let bits = 0x3d00_0000 + k * 0x0020_0000;
        if k == 0 || k == KEYS - 1 {
            blob.word(bits)?;
        } else {
            blob.loose_word(bits)?;
        }
    }
    Ok(())
}

/// Adds the indices of triangles.
fn indices(blob: &mut Blob, vertices: u32) -> Result<(), AllocError> {
    for k in 0..vertices.wrapping_mul(3) {
        blob.short(u16::try_from((k / 2) % vertices.max(1)).unwrap_or(0))?;
    }
    Ok(())
}

/// Adds indices of joints.
fn joints(blob: &mut Blob, random: &mut Random, length: u32) -> Result<(), AllocError> {
    for _ in 0..length {
        blob.bytes.push(random.byte() % 200)?;
    }
    Ok(())
}

/// Adds the index of each tenth vertex.
fn overridden(blob: &mut Blob, vertices: u32) -> Result<(), AllocError> {
    for k in 0..vertices / 10 {
        blob.short(u16::try_from(k.wrapping_mul(10)).unwrap_or(0))?;
    }
    Ok(())
}
