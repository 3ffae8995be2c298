//! Scenes: nodes, each tenth of them with a cube, materials and textures.
use crate::blob::Blob;
use crate::records::{ACCESSORS, ASSET, IMAGE, MATERIAL, MESH, NODES, SAMPLERS, TEXTURE, VIEWS};
use crate::text::File;
use std::alloc::{AllocError, Global};

/// How many materials, textures and images a scene of so many cubes has.
pub fn looks(cubes: u32) -> u32 {
    cubes.min(64)
}

/// How many bytes so many cubes have.
pub fn length(cubes: u32) -> u32 {
    cubes.wrapping_mul(840)
}

/// A last node without faults.
pub const LAST: &str = "{\"name\": \"Camera_Target.@d\"}";

/// What stands behind the list of buffers.
pub const END: &str = "]\n}\n";

/// The text of a scene of ten nodes for each cube, up to what its list of buffers holds. `node` is
/// a last node, which is no child of another one.
pub fn text(
    alloc: Global,
    seed: u64,
    cubes: u32,
    is_pretty: bool,
    node: &str,
) -> Result<File, AllocError> {
    up_to_buffers(File::new(alloc, seed, is_pretty), cubes, node, 0)
}

/// The same of a scene with a second buffer, which has so many bytes. A last view has all of them.
pub fn text_of_two(
    alloc: Global,
    seed: u64,
    cubes: u32,
    node: &str,
    more: u32,
) -> Result<File, AllocError> {
    up_to_buffers(File::new(alloc, seed, false), cubes, node, more)
}

/// Adds all up to what the list of buffers holds. A second buffer has so many bytes; with none
/// there is no view of it.
fn up_to_buffers(mut file: File, cubes: u32, node: &str, more: u32) -> Result<File, AllocError> {
    file.text(ASSET)?;
    nodes(&mut file, cubes, node)?;
    meshes(&mut file, cubes)?;
    views(&mut file, cubes, more)?;
    materials(&mut file, looks(cubes))?;
    file.text("\"buffers\": [")?;
    Ok(file)
}

/// Adds the scenes and the nodes.
fn nodes(file: &mut File, cubes: u32, node: &str) -> Result<(), AllocError> {
    file.text("  \"scenes\": [{\"name\": \"Scene.@d\", \"nodes\": [")?;
    file.list("@0", 0, cubes.wrapping_add(1))?;
    file.text("]}],\n  \"nodes\": [")?;
    file.list(NODES, 0, cubes)?;
    file.text(",")?;
    file.text(node)?;
    file.text("],\n")
}

/// Adds the meshes with their accessors.
fn meshes(file: &mut File, cubes: u32) -> Result<(), AllocError> {
    file.text("  \"meshes\": [")?;
    file.list(MESH, 0, cubes)?;
    file.text("],\n  \"accessors\": [")?;
    file.list(ACCESSORS, 0, cubes)?;
    file.text("],\n")
}

/// Adds the views of the meshes, and one of a second buffer that has so many bytes, if it has some.
fn views(file: &mut File, cubes: u32, more: u32) -> Result<(), AllocError> {
    file.text("  \"bufferViews\": [")?;
    file.list(VIEWS, 0, cubes)?;
    if more > 0 {
        file.text(", {\"buffer\": 1, \"byteLength\": ")?;
        file.number(u64::from(more))?;
        file.text("}")?;
    }
    file.text("],\n")
}

/// Adds the materials with their textures and images.
fn materials(file: &mut File, count: u32) -> Result<(), AllocError> {
    file.text("  \"materials\": [")?;
    file.list(MATERIAL, 0, count)?;
    file.text("],\n  \"textures\": [")?;
    file.list(TEXTURE, 0, count)?;
    file.text("],\n  \"images\": [")?;
    file.list(IMAGE, 0, count)?;
    file.text("],\n")?;
    file.text(SAMPLERS)
}

/// A scene as a container.
pub fn container(alloc: Global, seed: u64, cubes: u32, node: &str) -> Result<File, AllocError> {
    let mut file = text(alloc, seed, cubes, false, node)?;
    file.text("{\"byteLength\": ")?;
    file.number(u64::from(length(cubes)))?;
    file.text("}")?;
    file.text(END)?;
    file.into_container(&bytes(alloc, cubes)?)
}

/// The bytes of so many cubes.
pub fn bytes(alloc: Global, cubes: u32) -> Result<Blob, AllocError> {
    let mut blob = Blob::new(alloc);
    for _ in 0..cubes {
        cube(&mut blob)?;
    }
    Ok(blob)
}

/// Adds a cube: 24 vertices of position, normal and texture coordinates, 36 indices.
fn cube(blob: &mut Blob) -> Result<(), AllocError> {
    for face in 0..6u16 {
        for corner in 0..4u16 {
            vertex(blob, face, corner)?;
        }
    }
    for face in 0..6u16 {
        for corner in [0u16, 1, 2, 2, 1, 3] {
            blob.short(face.wrapping_mul(4).wrapping_add(corner))?;
        }
    }
    Ok(())
}

/// The bits of 1.
const ONE: u32 = 0x3f80_0000;

/// The bits of 0.4999847412109375.
const HALF: u32 = 0x3eff_fe00;

/// The bit of a float's sign.
const MINUS: u32 = 0x8000_0000;

/// Adds a corner of a face of a cube.
fn vertex(blob: &mut Blob, face: u16, corner: u16) -> Result<(), AllocError> {
    let axis = face % 3;
    let side = face / 3;
    let u = corner % 2;
    let v = corner / 2;
    // The first corner of the first face has the least of all numbers, and the last corner of the
    // face on the other side the greatest.
    let is_bound = axis == 0 && side == u && side == v;
    for k in 0..3u16 {
        let is_high = if k == axis {
            side
        } else if k == (axis + 1) % 3 {
            u
        } else {
            v
        } == 1;
        add(blob, HALF, is_bound, if is_high { 0 } else { MINUS })?;
    }
    for k in 0..3u16 {
        let sign = if side == 0 { MINUS } else { 0 };
        if k == axis {
            blob.loose_word(ONE | sign)?;
        } else {
            blob.word(sign)?;
        }
    }
    for is_far in [u == 1, v == 1] {
        if is_far {
            add(blob, ONE, is_bound, 0)?;
        } else {
            blob.word(0)?;
        }
    }
    Ok(())
}

/// Adds a float that is a bound, or one a little nearer to zero, which is another in each round.
fn add(blob: &mut Blob, bits: u32, is_bound: bool, sign: u32) -> Result<(), AllocError> {
    if is_bound {
        blob.word(bits | sign)
    } else {
        blob.loose_word(bits.wrapping_sub(0x100) | sign)
    }
}
