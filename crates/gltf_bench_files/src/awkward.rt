//! What is seldom but has to be read too: a payload, short elements, a chain, broken rules.
use crate::blob::{Blob, floats};
use crate::random::Random;
use crate::scene;
use crate::text::File;
use std::alloc::{AllocError, Global};

/// A pretty text of a scene, whose one buffer is in a payload.
pub fn pretty_scene(alloc: Global, seed: u64, cubes: u32) -> Result<File, AllocError> {
    let mut file = scene::text(alloc, seed, cubes, true, scene::LAST)?;
    payload_buffer(&mut file, &scene::bytes(alloc, cubes)?)?;
    file.text(scene::END)?;
    Ok(file)
}

/// Adds a buffer whose URI has these bytes.
fn payload_buffer(file: &mut File, blob: &Blob) -> Result<(), AllocError> {
    file.text("{\"byteLength\": ")?;
    file.number(blob.bytes.len() as u64)?;
    file.text(", \"uri\": \"data:application/octet-stream;base64,")?;
    file.payload(blob)?;
    file.text("\"}")
}

/// A document of one buffer in a payload of some 2,000 bytes for each cube.
pub fn payload(alloc: Global, seed: u64, cubes: u32) -> Result<File, AllocError> {
    let floats = floats(alloc, &mut Random::new(seed))?;
    let mut blob = Blob::new(alloc);
    blob.floats(&floats, cubes.wrapping_mul(1500))?;
    let mut file = File::new(alloc, seed, false);
    file.text("{\"asset\": {\"version\": \"2.0\", \"copyright\": \"@d @d\"}, \"buffers\": [")?;
    payload_buffer(&mut file, &blob)?;
    file.text("]}")?;
    Ok(file)
}

/// A document of elements that are as short as can be, some hundred for each cube.
pub fn short_elements(alloc: Global, seed: u64, cubes: u32) -> Result<File, AllocError> {
    let mut file = File::new(alloc, seed, false);
    file.text("{\"asset\": {\"version\": \"2.0\", \"copyright\": \"@d\"}, \"nodes\": [")?;
    file.list("{}", 0, cubes.wrapping_mul(50))?;
    file.text("], \"materials\": [")?;
    file.list("{}", 0, cubes.wrapping_mul(30))?;
    file.text("], \"accessors\": [")?;
    let accessor = "{\"componentType\": 5126, \"count\": 1@d, \"type\": \"SCALAR\"}";
    file.list(accessor, 0, cubes.wrapping_mul(20))?;
    file.text("]}")?;
    Ok(file)
}

/// Nodes whose extras are lists in lists, a hundred deep.
pub fn deep_extras(alloc: Global, seed: u64, cubes: u32) -> Result<File, AllocError> {
    let mut node = String::from_str(alloc, "{\"name\": \"@d\", \"extras\": ")?;
    for _ in 0..50 {
        node.push_str("{\"in\": [1, ")?;
    }
    node.push_str("0.@d")?;
    for _ in 0..50 {
        node.push_str("]}")?;
    }
    node.push_str("}")?;
    let mut file = File::new(alloc, seed, false);
    file.text("{\"asset\": {\"version\": \"2.0\"}, \"nodes\": [")?;
    file.list(node.as_str(), 0, cubes)?;
    file.text("]}")?;
    Ok(file)
}

/// Nodes of which each one is the child of the one before it, and skins over joints among them.
pub fn chain(alloc: Global, seed: u64, nodes: u32) -> Result<File, AllocError> {
    let mut file = File::new(alloc, seed, false);
    file.text("{\"asset\": {\"version\": \"2.0\"}, \"scenes\": [{\"nodes\": [0]}], \"nodes\": [")?;
    let node = "{\"name\": \"Rope.@d\", \"children\": [@n], \"translation\": [0, 0.@d, 0]}";
    file.list(node, 0, nodes)?;
    file.text(", {\"name\": \"End.@d\"}], \"skins\": [")?;
    file.list(
        "{\"joints\": [@3, @4, @7, @9], \"skeleton\": @1}",
        0,
        nodes / 200,
    )?;
    file.text("]}")?;
    Ok(file)
}

/// Nodes each of which breaks three rules.
pub fn broken(alloc: Global, seed: u64, nodes: u32) -> Result<File, AllocError> {
    let mut file = File::new(alloc, seed, false);
    file.text("{\"asset\": {\"version\": \"2.0\"}, \"nodes\": [")?;
    let node = "{\"name\": \"Prop.@d\", \"mesh\": 1@d, \"camera\": 2@d, \"children\": [9@d]}";
    file.list(node, 0, nodes)?;
    file.text("]}")?;
    Ok(file)
}
