//! The data of the picture of a page: what the script draws, as JSON.
use crate::primitives::{Source, Thinned};
use crate::shown::{Shown, roots};
use gltf::Document;
use gltf_json::root::Root;
use gltf_json_scene::scene::Node;
use serde_json::Value;
use std::alloc::{AllocError, Global};

/// The data as JSON text: the roots of the scene; the nodes below them with their transforms as
/// they stand; the primitives of the meshes that these name, as [`Thinned`] writes them; and
/// whether they are points alone. A 0 stands for a node, and an empty list for a mesh, that is not
/// shown.
pub(crate) fn picture(
    alloc: Global,
    document: &Document,
    buffers: &[&[u8]],
) -> Result<Vec<u8>, AllocError> {
    let mut data = Vec::new(alloc);
    add_picture(alloc, document, buffers, &mut data)?;
    Ok(data)
}

fn add_picture(
    alloc: Global,
    document: &Document,
    buffers: &[&[u8]],
    data: &mut Vec<u8>,
) -> Result<(), AllocError> {
    let root = document.as_json();
    let roots = roots(alloc, root)?;
    let shown = Shown::below(alloc, root, roots.as_slice())?;
    add(data, "{\"roots\":[")?;
    for (i, node) in roots.iter().enumerate() {
        add_comma(i, data)?;
        add_number(*node as u64, data)?;
    }
    add(data, "],\n\"nodes\":[")?;
    add_nodes(alloc, root, &shown, data)?;
    add(data, "],\n\"meshes\":[")?;
    add_meshes(&Source { document, buffers }, &shown, data)
}

fn add_nodes(
    alloc: Global,
    root: &Root,
    shown: &Shown,
    data: &mut Vec<u8>,
) -> Result<(), AllocError> {
    for (i, node) in root.nodes.iter().enumerate() {
        add_comma(i, data)?;
        if shown.has_node(i) {
            add_node(alloc, node, data)?;
        } else {
            add(data, "0")?;
        }
    }
    Ok(())
}

/// Adds the meshes, and what is behind them.
fn add_meshes(
    source: &Source<'_, '_>,
    shown: &Shown,
    data: &mut Vec<u8>,
) -> Result<(), AllocError> {
    let mut thinned = Thinned::of(source, shown);
    for (i, mesh) in source.document.as_json().meshes.iter().enumerate() {
        add_comma(i, data)?;
        add(data, "[")?;
        if shown.has_mesh(i) {
            for (j, primitive) in mesh.primitives.iter().enumerate() {
                add_comma(j, data)?;
                thinned.add_primitive(source, i, j, primitive, data)?;
            }
        }
        add(data, "]")?;
    }
    let is_points = if thinned.is_points() { "true" } else { "false" };
    add(data, "],\n\"isPoints\":")?;
    add(data, is_points)?;
    add(data, "}")
}

/// Adds a comma in front of every element but the first.
pub(crate) fn add_comma(i: usize, data: &mut Vec<u8>) -> Result<(), AllocError> {
    if i > 0 {
        data.push(b',')?;
    }
    Ok(())
}

pub(crate) fn add(data: &mut Vec<u8>, text: &str) -> Result<(), AllocError> {
    data.extend_from_slice(text.as_bytes())?;
    Ok(())
}

/// Adds a number in decimal digits.
pub(crate) fn add_number(n: u64, data: &mut Vec<u8>) -> Result<(), AllocError> {
    let mut digits = [b'0'; 20];
    let mut left = n;
    for i in 0..20 {
        digits[19 - i] = b'0' + (left % 10) as u8;
        left /= 10;
    }
    let mut is_leading = true;
    for (i, digit) in digits.iter().enumerate() {
        if *digit != b'0' || i == 19 {
            is_leading = false;
        }
        if !is_leading {
            data.push(*digit)?;
        }
    }
    Ok(())
}

fn add_node(alloc: Global, node: &Node, data: &mut Vec<u8>) -> Result<(), AllocError> {
    add(data, "{\"children\":[")?;
    for (i, child) in node.children.iter().enumerate() {
        add_comma(i, data)?;
        add_number(child.value() as u64, data)?;
    }
    add(data, "]")?;
    if let Some(mesh) = node.mesh {
        add(data, ",\"mesh\":")?;
        add_number(mesh.value() as u64, data)?;
    }
    add_value(alloc, ",\"matrix\":", &node.matrix, data)?;
    add_value(alloc, ",\"translation\":", &node.translation, data)?;
    add_value(alloc, ",\"rotation\":", &node.rotation, data)?;
    add_value(alloc, ",\"scale\":", &node.scale, data)?;
    add(data, "}")
}

fn add_value(
    alloc: Global,
    name: &str,
    value: &Option<Value>,
    data: &mut Vec<u8>,
) -> Result<(), AllocError> {
    if let Some(value) = value {
        add(data, name)?;
        let text = value.to_string(alloc)?;
        add(data, text.as_str())?;
    }
    Ok(())
}
