//! Calls on the first record of a list.
use crate::written::{write_fault, write_found};
use gltf::Document;
use gltf_extensions::{
    animation_pointer, anisotropy, basisu, clearcoat, diffuse_transmission, dispersion,
    iridescence, mesh_gpu_instancing, meshopt_compression, node_visibility,
    normal_texture_transform, occlusion_texture_transform, sheen, webp, xmp_packet, xmp_packets,
};
use gltf_guide::extensions::wetness_of;
use serde_json::Value;
use std::alloc::{AllocError, Global};

/// Writes what a call gives of the first material, texture, node, view or scene.
pub(crate) fn write(
    alloc: Global,
    call: &str,
    document: &Document,
    line: &mut String,
) -> Result<(), AllocError> {
    if let Some(material) = document.materials().next() {
        return of_material(alloc, call, &material, line);
    }
    if let Some(node) = document.nodes().next() {
        return of_node(alloc, call, &node, line);
    }
    if let Some(texture) = document.textures().next() {
        return match call {
            "basisu" => write_found(alloc, basisu(alloc, &texture), line),
            "webp" => write_found(alloc, webp(alloc, &texture), line),
            _ => line.push_str("no call"),
        };
    }
    if let Some(view) = document.views().next() {
        let found = meshopt_compression(alloc, &view);
        return write_found(alloc, found, line);
    }
    write_packet(alloc, document, line)
}

fn of_material(
    alloc: Global,
    call: &str,
    material: &gltf::Material,
    line: &mut String,
) -> Result<(), AllocError> {
    match call {
        "clearcoat" => write_found(alloc, clearcoat(alloc, material), line),
        "sheen" => write_found(alloc, sheen(alloc, material), line),
        "iridescence" => write_found(alloc, iridescence(alloc, material), line),
        "anisotropy" => write_found(alloc, anisotropy(alloc, material), line),
        "dispersion" => write_found(alloc, dispersion(alloc, material), line),
        "wetness" => write_found(alloc, wetness_of(alloc, material), line),
        "diffuse_transmission" => {
            write_found(alloc, diffuse_transmission(alloc, material), line)
        }
        "normal_transform" => match material.normal_texture() {
            Some(normal) => write_found(alloc, normal_texture_transform(alloc, &normal), line),
            None => line.push_str("no texture"),
        },
        "occlusion_transform" => match material.occlusion_texture() {
            Some(occlusion) => {
                write_found(alloc, occlusion_texture_transform(alloc, &occlusion), line)
            }
            None => line.push_str("no texture"),
        },
        _ => line.push_str("no call"),
    }
}

fn of_node(
    alloc: Global,
    call: &str,
    node: &gltf::Node,
    line: &mut String,
) -> Result<(), AllocError> {
    match call {
        "visibility" => write_found(alloc, node_visibility(alloc, node), line),
        "instancing" => write_found(alloc, mesh_gpu_instancing(alloc, node), line),
        _ => line.push_str("no call"),
    }
}

/// Writes what the channel with this target changes.
pub(crate) fn write_pointer(
    alloc: Global,
    text: &str,
    line: &mut String,
) -> Result<(), AllocError> {
    let Ok(target) = Value::from_slice(alloc, text.as_bytes()) else {
        return line.push_str("no JSON");
    };
    match animation_pointer(alloc, &target) {
        Some(Ok(pointer)) => write!(line, "{pointer:?}"),
        Some(Err(fault)) => write_fault(alloc, &fault, line),
        None => line.push_str("none"),
    }
}

/// Writes the packet of the first scene.
fn write_packet(alloc: Global, document: &Document, line: &mut String) -> Result<(), AllocError> {
    let Some(scene) = document.scenes().next() else {
        return line.push_str("no scene");
    };
    let (Some(packets), Some(named)) = (
        document.extension_value("KHR_xmp_json_ld"),
        scene.extension_value("KHR_xmp_json_ld"),
    ) else {
        return line.push_str("none");
    };
    match xmp_packet(alloc, xmp_packets(packets), named) {
        Ok(packet) => write!(line, "{packet:?}"),
        Err(fault) => write_fault(alloc, &fault, line),
    }
}
