//! The transformations of instances.
use crate::written::{write_fault, write_items};
use gltf::accessor::Iter;
use gltf::buffer::{Data, bytes_of};
use gltf::{Buffer, Document, import_slice};
use gltf_extension_records::node::MeshGpuInstancing;
use gltf_extensions::{Handle, mesh_gpu_instancing};
use gltf_instancing::{Rotations, read_rotations, read_scales, read_translations};
use gltf_items::F32;
use std::alloc::{AllocError, Global};

/// Writes the translations, the rotations and the scales of the instances of the first node.
pub(crate) fn write(alloc: Global, text: &str, line: &mut String) -> Result<(), AllocError> {
    match import_slice(alloc, text.as_bytes()) {
        Ok((document, buffers)) => write_first(alloc, &document, &buffers, line),
        Err(error) => write!(line, "{error}"),
    }
}

fn write_first(
    alloc: Global,
    document: &Document,
    buffers: &[Data],
    line: &mut String,
) -> Result<(), AllocError> {
    let Some(node) = document.nodes().next() else {
        return line.push_str("no node");
    };
    match mesh_gpu_instancing(alloc, &node) {
        Some(Ok(instancing)) => write_instances(&instancing, buffers, line),
        Some(Err(fault)) => write_fault(alloc, &fault, line),
        None => line.push_str("none"),
    }
}

fn write_instances(
    instancing: &Handle<'_, MeshGpuInstancing>,
    buffers: &[Data],
    line: &mut String,
) -> Result<(), AllocError> {
    let given = |buffer: Buffer| bytes_of(buffers, buffer);
    line.push_str("translations")?;
    write_vectors(read_translations(instancing, &given), line)?;
    line.push_str("; rotations")?;
    match read_rotations(instancing, &given) {
        Some(Rotations::I8(items)) => write_items(" I8", items, line)?,
        Some(Rotations::I16(items)) => write_items(" I16", items, line)?,
        Some(Rotations::F32(items)) => write_items(" F32", items, line)?,
        None => line.push_str(" none")?,
    }
    line.push_str("; scales")?;
    write_vectors(read_scales(instancing, &given), line)
}

fn write_vectors(vectors: Option<Iter<'_, [F32; 3]>>, line: &mut String) -> Result<(), AllocError> {
    match vectors {
        Some(items) => write_items(" F32", items, line),
        None => line.push_str(" none"),
    }
}
