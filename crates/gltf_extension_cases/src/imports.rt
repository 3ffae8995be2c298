//! Files that require extensions, and their quantized attributes.
use crate::written::write_items;
use gltf::buffer::{Data, bytes_of};
use gltf::mesh::Primitive;
use gltf::{Buffer, Document, import_slice};
use gltf_extensions::supported;
use gltf_items::Item;
use gltf_options::{Options, import_slice_with};
use gltf_quantization::{
    Integers, Quantized, QuantizedAttribute, read_normals, read_positions, read_tangents,
    read_tex_coords, read_vec3s,
};
use std::alloc::{AllocError, Global};
use std::fmt::Debug;

/// Writes what an import gives of a file, with the extensions that are read (`import`) or with
/// none (`plain`), or the integers of an attribute of its first primitive.
pub(crate) fn write(
    alloc: Global,
    call: &str,
    text: &str,
    line: &mut String,
) -> Result<(), AllocError> {
    if call == "plain" {
        return match import_slice(alloc, text.as_bytes()) {
            Ok(_) => line.push_str("accepted"),
            Err(error) => write!(line, "{error}"),
        };
    }
    let options = Options {
        also_supported: supported(),
    };
    match import_slice_with(alloc, text.as_bytes(), &options) {
        Ok(imported) => match call {
            "import" => write!(line, "{:?}", imported.also_required),
            _ => write_integers(call, &imported.document, &imported.buffers, line),
        },
        Err(error) => write!(line, "{error}"),
    }
}

fn first_primitive(document: &Document) -> Option<Primitive<'_>> {
    document.meshes().nth(0)?.primitives().nth(0)
}

fn write_integers(
    name: &str,
    document: &Document,
    buffers: &[Data],
    line: &mut String,
) -> Result<(), AllocError> {
    let given = |buffer: Buffer| bytes_of(buffers, buffer);
    let Some(primitive) = first_primitive(document) else {
        return line.push_str("no primitive");
    };
    match name {
        "positions" => write_read(read_positions(&primitive, &given), line),
        "normals" => write_read(read_normals(&primitive, &given), line),
        "tangents" => write_read(read_tangents(&primitive, &given), line),
        "tex_coords" => write_read(read_tex_coords(&primitive, 0, &given), line),
        "displacements" => match primitive
            .morph_targets()
            .nth(0)
            .and_then(|it| it.positions())
        {
            Some(accessor) => {
                let attribute = QuantizedAttribute::PositionDisplacement;
                write_read(read_vec3s(attribute, accessor, &given), line)
            }
            None => line.push_str("no target"),
        },
        _ => line.push_str("no call"),
    }
}

fn write_read<A: Item + Debug, B: Item + Debug, C: Item + Debug, D: Item + Debug>(
    read: Option<Quantized<'_, A, B, C, D>>,
    line: &mut String,
) -> Result<(), AllocError> {
    let Some(quantized) = read else {
        return line.push_str("none");
    };
    write!(line, "{} ", quantized.normalized)?;
    match quantized.integers {
        Integers::I8(items) => write_items("I8", items, line),
        Integers::U8(items) => write_items("U8", items, line),
        Integers::I16(items) => write_items("I16", items, line),
        Integers::U16(items) => write_items("U16", items, line),
    }
}
