//! Runs of the code of `docs/LIBRARY.md` on these crates.
use crate::buffers::buffers_of;
use crate::opened::tell;
use crate::uses::write_paths;
use gltf::Document;
use gltf::buffer::Data;
use gltf::json::material::Material;
use gltf_case::asked::Asked;
use gltf_case::bytes::write_hex;
use gltf_case::shown::Written;
use gltf_guide::bytes::raw;
use gltf_guide::documents::{left_over, open, users};
use gltf_uses::textures;
use std::alloc::Global;

/// Writes what this code answers: `guide WHAT`.
///
/// - `first +DIGITS,DIGITS..`: the first item of the first accessor.
/// - `users`: who uses the first texture, and which accessors nobody uses.
/// - `textures`: the uses of textures in the first material.
pub(crate) fn write(
    alloc: Global,
    asked: Asked<'_>,
    document: &Document,
    line: &mut String,
) -> Written {
    match asked.word(0) {
        "first" => {
            let buffers = buffers_of(alloc, asked)?;
            write_first(document, &buffers, line)
        }
        "users" => write_users(alloc, document, line),
        _ => match document.as_json().materials.get(0) {
            Some(material) => write_textures(alloc, material, line),
            None => line.push_str("no material"),
        },
    }
}

/// Writes what the import answers: `imported`.
pub(crate) fn write_imported(alloc: Global, asked: Asked<'_>, line: &mut String) -> Written {
    tell(asked, open(alloc, asked.given.as_bytes()), line)
}

fn write_first(document: &Document, buffers: &[Data], line: &mut String) -> Written {
    match document.accessors().nth(0) {
        Some(accessor) => match raw(accessor, buffers) {
            Some((bytes, _)) => write_hex(bytes.get(..accessor.size()).unwrap_or(&[]), line),
            None => line.push_str("none"),
        },
        None => line.push_str("no accessor"),
    }
}

fn write_users(alloc: Global, document: &Document, line: &mut String) -> Written {
    match document.textures().nth(0) {
        Some(texture) => {
            let users = users(alloc, document, texture.index())?;
            let left_over = left_over(alloc, document)?;
            write_paths(alloc, &users, line)?;
            write!(line, "; {left_over:?}")
        }
        None => line.push_str("no texture"),
    }
}

fn write_textures(alloc: Global, material: &Material, line: &mut String) -> Written {
    let uses = textures(alloc, material)?;
    for used in &uses {
        write!(line, "{} {} {};", used.slot, used.texture, used.tex_coord)?;
    }
    Ok(())
}
