//! Who uses what.
use gltf::json::Root;
use gltf::json::path::Path;
use gltf_case::asked::Asked;
use gltf_case::shown::{Written, show};
use gltf_uses::{Kind, TextureUse, references, textures, unused};
use std::alloc::Global;

/// Writes who uses what in the records of a document.
///
/// - `users LIST INDEX`: the path of each member that names an element of a list, and its pointer.
/// - `unused LIST`: the elements that no member names.
/// - `textures MATERIAL`: the uses of textures in a material.
pub(crate) fn write(alloc: Global, asked: Asked<'_>, root: &Root, line: &mut String) -> Written {
    match (asked.call, kind_of(asked.word(0))) {
        ("users", Some(kind)) => {
            let paths = references(alloc, root, kind, asked.number(1))?;
            write_paths(alloc, &paths, line)
        }
        ("unused", Some(kind)) => show(unused(alloc, root, kind), line),
        ("textures", None) => match root.materials.get(asked.number(0)) {
            Some(material) => write_uses(&textures(alloc, material)?, line),
            None => line.push_str("no material"),
        },
        _ => line.push_str("no call"),
    }
}

/// The list of a name.
fn kind_of(name: &str) -> Option<Kind> {
    for kind in &Kind::ALL {
        if kind.as_str() == name {
            return Some(*kind);
        }
    }
    None
}

/// Writes each path and its pointer.
pub(crate) fn write_paths(alloc: Global, paths: &[Path], line: &mut String) -> Written {
    if paths.is_empty() {
        return line.push_str("none");
    }
    for path in paths {
        if !line.is_empty() {
            line.push_str("; ")?;
        }
        let pointer = path.pointer(alloc)?;
        write!(line, "{path} {pointer}")?;
    }
    Ok(())
}

/// Writes each use: the member, its pointer, the texture and the set of texture coordinates.
pub(crate) fn write_uses(uses: &[TextureUse], line: &mut String) -> Written {
    if uses.is_empty() {
        return line.push_str("none");
    }
    for used in uses {
        if !line.is_empty() {
            line.push_str("; ")?;
        }
        write!(line, "{} {} ", used.slot, used.slot.pointer())?;
        write!(line, "{} {}", used.texture, used.tex_coord)?;
    }
    Ok(())
}
