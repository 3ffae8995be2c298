//! The calls by their names.
use crate::{buffers, codes, defaults, geometry, numbers, pointers, tried, walks};
use gltf::Gltf;
use gltf_case::asked::Asked;
use gltf_case::refused::write_error;
use gltf_case::shown::Written;
use std::alloc::Global;
use std::rt::HostRuntime;

/// Answers a case.
///
/// - `triangles`, `lines`, `points`, `spline`, `range`, `restart`: as `geometry` says.
/// - `name KIND`: what the code of a kind that is given is called.
/// - `default NAME`: the numbers that are meant where the member of this name is absent.
/// - `pointer`: the JSON Pointer of the given steps.
/// - `faults`: the JSON Pointers of all that is wrong with a document.
/// - `chain COUNT`, `ring COUNT`: a walk over so many nodes, as `walks` says.
/// - `beside`: each buffer of a document, whose files are in a folder.
/// - all others are calls on a document of the given text.
pub(crate) fn answer(rt: &HostRuntime, asked: Asked<'_>, line: &mut String) -> Written {
    let alloc = rt.alloc();
    match asked.call {
        "triangles" | "lines" | "points" | "spline" | "range" | "restart" => {
            geometry::write(alloc, asked, line)
        }
        "name" => codes::write_name(alloc, asked, line),
        "default" => defaults::write(asked, line),
        "pointer" => pointers::write_pointer(alloc, asked, line),
        "faults" => pointers::write_faults(alloc, asked, line),
        "chain" | "ring" => walks::write_made(alloc, asked, line),
        "beside" => buffers::write_beside(rt, asked, line),
        _ => of_text(alloc, asked, line),
    }
}

/// Answers a call on a document of the given text.
fn of_text(alloc: Global, asked: Asked<'_>, line: &mut String) -> Written {
    match &Gltf::from_slice(alloc, asked.given.as_bytes()) {
        Ok(file) => of_document(alloc, asked, file, line),
        Err(error) => write_error(asked, error, line),
    }
}

/// Answers a call on a document.
///
/// - `each NAME=DIGITS..`: each buffer's own answer, as `buffers` says.
/// - `try TYPE INDEX`: the items of an accessor, or why there are none, as `tried` says.
/// - `walk SCENE`, `below NODE`: the nodes below a scene or a node.
/// - `weights`: those of the first mesh, and of the first node.
/// - all others are parts with numbers, as `numbers` says.
fn of_document(alloc: Global, asked: Asked<'_>, file: &Gltf, line: &mut String) -> Written {
    match asked.call {
        "each" => buffers::write_each(alloc, asked, &file.document, line),
        "try" => tried::write(alloc, asked, &file.document, line),
        "walk" => walks::write_scene(alloc, asked, &file.document, line),
        "below" => walks::write_below(alloc, asked, &file.document, line),
        "weights" => numbers::write_weights(alloc, &file.document, line),
        _ => numbers::write(asked, &file.document, line),
    }
}
