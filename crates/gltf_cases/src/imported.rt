//! What a line says of an import.
use crate::told::{Told, tell};
use crate::{items, reads};
use gltf::buffer::Data;
use gltf::json::Root;
use gltf::{Document, import_slice};
use gltf_case::asked::Asked;
use gltf_case::members::write_member;
use gltf_case::shown::Written;
use std::alloc::Global;

/// Writes what a line says of the import of a file.
pub(crate) fn tell_import(
    alloc: Global,
    asked: Asked<'_>,
    bytes: &[u8],
    line: &mut String,
) -> Written {
    tell(alloc, asked, import_slice(alloc, bytes), line)
}

impl Told for (Document, Vec<Data>) {
    /// The bytes of the buffers, or a member of the records.
    ///
    /// - `check`: how much there is.
    /// - `walk TYPE INDEX STEP..`: what a walk over the items of an accessor answers.
    /// - `readers SET` and `cast READER CALL..`: what readers give, and what is cast of that.
    fn tell(&self, alloc: Global, asked: Asked<'_>, line: &mut String) -> Written {
        match asked.call {
            "check" => check(self.0.as_json(), &self.1, line),
            "walk" => items::walked(alloc, asked, &self.0, &self.1, line),
            "readers" | "cast" => reads::write(&self.0, &self.1, asked, line),
            _ if asked.words.is_empty() => self.1.tell(alloc, asked, line),
            _ => write_member(self.0.as_json(), asked.words, line),
        }
    }
}

/// Writes how many records there are, and the lengths of the buffers.
fn check(root: &Root, buffers: &[Data], line: &mut String) -> Written {
    write!(line, "ok buffers={}", buffers.len())?;
    write!(line, " accessors={}", root.accessors.len())?;
    write!(line, " meshes={}", root.meshes.len())?;
    write!(line, " nodes={}", root.nodes.len())?;
    for buffer in buffers {
        write!(line, "; {} bytes", buffer.len())?;
    }
    Ok(())
}
