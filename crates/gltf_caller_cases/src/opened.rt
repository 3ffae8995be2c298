//! What a line says of a file that was opened or imported.
use gltf::buffer::Data;
use gltf::{Document, Result};
use gltf_case::asked::Asked;
use gltf_case::bytes::write_hex;
use gltf_case::refused::write_error;
use gltf_case::shown::Written;
use gltf_options::{Imported, Opened};

/// An answer that a line can describe.
pub(crate) trait Told {
    /// Writes what is in it.
    fn tell(&self, line: &mut String) -> Written;
}

/// Writes what a line says of an answer, which is dropped here.
pub(crate) fn tell<T: Told + Drop>(
    asked: Asked<'_>,
    answer: Result<T>,
    line: &mut String,
) -> Written {
    tell_of(asked, &answer, line)
}

/// Writes what a line says of an answer, by reference.
fn tell_of<T: Told>(asked: Asked<'_>, answer: &Result<T>, line: &mut String) -> Written {
    match answer {
        Ok(it) => it.tell(line),
        Err(error) => write_error(asked, error, line),
    }
}

impl Told for Imported {
    fn tell(&self, line: &mut String) -> Written {
        write_names(&self.document, &self.also_required, line)?;
        write_buffers(&self.buffers, line)
    }
}

impl Told for (Document, Vec<Data>) {
    fn tell(&self, line: &mut String) -> Written {
        write_names(&self.0, &[], line)?;
        write_buffers(&self.1, line)
    }
}

impl Told for Opened {
    fn tell(&self, line: &mut String) -> Written {
        write_names(&self.gltf.document, &self.also_required, line)?;
        match &self.gltf.blob {
            Some(blob) => {
                line.push_str("; blob ")?;
                write_hex(blob, line)
            }
            None => Ok(()),
        }
    }
}

/// Writes the names of extensions that a document uses and requires, and those that were left out.
fn write_names(document: &Document, also_required: &[String], line: &mut String) -> Written {
    let root = document.as_json();
    write!(line, "used {:?}, ", root.extensions_used)?;
    write!(line, "required {:?}, ", root.extensions_required)?;
    write!(line, "also {also_required:?}")
}

/// Writes the bytes of buffers.
fn write_buffers(buffers: &[Data], line: &mut String) -> Written {
    for data in buffers {
        line.push_str("; ")?;
        write_hex(&data.0, line)?;
    }
    Ok(())
}
