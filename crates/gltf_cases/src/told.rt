//! What a line says of the answer of a call.
use gltf::Result;
use gltf_case::asked::Asked;
use gltf_case::refused::write_error;
use gltf_case::shown::Written;
use std::alloc::Global;

/// An answer that a line can describe.
pub(crate) trait Told {
    /// Writes what the case asks of it.
    fn tell(&self, alloc: Global, asked: Asked<'_>, line: &mut String) -> Written;
}

/// Writes what a line says of an answer. It is dropped here, under a type parameter and at one
/// exit.
pub(crate) fn tell<T: Told + Drop>(
    alloc: Global,
    asked: Asked<'_>,
    answer: Result<T>,
    line: &mut String,
) -> Written {
    tell_of(alloc, asked, &answer, line)
}

/// Writes what a line says of an answer, by reference.
fn tell_of<T: Told>(
    alloc: Global,
    asked: Asked<'_>,
    answer: &Result<T>,
    line: &mut String,
) -> Written {
    match answer {
        Ok(it) => it.tell(alloc, asked, line),
        Err(error) => write_error(asked, error, line),
    }
}
