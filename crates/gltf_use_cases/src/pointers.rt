//! JSON Pointers.
use gltf::json::path::{Path, Step};
use gltf::json::{Error as JsonError, Value};
use gltf::{Error, Gltf};
use gltf_case::asked::Asked;
use gltf_case::refused::write_error;
use gltf_case::shown::{Written, show};
use std::alloc::{AllocError, Global};
use std::fmt::Display;

/// Writes the pointer of the given steps, a JSON array: a number for the element of an array, and a
/// string for an attribute.
pub(crate) fn write_pointer(alloc: Global, asked: Asked<'_>, line: &mut String) -> Written {
    match &Value::from_slice(alloc, asked.given.as_bytes()) {
        Ok(steps) => write_path(alloc, &path_of(alloc, steps)?, line),
        Err(_) => line.push_str("no JSON"),
    }
}

/// The path of these steps.
fn path_of(alloc: Global, steps: &Value) -> Result<Path, AllocError> {
    let mut path = Path::new(alloc);
    if let Some(steps) = steps.as_array() {
        for step in steps {
            push_step(alloc, &mut path, step)?;
        }
    }
    Ok(path)
}

/// Goes a step further in.
fn push_step(alloc: Global, path: &mut Path, step: &Value) -> Written {
    match (step.as_u64(), step.as_str()) {
        (Some(index), _) => path.push(Step::Item(index as usize)),
        (None, Some(name)) => path.push(Step::Attribute(String::from_str(alloc, name)?)),
        _ => Ok(()),
    }
}

/// Writes the pointer of a path.
fn write_path(alloc: Global, path: &Path, line: &mut String) -> Written {
    let pointer = path.pointer(alloc)?;
    line.push_str(pointer.as_str())
}

/// Writes the pointers of all that is wrong with a document of the given text, each with the fault.
pub(crate) fn write_faults(alloc: Global, asked: Asked<'_>, line: &mut String) -> Written {
    match &Gltf::from_slice(alloc, asked.given.as_bytes()) {
        Ok(_) => line.push_str("accepted"),
        Err(Error::Deserialize(JsonError::Record { path, fault })) => {
            write_fault(alloc, path, fault, line)
        }
        Err(Error::Validation(faults)) => {
            for (path, fault) in faults {
                write_fault(alloc, path, fault, line)?;
            }
            Ok(())
        }
        Err(error) => write_error(asked, error, line),
    }
}

/// Writes the pointer of a fault, and the fault.
fn write_fault<T: Display>(alloc: Global, path: &Path, fault: &T, line: &mut String) -> Written {
    if !line.is_empty() {
        line.push_str("; ")?;
    }
    write_path(alloc, path, line)?;
    write!(line, ": {fault}")
}
