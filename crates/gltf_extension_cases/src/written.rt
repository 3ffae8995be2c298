//! What calls give, as text.
ghost use Rattle.std.specs.Iterator.{IsFinite};

use gltf::json::path::Path;
use gltf_extensions::{ExtensionFault, Handle};
use gltf_validation::validate::Validate;
use std::alloc::{AllocError, Global};
use std::fmt::Debug;

/// Writes the record of an extension, why it was not read, or that there is none.
pub(crate) fn write_found<R: Validate + Copy + Debug>(
    alloc: Global,
    found: Option<Result<Handle<'_, R>, ExtensionFault>>,
    line: &mut String,
) -> Result<(), AllocError> {
    match found {
        Some(Ok(handle)) => write!(line, "{:?}", handle.as_record()),
        Some(Err(fault)) => write_fault(alloc, &fault, line),
        None => line.push_str("none"),
    }
}

/// Writes the JSON Pointer of each fault, and what is wrong there.
pub(crate) fn write_fault(
    alloc: Global,
    fault: &ExtensionFault,
    line: &mut String,
) -> Result<(), AllocError> {
    match fault {
        ExtensionFault::Record { path, fault } => {
            write_pointer(alloc, path, line)?;
            write!(line, ": {fault}")
        }
        ExtensionFault::Rules(faults) => {
            for (path, error) in faults {
                write_pointer(alloc, path, line)?;
                write!(line, ": {error};")?;
            }
            Ok(())
        }
        ExtensionFault::Memory => line.push_str("out of memory"),
    }
}

fn write_pointer(alloc: Global, path: &Path, line: &mut String) -> Result<(), AllocError> {
    let pointer = path.pointer(alloc)?;
    line.push_str(pointer.as_str())
}

/// Writes a name and items after it.
pub(crate) fn write_items<I: Iterator + Drop>(
    name: &str,
    items: I,
    line: &mut String,
) -> Result<(), AllocError>
where
    I::Item: Debug + Drop,
    requires can { I.can_next items }
    requires ends { IsFinite (I.remaining items) }
{
    line.push_str(name)?;
    for item in items {
        write!(line, " {item:?}")?;
    }
    Ok(())
}
