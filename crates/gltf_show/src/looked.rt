//! Files that are looked at, and what the messages about them need.
use crate::kept::{Kept, text_of};
use gltf::{Error, Name};
use gltf_findings::code::Code;
use gltf_findings::report::Report;
use gltf_inspect_files::lent::{Lent, inspect_lent_from, inspect_lent_slice};
use gltf_shared::AskUpTo;
use serde_json::Value;
use std::alloc::{AllocError, Global};

/// How many bytes of items are looked at for each byte of a file and of its buffers, so that the time
/// is in proportion to these: the accessors of a file seldom have the same bytes twice.
const SHARE: u32 = 8;

/// A file that was looked at.
#[derive(Drop)]
pub(crate) struct Looked {
    /// What is found in it.
    pub(crate) file: Lent,
    /// Its JSON value, where a part of that is of the wrong kind and the text is not too long.
    pub(crate) value: Option<Value>,
}

/// Looks at a file, and at those that its buffers name.
pub(crate) fn look_at<S: AskUpTo + Drop>(
    alloc: Global,
    source: &mut Kept<S>,
    path: &str,
) -> Result<Looked, Error> {
    let file = inspect_lent_from(alloc, source, path, Some(SHARE))?;
    let value = value_for(alloc, &file.report, source.part())?;
    Ok(Looked { file, value })
}

/// Looks at a file alone.
pub(crate) fn look_at_alone<S: AskUpTo>(
    alloc: Global,
    source: &mut S,
    path: &str,
) -> Result<Looked, Error> {
    let bytes = source.ask_up_to(alloc, Name::File(path), None)?;
    let file = inspect_lent_slice(alloc, &bytes, Some(SHARE))?;
    let value = value_for(alloc, &file.report, Ok(text_of(&bytes)))?;
    Ok(Looked { file, value })
}

fn is_of_wrong_kind(report: &Report) -> bool {
    for finding in report.findings() {
        if matches!(finding.1, Code::TypeMismatch | Code::ArrayTypeMismatch) {
            return true;
        }
    }
    false
}

/// The value of a JSON text that is at hand, where the report needs it. Fails where there is no
/// memory for it, or was none to keep the text.
fn value_for(
    alloc: Global,
    report: &Report,
    text: Result<Option<&[u8]>, AllocError>,
) -> Result<Option<Value>, AllocError> {
    if !is_of_wrong_kind(report) {
        return Ok(None);
    }
    let Some(text) = text? else {
        return Ok(None);
    };
    match Value::from_slice(alloc, text) {
        Ok(value) => Ok(Some(value)),
        Err(fault) if fault.is_memory() => Err(AllocError),
        Err(_) => Ok(None),
    }
}
