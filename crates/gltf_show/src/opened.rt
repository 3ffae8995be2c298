//! Documents that are opened with what the flags of a call say.
use crate::kept::text_of;
use crate::taken::Taken;
use gltf::buffer::Data;
use gltf::{Document, Error, Name};
use gltf_report::printable::push_printable;
use gltf_shared::AskUpTo;
use gltf_shared_files::{SharedImport, import_shared, import_shared_with};
use gltf_validation::root::is_supported;
use serde_json::Value;
use std::alloc::Global;
use std::io::Write;
use std::rc::Rc;

/// The document of a file and the bytes of its buffers. Where the flags say nothing, it is the one
/// that the loader makes by itself.
pub(crate) fn open<S: AskUpTo>(
    alloc: Global,
    source: &mut S,
    path: &str,
    taken: Taken<'_>,
) -> Result<(Document, Vec<Rc<Data>>), Error> {
    if taken.is_nothing() {
        return import_shared(alloc, source, path);
    }
    let names = taken.names(alloc)?;
    let options = taken.options(names.as_slice());
    let SharedImport {
        document,
        buffers,
        ..
    } = import_shared_with(alloc, source, path, &options)?;
    Ok((document, buffers))
}

/// Writes the flag by which a file is taken that requires extensions which the loader does not
/// support, where the file can be read once more.
pub(crate) fn tell_flag<S: AskUpTo, E: Write>(
    alloc: Global,
    source: &mut S,
    path: &str,
    err: &mut E,
) {
    let Ok(bytes) = source.ask_up_to(alloc, Name::File(path), None) else {
        return;
    };
    if let Some(names) = text_of(&bytes).and_then(|text| required_in(alloc, text)) {
        // Where this write fails, the status alone says that the file is refused.
        let _ = writeln!(
            err,
            "--extensions={names} takes this file; what they say is not read"
        );
    }
}

/// The names of the extensions that a document requires and the loader does not support, with
/// commas between them, on one line; `None` where there are none, or no memory for them.
fn required_in(alloc: Global, text: &[u8]) -> Option<String> {
    let document = Value::from_slice(alloc, text).ok()?;
    let required = document.get("extensionsRequired")?.as_array()?;
    let mut names = String::new(alloc);
    for name in required.iter().filter_map(Value::as_str) {
        if is_supported(name) {
            continue;
        }
        if !names.is_empty() {
            names.push(',').ok()?;
        }
        push_printable(name, &mut names).ok()?;
    }
    if names.is_empty() { None } else { Some(names) }
}
