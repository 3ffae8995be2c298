//! What the objects of extensions name themselves.
use crate::refusal::Refusal;
use crate::words::Conversion;
use gltf_foreign::{Place, named_elsewhere};
use serde_json::Value;
use std::alloc::{AllocError, Global};
use std::io::Write;

/// Looks for the members `buffer`, `buffers`, `uri` and `uris` in the objects of extensions, in a
/// document that is to be written: what they name is not moved, so that the first of them is a
/// refusal. With `--keep-unknown` none is, and a line on `err` says where each one stands.
pub(crate) fn look<'w, E: Write>(
    alloc: Global,
    asked: &Conversion<'w>,
    document: &Value,
    err: &mut E,
) -> Result<(), Refusal<'w>> {
    let places = named_elsewhere(alloc, document)?;
    if asked.keep_unknown {
        for place in &places {
            // Where this write fails, the file is converted all the same.
            let _ = writeln!(err, "{}: {place}: written as it stands", asked.from);
        }
        return Ok(());
    }
    match places.first() {
        Some(place) => Err(Refusal::Elsewhere(reason(alloc, asked, place)?)),
        None => Ok(()),
    }
}

/// What names a buffer or a file, and the way out.
fn reason(alloc: Global, asked: &Conversion<'_>, place: &Place) -> Result<String, AllocError> {
    let from = asked.from;
    let name = place.extension().unwrap_or("an extension");
    format!(in alloc;
        "{from}: {place}: {name} names a buffer or a file itself, \
        which is not moved; --keep-unknown writes it as it stands"
    )
}
