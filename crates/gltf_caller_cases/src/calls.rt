//! The calls by their names.
use crate::{guide, options, raw, reasons, uses};
use gltf::Gltf;
use gltf_case::asked::Asked;
use gltf_case::refused::write_error;
use gltf_case::shown::Written;
use std::alloc::Global;
use std::rt::HostRuntime;

/// Answers a case.
///
/// - `import`, `slice`, `file`, `reader`, `shelf`, `beside`: a file, as `options` says.
/// - `imported`: a file, as `guide` says.
/// - `users`, `unused` and `textures` with `+raw`: as `uses` says, of records that may break rules.
/// - all others are calls on a document of the given text.
pub(crate) fn answer(rt: &HostRuntime, asked: Asked<'_>, line: &mut String) -> Written {
    let alloc = rt.alloc();
    match asked.call {
        "beside" => options::write_beside(rt, asked, line),
        "import" | "slice" | "file" | "reader" | "shelf" => options::write(alloc, asked, line),
        "imported" => guide::write_imported(alloc, asked, line),
        _ if asked.blob == Some("raw") => of_records(alloc, asked, line),
        _ => of_text(alloc, asked, line),
    }
}

/// Answers a call on the records of the given text.
fn of_records(alloc: Global, asked: Asked<'_>, line: &mut String) -> Written {
    match &Gltf::from_slice_without_validation(alloc, asked.given.as_bytes()) {
        Ok(file) => uses::write(alloc, asked, file.document.as_json(), line),
        Err(error) => write_error(asked, error, line),
    }
}

/// Answers a call on a document of the given text.
///
/// - `raw`, `view`, `image`, `flat`, `components`: bytes, as `raw` says.
/// - `why`: why a reader read nothing, as `reasons` says.
/// - `guide`: what the code of `docs/LIBRARY.md` answers, as `guide` says.
/// - all others are as `uses` says.
fn of_text(alloc: Global, asked: Asked<'_>, line: &mut String) -> Written {
    match &Gltf::from_slice(alloc, asked.given.as_bytes()) {
        Ok(file) => match asked.call {
            "raw" | "view" | "image" | "flat" | "components" => {
                raw::write(alloc, asked, &file.document, line)
            }
            "why" => reasons::write(alloc, asked, &file.document, line),
            "guide" => guide::write(alloc, asked, &file.document, line),
            _ => uses::write(alloc, asked, file.document.as_json(), line),
        },
        Err(error) => write_error(asked, error, line),
    }
}
