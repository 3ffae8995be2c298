//! Documents that break many rules.
use crate::told::tell;
use gltf::import_slice;
use gltf_case::asked::Asked;
use gltf_case::shown::Written;
use std::alloc::{AllocError, Global};

/// Writes how long the error's text is where an import breaks so many rules, and its end:
/// `broken COUNT`.
pub(crate) fn write_broken(alloc: Global, asked: Asked<'_>, line: &mut String) -> Written {
    let text = text_of(alloc, asked.number(0))?;
    let mut told = String::new(alloc);
    tell(
        alloc,
        asked,
        import_slice(alloc, text.as_bytes()),
        &mut told,
    )?;
    write_end(&told, line)
}

/// The text of a document of one scene, with so many nodes that are not there; one at least.
fn text_of(alloc: Global, count: usize) -> Result<String, AllocError> {
    let mut text = String::from_str(alloc, r#"{"asset":{"version":"2.0"},"scenes":[{"nodes":[0"#)?;
    for _ in 1..count {
        text.push_str(",0")?;
    }
    text.push_str("]}]}")?;
    Ok(text)
}

/// Writes the length of a text, and its last 60 bytes.
fn write_end(text: &str, line: &mut String) -> Written {
    let length = text.len();
    let end = text.get(length.saturating_sub(60)..).unwrap_or("");
    write!(line, "{length} bytes, and at the end {end}")
}
