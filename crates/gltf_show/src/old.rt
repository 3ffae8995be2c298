//! Files of glTF 1.0.
use gltf::json::Value;
use std::alloc::Global;

/// Whether the bytes say that they are of glTF 1.0: a container of version 1 (its second number),
/// or JSON text whose `asset` has a `version` that begins with `1.`.
pub(crate) fn says_first_version(alloc: Global, bytes: &[u8]) -> bool {
    match bytes {
        [b'g', b'l', b'T', b'F', 1, 0, 0, 0, ..] => true,
        _ => match Value::from_slice(alloc, bytes) {
            Ok(document) => version_of(&document).is_some_and(|version| version.starts_with("1.")),
            Err(_) => false,
        },
    }
}

/// The version that a document states for itself.
fn version_of(document: &Value) -> Option<&str> {
    document.get("asset")?.get("version")?.as_str()
}
