//! What a line says of a call that is refused.
use crate::asked::Asked;
use crate::shown::Written;
use gltf::{Error, binary, json};

/// Writes why a call is refused. The texts of I/O errors, and of faults in base64 and JSON text,
/// are claimed nowhere, so words stand for them. The fault of a container is written with its
/// numbers.
pub fn write_error(asked: Asked<'_>, error: &Error, line: &mut String) -> Written {
    match error {
        Error::Base64(_) => line.push_str("payload refused"),
        Error::Deserialize(json::Error::Text(_)) => line.push_str("no JSON"),
        Error::Binary(binary::Error::Io(_)) => line.push_str("container ends early"),
        Error::Io(_) => line.push_str("neither read nor written"),
        Error::Binary(fault) if asked.call == "glb" || asked.call == "repack" => {
            write!(line, "{fault:?}: {error}")
        }
        _ => write!(line, "{error}"),
    }
}
