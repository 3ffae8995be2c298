//! The names of codes.
use gltf::json::validation::{Checked, Code};
use gltf::json::{Value, accessor, animation, buffer, camera, extensions, material, mesh, texture};
use gltf_case::asked::Asked;
use gltf_case::shown::Written;
use std::alloc::Global;

/// Writes what a code of a type is called, where it is in the table of that type.
macro_rules! write_name_as {
    ($type:ty, $code:ident, $line:ident) => {
        match <$type as Code>::read($code) {
            Some(Checked::Valid(it)) => $line.push_str(it.as_str()),
            Some(Checked::Invalid) => $line.push_str("in no table"),
            None => $line.push_str("no code"),
        }
    };
}

/// Writes what the given code of a kind is called: `name KIND`.
pub(crate) fn write_name(alloc: Global, asked: Asked<'_>, line: &mut String) -> Written {
    match &Value::from_slice(alloc, asked.given.as_bytes()) {
        Ok(code) => write_name_of(asked.word(0), code, line),
        Err(_) => line.push_str("no JSON"),
    }
}

/// Writes what a code of a kind is called.
fn write_name_of(kind: &str, code: &Value, line: &mut String) -> Written {
    match kind {
        "componentType" => write_name_as!(accessor::ComponentType, code, line),
        "type" => write_name_as!(accessor::Type, code, line),
        "target" => write_name_as!(buffer::Target, code, line),
        "mode" => write_name_as!(mesh::Mode, code, line),
        "interpolation" => write_name_as!(animation::Interpolation, code, line),
        "path" => write_name_as!(animation::Property, code, line),
        "alphaMode" => write_name_as!(material::AlphaMode, code, line),
        "camera" => write_name_as!(camera::Type, code, line),
        "light" => write_name_as!(extensions::scene::khr_lights_punctual::Type, code, line),
        "magFilter" => write_name_as!(texture::MagFilter, code, line),
        "minFilter" => write_name_as!(texture::MinFilter, code, line),
        "wrap" => write_name_as!(texture::WrappingMode, code, line),
        _ => line.push_str("no kind"),
    }
}
