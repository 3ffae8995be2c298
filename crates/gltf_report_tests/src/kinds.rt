//! The kind of the JSON value at a place of a file: which is found, and which is wanted.
use gltf_json_record::path::{Path, Step};
use serde_json::Value;
use std::alloc::{AllocError, Global};

const OBJECT: &str = "an object";

const LIST: &str = "a list";

const STRING: &str = "a string";

const FLAG: &str = "true or false";

/// An index of a list, or the number of a set of texture coordinates.
const INDEX: &str = "a whole number from 0 to 4294967295";

/// A number of bytes or items, or the number of a table.
const SIZE: &str = "a whole number from 0 to 18446744073709551615";

/// The kind of the value at a place, a number by its text. `None` where nothing is there. Fails
/// where there is no memory.
pub(crate) fn found(
    alloc: Global,
    value: &Value,
    place: &Path,
) -> Result<Option<String>, AllocError> {
    let pointer = place.pointer(alloc)?;
    match value.pointer(pointer.as_str()) {
        Some(part) => Ok(Some(kind_of(alloc, part)?)),
        None => Ok(None),
    }
}

fn kind_of(alloc: Global, value: &Value) -> Result<String, AllocError> {
    let kind = match value {
        Value::Null => "null",
        Value::Bool(_) => FLAG,
        Value::Number(number) => return format!(in alloc; "{number}"),
        Value::String(_) => STRING,
        Value::Array(_) => LIST,
        Value::Object(_) => OBJECT,
    };
    String::from_str(alloc, kind)
}

/// The kind that the standard gives the value at a place, of those that this reader looks at: what
/// may be of any kind has none that is wrong. The whole document is an object.
pub(crate) fn wanted(steps: &[Step]) -> &'static str {
    let mut kind = OBJECT;
    let mut outer = "";
    let mut name = "";
    for step in steps {
        kind = match step {
            Step::Member(next) => {
                outer = name;
                name = *next;
                of_member(outer, name)
            }
            Step::Item(_) => of_element(outer, name),
            Step::Attribute(_) => INDEX,
        };
    }
    kind
}

/// The kind of each element of a list, which stands within the member `outer`.
fn of_element(outer: &str, list: &str) -> &'static str {
    match (outer, list) {
        (_, "extensionsUsed" | "extensionsRequired") => STRING,
        (_, "children" | "joints") => INDEX,
        ("scenes", "nodes") | ("mappings", "variants") => INDEX,
        _ => OBJECT,
    }
}

/// The kind of the member of a name within the member `outer`.
fn of_member(outer: &str, name: &str) -> &'static str {
    match (outer, name) {
        ("extensions", _) | ("channels", "target") | ("sparse", "indices") => OBJECT,
        _ if is_object(name) => OBJECT,
        _ if is_list(name) => LIST,
        _ if is_string(name) => STRING,
        (_, "normalized" | "doubleSided") => FLAG,
        _ if is_size(name) => SIZE,
        _ => INDEX,
    }
}

fn is_object(name: &str) -> bool {
    match name {
        "asset" | "attributes" | "extensions" => true,
        "sparse" | "values" => true,
        "orthographic" | "perspective" | "spot" => true,
        "pbrMetallicRoughness" => true,
        _ => name.ends_with("Texture"),
    }
}

fn is_list(name: &str) -> bool {
    match name {
        "accessors" | "animations" | "buffers" | "bufferViews" | "cameras" | "images" => true,
        "materials" | "meshes" | "nodes" | "samplers" | "scenes" | "skins" | "textures" => true,
        "extensionsUsed" | "extensionsRequired" => true,
        "primitives" | "targets" => true,
        "children" | "joints" | "channels" => true,
        "lights" | "variants" | "mappings" => true,
        _ => false,
    }
}

fn is_string(name: &str) -> bool {
    match name {
        "version" | "minVersion" | "generator" | "copyright" => true,
        "name" | "uri" | "mimeType" => true,
        "type" | "alphaMode" | "interpolation" | "path" => true,
        _ => false,
    }
}

fn is_size(name: &str) -> bool {
    match name {
        "byteLength" | "byteOffset" | "byteStride" | "count" => true,
        "componentType" | "mode" | "target" => true,
        "magFilter" | "minFilter" | "wrapS" | "wrapT" => true,
        _ => false,
    }
}
