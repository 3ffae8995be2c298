//! The report as JSON by way of a tree of all its messages: the form that the text was made by
//! before, kept as it was.
use crate::message::message;
use gltf_findings::report::Report;
use gltf_json::root::Root;
use gltf_json_geometry::semantic::Semantic;
use serde_json::{Value, json, put};
use std::alloc::{AllocError, Global};

/// The report as JSON, in the layout of the Khronos validator, and under `info` what the document
/// holds, where there is one. On one line, or on several where it is to be pretty. `value` is the
/// JSON value of the file, where the messages are to say which kinds it has.
pub fn json_text(
    alloc: Global,
    name: &str,
    report: &Report,
    root: Option<&Root>,
    value: Option<&Value>,
    is_pretty: bool,
) -> Result<String, AllocError> {
    let mut made = report.to_json(alloc, name)?;
    if root.is_some() || value.is_some() {
        say_more(alloc, root, value, report, &mut made)?;
    }
    if let Some(root) = root {
        let info = info(alloc, root)?;
        if let Some(members) = made.as_object_mut() {
            let _before = members.insert(String::from_str(alloc, "info")?, info)?;
        }
    }
    let text = if is_pretty {
        made.to_string_pretty(alloc)?
    } else {
        made.to_string(alloc)?
    };
    Ok(text)
}

/// Puts the numbers and kinds into the messages.
fn say_more(
    alloc: Global,
    root: Option<&Root>,
    value: Option<&Value>,
    report: &Report,
    made: &mut Value,
) -> Result<(), AllocError> {
    let Some(Value::Array(messages)) = made.pointer_mut("/issues/messages") else {
        return Ok(());
    };
    for (k, finding) in report.findings().iter().enumerate() {
        let (place, code) = finding;
        let says = message(alloc, root, value, place, *code)?;
        if let Some(Value::Object(members)) = messages.get_mut(k) {
            let name = String::from_str(alloc, "message")?;
            let _before = members.insert(name, Value::String(says))?;
        }
    }
    Ok(())
}

fn info(alloc: Global, root: &Root) -> Result<Value, AllocError> {
    let version = root.asset.version.as_str();
    let animations = root.animations.len() as u64;
    let materials = root.materials.len() as u64;
    let has_skins = !root.skins.is_empty();
    let has_textures = !root.textures.is_empty();
    let has_default_scene = root.scene.is_some();
    let has_morph_targets = has_targets(root);
    let calls = draw_calls(root);
    let vertices = vertices(root);
    let mut info = json!(in alloc; {
        "animationCount": animations,
        "drawCallCount": calls,
        "hasDefaultScene": has_default_scene,
        "hasMorphTargets": has_morph_targets,
        "hasSkins": has_skins,
        "hasTextures": has_textures,
        "materialCount": materials,
        "totalVertexCount": vertices,
        "version": version
    })?;
    if let Some(generator) = &root.asset.generator {
        let generator = Value::String(String::from_str(alloc, generator.as_str())?);
        add_member(alloc, &mut info, "generator", generator)?;
    }
    let used = root.extensions_used.as_slice();
    add_names(alloc, &mut info, "extensionsUsed", used)?;
    let required = root.extensions_required.as_slice();
    add_names(alloc, &mut info, "extensionsRequired", required)?;
    Ok(info)
}

fn add_member(
    alloc: Global,
    info: &mut Value,
    name: &str,
    member: Value,
) -> Result<(), AllocError> {
    if let Some(members) = info.as_object_mut() {
        put(members, alloc, name, member)?;
    }
    Ok(())
}

/// Adds a list of names, where there are some.
fn add_names(
    alloc: Global,
    info: &mut Value,
    name: &str,
    names: &[String],
) -> Result<(), AllocError> {
    if names.is_empty() {
        return Ok(());
    }
    let mut list = Vec::with_capacity(alloc, names.len())?;
    for one in names {
        list.push(Value::String(String::from_str(alloc, one.as_str())?))?;
    }
    add_member(alloc, info, name, Value::Array(list))
}

fn has_targets(root: &Root) -> bool {
    for mesh in &root.meshes {
        for primitive in &mesh.primitives {
            if !primitive.targets.is_empty() {
                return true;
            }
        }
    }
    false
}

/// The number of primitives of all meshes.
fn draw_calls(root: &Root) -> u64 {
    let mut calls = 0u64;
    for mesh in &root.meshes {
        calls = calls.saturating_add(mesh.primitives.len() as u64);
    }
    calls
}

/// The number of vertices of all primitives.
fn vertices(root: &Root) -> u64 {
    let mut vertices = 0u64;
    for mesh in &root.meshes {
        for primitive in &mesh.primitives {
            for (semantic, index) in &primitive.attributes {
                if matches!(semantic, Semantic::Positions) {
                    if let Some(accessor) = root.accessors.get(index.value()) {
                        vertices = vertices.saturating_add(accessor.count);
                    }
                }
            }
        }
    }
    vertices
}
