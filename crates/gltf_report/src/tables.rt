//! The tables of what a document holds.
use crate::table::Table;
use gltf_extensions::supported;
use gltf_json::root::Root;
use gltf_json_animation::animation::Animation;
use gltf_json_geometry::accessor::Accessor;
use gltf_json_geometry::mesh::{Mesh, Primitive};
use gltf_json_geometry::semantic::Semantic;
use gltf_json_record::validation::Checked;
use gltf_validation::root::is_supported;
use serde_json::{Map, Value, put};
use std::alloc::{AllocError, Global};

/// The parts of a document that have a table.
#[derive(Clone, Copy)]
pub(crate) enum Part {
    /// The scenes.
    Scenes,
    /// The meshes.
    Meshes,
    /// The materials.
    Materials,
    /// The images.
    Images,
    /// The animations.
    Animations,
    /// The buffers.
    Buffers,
    /// The extensions that are used.
    Extensions,
}

/// All of them, in the order of a report.
pub(crate) const PARTS: [Part; 7] = [
    Part::Scenes,
    Part::Meshes,
    Part::Materials,
    Part::Images,
    Part::Animations,
    Part::Buffers,
    Part::Extensions,
];

/// The table of a part.
pub(crate) fn table(alloc: Global, root: &Root, part: Part) -> Result<Table, AllocError> {
    let mut table = empty(alloc, part);
    match part {
        Part::Scenes => add_scenes(root, &mut table)?,
        Part::Meshes => add_meshes(alloc, root, &mut table)?,
        Part::Materials => add_materials(alloc, root, &mut table)?,
        Part::Images => add_images(root, &mut table)?,
        Part::Animations => add_animations(root, &mut table)?,
        Part::Buffers => add_buffers(root, &mut table)?,
        Part::Extensions => add_extensions(alloc, root, &mut table)?,
    }
    Ok(table)
}

fn empty(alloc: Global, part: Part) -> Table {
    match part {
        Part::Scenes => Table::new(alloc, "SCENES", &["#", "name", "roots"]),
        Part::Meshes => Table::new(
            alloc,
            "MESHES",
            &[
                "#",
                "name",
                "mode",
                "primitives",
                "vertices",
                "indices",
                "attributes",
                "instances",
            ],
        ),
        Part::Materials => Table::new(
            alloc,
            "MATERIALS",
            &["#", "name", "instances", "alphaMode", "doubleSided"],
        ),
        Part::Images => Table::new(
            alloc,
            "IMAGES",
            &["#", "name", "storage", "mimeType", "uri"],
        ),
        Part::Animations => Table::new(
            alloc,
            "ANIMATIONS",
            &["#", "name", "channels", "samplers", "keyframes"],
        ),
        Part::Buffers => Table::new(alloc, "BUFFERS", &["#", "name", "storage", "size", "uri"]),
        Part::Extensions => Table::new(alloc, "EXTENSIONS", &["#", "name", "required", "read"]),
    }
}

fn add_scenes(root: &Root, table: &mut Table) -> Result<(), AllocError> {
    for (i, scene) in root.scenes.iter().enumerate() {
        table.add_number(i as u64)?;
        table.add_name(&scene.name)?;
        table.add_number(scene.nodes.len() as u64)?;
    }
    Ok(())
}

fn add_meshes(alloc: Global, root: &Root, table: &mut Table) -> Result<(), AllocError> {
    let uses = mesh_uses(alloc, root)?;
    for (i, mesh) in root.meshes.iter().enumerate() {
        add_mesh(alloc, i, mesh, root, table)?;
        table.add_number(uses.get(i).copied().unwrap_or(0))?;
    }
    Ok(())
}

/// How many nodes name each mesh.
fn mesh_uses(alloc: Global, root: &Root) -> Result<Vec<u64>, AllocError> {
    let mut uses = vec![in alloc; 0u64; root.meshes.len()]?;
    for node in &root.nodes {
        if let Some(mesh) = node.mesh {
            count(&mut uses, mesh.value());
        }
    }
    Ok(uses)
}

fn count(uses: &mut Vec<u64>, index: usize) {
    if let Some(count) = uses.get_mut(index) {
        *count = count.saturating_add(1);
    }
}

fn add_mesh(
    alloc: Global,
    i: usize,
    mesh: &Mesh,
    root: &Root,
    table: &mut Table,
) -> Result<(), AllocError> {
    let accessors = root.accessors.as_slice();
    let mut vertices = 0u64;
    let mut indices = 0u64;
    for primitive in &mesh.primitives {
        vertices = vertices.saturating_add(vertices_of(accessors, primitive));
        indices = indices.saturating_add(indices_of(accessors, primitive));
    }
    table.add_number(i as u64)?;
    table.add_name(&mesh.name)?;
    table.add(mode_of(mesh))?;
    table.add_number(mesh.primitives.len() as u64)?;
    table.add_number(vertices)?;
    table.add_number(indices)?;
    table.add(attributes_of(alloc, mesh)?.as_str())
}

/// The mode of the first primitive, or `-` where there is none.
fn mode_of(mesh: &Mesh) -> &'static str {
    match mesh.primitives.as_slice() {
        [first, ..] => match first.mode {
            Checked::Valid(mode) => mode.as_str(),
            Checked::Invalid => "-",
        },
        [] => "-",
    }
}

fn count_at(accessors: &[Accessor], index: usize) -> u64 {
    match accessors.get(index) {
        Some(accessor) => accessor.count,
        None => 0,
    }
}

fn vertices_of(accessors: &[Accessor], primitive: &Primitive) -> u64 {
    for (semantic, index) in &primitive.attributes {
        if matches!(semantic, Semantic::Positions) {
            return count_at(accessors, index.value());
        }
    }
    0
}

fn indices_of(accessors: &[Accessor], primitive: &Primitive) -> u64 {
    match primitive.indices {
        Some(index) => count_at(accessors, index.value()),
        None => 0,
    }
}

/// The names of the attributes of the first primitive.
fn attributes_of(alloc: Global, mesh: &Mesh) -> Result<String, AllocError> {
    let mut names = String::new(alloc);
    if let [first, ..] = mesh.primitives.as_slice() {
        for (semantic, _index) in &first.attributes {
            if !names.is_empty() {
                names.push_str(" ")?;
            }
            write!(names, "{semantic}")?;
        }
    }
    Ok(names)
}

/// How many primitives name each material.
fn material_uses(alloc: Global, root: &Root) -> Result<Vec<u64>, AllocError> {
    let mut uses = vec![in alloc; 0u64; root.materials.len()]?;
    for mesh in &root.meshes {
        for primitive in &mesh.primitives {
            if let Some(material) = primitive.material {
                count(&mut uses, material.value());
            }
        }
    }
    Ok(uses)
}

fn add_materials(alloc: Global, root: &Root, table: &mut Table) -> Result<(), AllocError> {
    let uses = material_uses(alloc, root)?;
    for (i, material) in root.materials.iter().enumerate() {
        table.add_number(i as u64)?;
        table.add_name(&material.name)?;
        table.add_number(uses.get(i).copied().unwrap_or(0))?;
        table.add(match material.alpha_mode {
            Checked::Valid(mode) => mode.as_str(),
            Checked::Invalid => "-",
        })?;
        table.add(if material.double_sided {
            "true"
        } else {
            "false"
        })?;
    }
    Ok(())
}

fn add_images(root: &Root, table: &mut Table) -> Result<(), AllocError> {
    for (i, image) in root.images.iter().enumerate() {
        table.add_number(i as u64)?;
        table.add_name(&image.name)?;
        table.add(if image.buffer_view.is_some() {
            "buffer-view"
        } else {
            storage_of(&image.uri)
        })?;
        table.add_name(&image.mime_type)?;
        table.add(reference_of(&image.uri))?;
    }
    Ok(())
}

fn add_extensions(alloc: Global, root: &Root, table: &mut Table) -> Result<(), AllocError> {
    let required = set_of(alloc, root.extensions_required.as_slice())?;
    for (i, name) in root.extensions_used.iter().enumerate() {
        let name = name.as_str();
        table.add_number(i as u64)?;
        table.add(name)?;
        table.add(if required.get(name).is_some() {
            "true"
        } else {
            "false"
        })?;
        table.add(reading_of(name))?;
    }
    Ok(())
}

/// These names, to be looked up.
fn set_of(alloc: Global, names: &[String]) -> Result<Map<String, Value>, AllocError> {
    let mut set = Map::new(alloc);
    for name in names {
        put(&mut set, alloc, name.as_str(), Value::Null)?;
    }
    Ok(set)
}

/// How an extension is read: with the document, by the handles of `gltf_extensions`, or as JSON
/// alone.
fn reading_of(name: &str) -> &'static str {
    if is_supported(name) {
        "document"
    } else if is_among(name, supported()) {
        "handles"
    } else {
        "JSON"
    }
}

fn is_among(name: &str, names: &[&str]) -> bool {
    for other in names {
        if name == *other {
            return true;
        }
    }
    false
}

fn is_data(uri: &str) -> bool {
    uri.starts_with("data:")
}

fn storage_of(uri: &Option<String>) -> &'static str {
    match uri {
        Some(uri) if is_data(uri.as_str()) => "data-uri",
        Some(_) => "external",
        None => "glb",
    }
}

/// The name of an external file, or `-`.
fn reference_of(uri: &Option<String>) -> &str {
    match uri {
        Some(uri) if !is_data(uri.as_str()) => uri.as_str(),
        _ => "-",
    }
}

fn add_animations(root: &Root, table: &mut Table) -> Result<(), AllocError> {
    for (i, animation) in root.animations.iter().enumerate() {
        table.add_number(i as u64)?;
        table.add_name(&animation.name)?;
        table.add_number(animation.channels.len() as u64)?;
        table.add_number(animation.samplers.len() as u64)?;
        table.add_number(keyframes(animation, root.accessors.as_slice()))?;
    }
    Ok(())
}

/// The times of all samplers.
fn keyframes(animation: &Animation, accessors: &[Accessor]) -> u64 {
    let mut keyframes = 0u64;
    for sampler in &animation.samplers {
        keyframes = keyframes.saturating_add(count_at(accessors, sampler.input.value()));
    }
    keyframes
}

fn add_buffers(root: &Root, table: &mut Table) -> Result<(), AllocError> {
    for (i, buffer) in root.buffers.iter().enumerate() {
        table.add_number(i as u64)?;
        table.add_name(&buffer.name)?;
        table.add(storage_of(&buffer.uri))?;
        table.add_number(buffer.byte_length)?;
        table.add(reference_of(&buffer.uri))?;
    }
    Ok(())
}
