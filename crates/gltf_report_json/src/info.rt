//! What a document holds, as the member `info` of a report.
ghost use Rattle.std.specs.Prelude.{◌≡◌, ◌++◌, OnOk, option_map};
ghost use Rattle.gltf_report_json.specs.Held.{has_morphed, has_morph_targets, in_64_bits};
ghost use Rattle.gltf_report_json.specs.Held.{primitive_count, total_vertex_count};
ghost use Rattle.gltf_report_json.specs.Held.{vertex_count, mesh_vertex_count};
ghost use Rattle.gltf_report_json.specs.Reported.{names_member, generator_member, info_tokens};
ghost use Rattle.gltf_report_json.specs.Reported.{front_members, flag_members, info_member};

use crate::tokens::{TakesTokens, take_flag, take_number, take_text};
use gltf_inspect_meshes::item::or_zero;
use gltf_inspect_meshes::meaning::{POSITIONS, count_of_index, first_of};
use gltf_json::root::Root;
use gltf_json_geometry::accessor::Accessor;
use gltf_json_geometry::mesh::{Mesh, Primitive};
use json::Token;
use std::alloc::AllocError;

/// The member `info`, where there is a document.
pub(crate) fn take_info<W: TakesTokens>(root: Option<&Root>, out: &mut W) -> Result<(), AllocError>
    ensures taken { OnOk result (W.taken out.new
        ≡ W.taken out.old ++ info_member (option_map (λ r. r.now) root.entry)) }
    ensures before { W.before out.new ≡ W.before out.old }
{
    match root {
        Some(root) => {
            out.take(Token::Key("info"))?;
            take_document(root, out)
        }
        None => Ok(()),
    }
}

/// The object, with its members in the order of their names.
fn take_document<W: TakesTokens>(root: &Root, out: &mut W) -> Result<(), AllocError>
    ensures taken { OnOk result (W.taken out.new ≡ W.taken out.old ++ info_tokens root.now) }
    ensures before { W.before out.new ≡ W.before out.old }
{
    out.take(Token::BeginObject)?;
    take_front(root, out)?;
    take_flags(root, out)?;
    take_number("materialCount", root.materials.len() as u64, out)?;
    take_number("totalVertexCount", vertices(root), out)?;
    take_text("version", root.asset.version.as_str(), out)?;
    out.take(Token::EndObject)?;
    Ok(())
}

/// The members that come before those that are true or false.
fn take_front<W: TakesTokens>(root: &Root, out: &mut W) -> Result<(), AllocError>
    ensures taken { OnOk result (W.taken out.new ≡ W.taken out.old ++ front_members root.now) }
    ensures before { W.before out.new ≡ W.before out.old }
{
    take_number("animationCount", root.animations.len() as u64, out)?;
    take_number("drawCallCount", draw_calls(root), out)?;
    take_names(
        "extensionsRequired",
        root.extensions_required.as_slice(),
        out,
    )?;
    take_names("extensionsUsed", root.extensions_used.as_slice(), out)?;
    take_generator(&root.asset.generator, out)?;
    Ok(())
}

/// The members that are true or false.
fn take_flags<W: TakesTokens>(root: &Root, out: &mut W) -> Result<(), AllocError>
    ensures taken { OnOk result (W.taken out.new ≡ W.taken out.old ++ flag_members root.now) }
    ensures before { W.before out.new ≡ W.before out.old }
{
    take_flag("hasDefaultScene", root.scene.is_some(), out)?;
    take_flag("hasMorphTargets", has_targets(root), out)?;
    take_flag("hasSkins", !root.skins.is_empty(), out)?;
    take_flag("hasTextures", !root.textures.is_empty(), out)?;
    Ok(())
}

fn take_generator<W: TakesTokens>(generator: &Option<String>, out: &mut W) -> Result<(), AllocError>
    ensures taken { OnOk result
        (W.taken out.new ≡ W.taken out.old ++ generator_member generator.now) }
    ensures before { W.before out.new ≡ W.before out.old }
{
    match generator {
        Some(generator) => take_text("generator", generator.as_str(), out),
        None => Ok(()),
    }
}

/// A list of names, where there are some.
fn take_names<W: TakesTokens>(name: &str, names: &[String], out: &mut W) -> Result<(), AllocError>
    ensures taken { OnOk result (W.taken out.new
        ≡ W.taken out.old ++ names_member name.now names.now) }
    ensures before { W.before out.new ≡ W.before out.old }
{
    if names.is_empty() {
        return Ok(());
    }
    out.take(Token::Key(name))?;
    out.take(Token::BeginArray)?;
    for one in names {
        out.take(Token::String(one.as_str()))?;
    }
    out.take(Token::EndArray)
}

/// Whether some primitive of some mesh has a morph target (glTF 2.0, section 3.7.2.2, "Morph
/// Targets").
fn has_targets(root: &Root) -> bool
    ensures { result ≡ has_morph_targets root.now }
{
    root.meshes.iter().any(|mesh| has_morphed(mesh))
}

/// Whether some primitive of the mesh has a morph target.
fn has_morphed(mesh: &Mesh) -> bool
    ensures { result ≡ has_morphed mesh.now }
{
    mesh.primitives
        .iter()
        .any(|primitive| !primitive.targets.is_empty())
}

/// The number of primitives of all meshes, at most `u64::MAX`.
fn draw_calls(root: &Root) -> u64
    ensures { result ≡ in_64_bits (primitive_count root.now) }
{
    let mut calls = 0u64;
    for mesh in &root.meshes {
        calls = calls.saturating_add(mesh.primitives.len() as u64);
    }
    calls
}

/// The number of vertices of the primitives of all meshes, at most `u64::MAX`.
fn vertices(root: &Root) -> u64
    ensures { result ≡ in_64_bits (total_vertex_count root.now) }
{
    let accessors = root.accessors.as_slice();
    let mut vertices = 0u64;
    for mesh in &root.meshes {
        vertices = vertices.saturating_add(vertices_of_mesh(accessors, mesh));
    }
    vertices
}

/// The number of vertices of the primitives of the mesh, at most `u64::MAX`.
fn vertices_of_mesh(accessors: &[Accessor], mesh: &Mesh) -> u64
    ensures { result ≡ in_64_bits (mesh_vertex_count accessors.now mesh.now) }
{
    let mut vertices = 0u64;
    for primitive in &mesh.primitives {
        vertices = vertices.saturating_add(vertices_of(accessors, primitive));
    }
    vertices
}

/// The number of vertices of a primitive: the items of the accessor of its positions (glTF 2.0,
/// section 3.7.2.1, "Meshes: Overview"), 0 where there is none.
fn vertices_of(accessors: &[Accessor], primitive: &Primitive) -> u64
    ensures { result ≡ vertex_count accessors.now primitive.now }
{
    let positions = first_of(POSITIONS, &primitive.attributes);
    or_zero(count_of_index(accessors, positions))
}
