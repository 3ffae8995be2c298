//! Whether an extension might name a view.
ghost use Rattle.std.specs.Prelude.{◌≡◌, option_map};
ghost use Rattle.serde_json.specs.Find.{as_str};
ghost use Rattle.serde_json.specs.View.{view, items_view, members_view};
ghost use Rattle.gltf_trim.specs.Known.{is_known, is_known_text, are_known, lists_known};
ghost use Rattle.gltf_trim.specs.Known.{names_are_known, names_known, names_known_at};
ghost use Rattle.gltf_trim.specs.Known.{has_known, all_have_known, members_have_known, is_plain};

use serde_json::{Map, Value};

/// Whether nothing but accessors and images names a view of a document: it lists no extension as
/// used, and none stands in it, but those none of whose members names a buffer or a view.
pub(crate) fn is_plain(document: &Value) -> bool
    ensures { result ≡ is_plain (view document.now) }
{
    lists_known(document.get("extensionsUsed")) && has_known(document)
}

/// Whether each name in a list is that of a known extension. An absent list has none.
fn lists_known(list: Option<&Value>) -> bool
    ensures { result ≡ lists_known (option_map (λ v. view v.now) list.entry) }
{
    match list {
        Some(Value::Array(names)) => are_known(names),
        Some(_) => false,
        None => true,
    }
}

/// Whether each of these is the name of a known extension.
fn are_known(names: &[Value]) -> bool
    ensures { result ≡ are_known (items_view names.now) }
{
    for name in names {
        if !is_known_text(name) {
            return false;
        }
    }
    true
}

/// Whether this is the name of a known extension.
fn is_known_text(name: &Value) -> bool
    ensures { result ≡ is_known_text (as_str (view name.now)) }
{
    match name.as_str() {
        Some(name) => is_known(name),
        None => false,
    }
}

/// Whether each extension that stands in a value is known, however deep: what is a member
/// `extensions` is an object of known ones.
#[cycle(known)]
fn has_known(value: &Value) -> bool
    ensures { result ≡ has_known (view value.now) }
{
    match value {
        Value::Array(elements) => all_have_known(elements),
        Value::Object(members) => members_have_known(members),
        _ => true,
    }
}

/// Whether each extension in these values is known.
#[cycle(known)]
fn all_have_known(elements: &Vec<Value>) -> bool
    ensures { result ≡ all_have_known (items_view elements.now.items) }
{
    for one in elements {
        if !has_known(one) {
            return false;
        }
    }
    true
}

/// Whether each extension in the members of an object is known.
#[cycle(known)]
fn members_have_known(members: &Map<String, Value>) -> bool
    ensures { result ≡ members_have_known (members_view members.now.entries) }
{
    for (name, member) in members.iter() {
        if !names_known_at(name.as_str(), member) || !has_known(member) {
            return false;
        }
    }
    true
}

/// Whether a member has another name than `extensions`, or is an object of known ones.
fn names_known_at(name: &str, member: &Value) -> bool
    ensures { result ≡ names_known_at name.now (view member.now) }
{
    name != "extensions" || names_known(member)
}

/// Whether this is an object, each member of which has the name of a known extension.
fn names_known(value: &Value) -> bool
    ensures { result ≡ names_known (view value.now) }
{
    let Value::Object(members) = value else {
        return false;
    };
    for (name, _) in members.iter() {
        if !is_known(name.as_str()) {
            return false;
        }
    }
    true
}

/// Whether an extension is known, and none of its members names a buffer or a view.
fn is_known(name: &str) -> bool
    ensures { result ≡ is_known name.now }
{
    match name {
        "EXT_mesh_gpu_instancing"
        | "EXT_texture_webp"
        | "KHR_animation_pointer"
        | "KHR_lights_punctual"
        | "KHR_materials_anisotropy"
        | "KHR_materials_clearcoat"
        | "KHR_materials_diffuse_transmission"
        | "KHR_materials_dispersion"
        | "KHR_materials_emissive_strength"
        | "KHR_materials_ior"
        | "KHR_materials_iridescence"
        | "KHR_materials_pbrSpecularGlossiness"
        | "KHR_materials_sheen"
        | "KHR_materials_specular"
        | "KHR_materials_transmission"
        | "KHR_materials_unlit"
        | "KHR_materials_variants"
        | "KHR_materials_volume"
        | "KHR_mesh_quantization"
        | "KHR_node_visibility"
        | "KHR_texture_basisu"
        | "KHR_texture_transform"
        | "KHR_xmp_json_ld" => true,
        _ => false,
    }
}
