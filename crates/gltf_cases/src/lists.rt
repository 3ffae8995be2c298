//! The lists of a document, walked by words.
use gltf::{Document, Material, Primitive};
use gltf_case::asked::Asked;
use gltf_case::shown::Written;
use gltf_lines::{write_attribute_steps, write_handle, write_list, write_list_or_none};

/// Writes what the steps over a list of handles give, or extensions that are not known.
///
/// - `buffers`, `views`, `accessors`, `used` and `required`, each with steps.
/// - `extensions`, and `extension NAME`.
/// - handles of looks and of scenes, as `write_look` and `write_scene` say.
pub(crate) fn write(document: &Document, asked: Asked<'_>, line: &mut String) -> Written {
    match asked.call {
        "buffers" => write_list(document.buffers(), asked.words, line),
        "views" => write_list(document.views(), asked.words, line),
        "accessors" => write_list(document.accessors(), asked.words, line),
        "used" => write_list(document.extensions_used(), asked.words, line),
        "required" => write_list(document.extensions_required(), asked.words, line),
        "extension" => write!(line, "{:?}", document.extension_value(asked.words)),
        "extensions" => write!(line, "{:?}", document.extensions()),
        _ => write_look(document, asked, line),
    }
}

/// Writes what the steps over a list of handles of looks give.
///
/// - `images`, `textures`, `samplers`, `cameras`, `lights`, `variants` and `materials`, each with
///   steps.
/// - `default`: the default material.
fn write_look(document: &Document, asked: Asked<'_>, line: &mut String) -> Written {
    match asked.call {
        "images" => write_list(document.images(), asked.words, line),
        "textures" => write_list(document.textures(), asked.words, line),
        "samplers" => write_list(document.samplers(), asked.words, line),
        "cameras" => write_list(document.cameras(), asked.words, line),
        "lights" => write_list_or_none(document.lights(), asked.words, line),
        "variants" => write_list_or_none(document.variants(), asked.words, line),
        "materials" => write_list(document.materials(), asked.words, line),
        "default" => write_handle(&Material::default(document.as_valid()), line),
        _ => write_scene(document, asked, line),
    }
}

/// Writes what the steps over a list of handles of scenes give.
///
/// - `meshes`, `nodes`, `scenes`, `skins` and `animations`, each with steps.
/// - `attributes`, with steps: those of the first primitive of the first mesh.
/// - `scene`: the default scene.
fn write_scene(document: &Document, asked: Asked<'_>, line: &mut String) -> Written {
    match asked.call {
        "meshes" => write_list(document.meshes(), asked.words, line),
        "nodes" => write_list(document.nodes(), asked.words, line),
        "scenes" => write_list(document.scenes(), asked.words, line),
        "skins" => write_list(document.skins(), asked.words, line),
        "animations" => write_list(document.animations(), asked.words, line),
        "attributes" => match first_primitive(document) {
            Some(first) => write_attribute_steps(first.attributes(), asked.words, line),
            None => line.push_str("no primitive"),
        },
        "scene" => match document.default_scene() {
            Some(scene) => write_handle(&scene, line),
            None => line.push_str("no scene"),
        },
        _ => write_within(document, asked, line),
    }
}

/// Writes what the steps over a list give that stands in the first handle of its kind.
///
/// - `primitives`, `targets` and `mappings`: of the first mesh, and of its first primitive.
/// - `roots`, `children` and `joints`: of the first scene, node and skin.
/// - `channels` and `keyframes`: of the first animation, whose samplers are the latter.
fn write_within(document: &Document, asked: Asked<'_>, line: &mut String) -> Written {
    match asked.call {
        "primitives" => match document.meshes().nth(0) {
            Some(mesh) => write_list(mesh.primitives(), asked.words, line),
            None => line.push_str("no mesh"),
        },
        "targets" | "mappings" => match first_primitive(document) {
            Some(first) if asked.call == "targets" => {
                write_list(first.morph_targets(), asked.words, line)
            }
            Some(first) => write_list(first.mappings(), asked.words, line),
            None => line.push_str("no primitive"),
        },
        "channels" | "keyframes" => match document.animations().nth(0) {
            Some(first) if asked.call == "channels" => {
                write_list(first.channels(), asked.words, line)
            }
            Some(first) => write_list(first.samplers(), asked.words, line),
            None => line.push_str("no animation"),
        },
        _ => write_nodes(document, asked, line),
    }
}

/// Writes what the steps over a list of nodes give, which the first scene, node or skin names.
fn write_nodes(document: &Document, asked: Asked<'_>, line: &mut String) -> Written {
    match asked.call {
        "roots" => match document.scenes().nth(0) {
            Some(scene) => write_list(scene.nodes(), asked.words, line),
            None => line.push_str("no scene"),
        },
        "children" => match document.nodes().nth(0) {
            Some(node) => write_list(node.children(), asked.words, line),
            None => line.push_str("no node"),
        },
        "joints" => match document.skins().nth(0) {
            Some(skin) => write_list(skin.joints(), asked.words, line),
            None => line.push_str("no skin"),
        },
        _ => line.push_str("no call"),
    }
}

/// The first primitive of the first mesh.
pub(crate) fn first_primitive(document: &Document) -> Option<Primitive<'_>> {
    document.meshes().nth(0)?.primitives().nth(0)
}
