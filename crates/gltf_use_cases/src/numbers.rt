//! The numbers of handles.
use gltf::camera::Projection;
use gltf::json::Value;
use gltf::khr_lights_punctual::Light;
use gltf::scene::Transform;
use gltf::texture::TextureTransform;
use gltf::{Document, Material};
use gltf_case::asked::Asked;
use gltf_case::shown::Written;
use gltf_numbers::material::{emissive_strength, ior};
use gltf_numbers::{Numbers, number_list};
use std::alloc::Global;
use std::fmt::Debug;

/// Writes the numbers of a part of a document.
///
/// - `transform`: of the first node.
/// - `camera`: of the projection of the first camera.
/// - `light`, `kind`: of the first light, and of how it shines.
/// - `texture`: of the transform of the base colour's texture of the first material.
/// - all others are parts of the first material; with the word `meant` of the default material.
pub(crate) fn write(asked: Asked<'_>, document: &Document, line: &mut String) -> Written {
    match asked.call {
        "transform" => write_numbers(transform_of(document), line),
        "camera" => write_camera(document, line),
        "light" => write_numbers(light_of(document), line),
        "kind" => match light_of(document) {
            Some(light) => write_numbers(Some(light.kind()), line),
            None => line.push_str("no light"),
        },
        "texture" => write_numbers(texture_transform_of(document), line),
        _ if asked.words == "meant" => {
            write_material(asked.call, Material::default(document.as_valid()), line)
        }
        _ => match document.materials().nth(0) {
            Some(material) => write_material(asked.call, material, line),
            None => line.push_str("no material"),
        },
    }
}

/// Writes the numbers of a part, where it is there.
fn write_numbers<T: Numbers + Copy>(part: Option<T>, line: &mut String) -> Written
where
    T::Numbers: Debug + Copy,
{
    match part {
        Some(part) => write!(line, "{:?}", part.numbers()),
        None => line.push_str("no part"),
    }
}

/// The transform of the first node.
fn transform_of(document: &Document) -> Option<Transform<'_>> {
    Some(document.nodes().nth(0)?.transform())
}

/// The first light.
fn light_of(document: &Document) -> Option<Light<'_>> {
    document.lights()?.nth(0)
}

/// The transform of the base colour's texture of the first material.
fn texture_transform_of(document: &Document) -> Option<TextureTransform<'_>> {
    let pbr = document.materials().nth(0)?.pbr_metallic_roughness();
    pbr.base_color_texture()?.texture_transform()
}

/// Writes the numbers of the projection of the first camera.
fn write_camera(document: &Document, line: &mut String) -> Written {
    match document.cameras().nth(0) {
        Some(camera) => match camera.projection() {
            Projection::Orthographic(it) => write_numbers(Some(it), line),
            Projection::Perspective(it) => write_numbers(Some(it), line),
        },
        None => line.push_str("no camera"),
    }
}

/// Writes the numbers of a part of a material.
fn write_material(part: &str, material: Material<'_>, line: &mut String) -> Written {
    match part {
        "material" => write_numbers(Some(material), line),
        "pbr" => write_numbers(Some(material.pbr_metallic_roughness()), line),
        "glossiness" => write_numbers(material.pbr_specular_glossiness(), line),
        "normal" => write_numbers(material.normal_texture(), line),
        "occlusion" => write_numbers(material.occlusion_texture(), line),
        "transmission" => write_numbers(material.transmission(), line),
        "volume" => write_numbers(material.volume(), line),
        "specular" => write_numbers(material.specular(), line),
        "ior" => write!(line, "{:?}", ior(&material)),
        "emissiveStrength" => write!(line, "{:?}", emissive_strength(&material)),
        _ => line.push_str("no call"),
    }
}

/// Writes the weights of the first mesh, and of the first node.
pub(crate) fn write_weights(alloc: Global, document: &Document, line: &mut String) -> Written {
    let mesh = document.meshes().nth(0);
    write_list(alloc, mesh.and_then(|mesh| mesh.weights()), line)?;
    line.push_str("; ")?;
    let node = document.nodes().nth(0);
    write_list(alloc, node.and_then(|node| node.weights()), line)
}

/// Writes a member that is a list of numbers, where it is there.
fn write_list(alloc: Global, member: Option<&Value>, line: &mut String) -> Written {
    match member {
        Some(value) => write!(line, "{:?}", number_list(alloc, value)?),
        None => line.push_str("absent"),
    }
}
