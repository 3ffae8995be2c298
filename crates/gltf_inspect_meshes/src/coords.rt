//! The sets of texture coordinates that a material takes from a primitive (glTF 2.0, sections 3.9.2
//! and 5.30).
ghost use Rattle.std.specs.Prelude.{◌≡◌, OnOk, unwrap_or, option_map};
ghost use Rattle.std.specs.Option.{option_copied};
ghost use Rattle.serde_json.specs.View.{view};
ghost use Rattle.gltf_validation.specs.Locations.{places_of};
ghost use Rattle.gltf_findings.specs.Checks.{told_after};
ghost use Rattle.gltf_inspect_meshes.specs.Coords.{has_coords, holds_of, info_set, moved_set};
ghost use Rattle.gltf_inspect_meshes.specs.Coords.{fits_info, fits_normal, fits_occlusion};
ghost use Rattle.gltf_inspect_meshes.specs.Coords.{fits_metallic, fits_glossiness};
ghost use Rattle.gltf_inspect_meshes.specs.Coords.{fits_specular, fits_extensions, fits_material};
ghost use Rattle.gltf_inspect_meshes.specs.Coords.{fits_transmission, fits_volume};
ghost use Rattle.gltf_inspect_meshes.specs.Coords.{material_checks, kept_coord, fits_moved};

use crate::meaning::{TEX_COORDS, meaning_number, set_number};
use gltf_findings::code::Code;
use gltf_findings::findings::Findings;
use gltf_json::root::Root;
use gltf_json_geometry::mesh::Primitive;
use gltf_json_geometry::semantic::Semantic;
use gltf_json_material::extensions::{material as extended, texture as moved};
use gltf_json_material::material::{
    Material, NormalTexture, OcclusionTexture, PbrMetallicRoughness,
};
use gltf_json_material::texture::Info;
use gltf_json_record::boxed::{Boxed, lent};
use gltf_json_record::extensions::Others;
use gltf_json_record::index::Index;
use gltf_json_record::kinds;
use gltf_validation::location::Location;
use serde_json::Value;
use std::alloc::AllocError;
use std::collections::BTreeMap;

/// Reports a primitive without a set of texture coordinates that its material uses.
pub(crate) fn tell_coords(
    root: &Root,
    primitive: &Primitive,
    location: &Location<'_>,
    findings: &mut Findings,
) -> Result<(), AllocError>
    ensures { OnOk result (findings.new ≡ told_after findings.old (places_of location.now)
        (material_checks root.now primitive.now)) }
{
    let Some(index) = primitive.material else {
        return Ok(());
    };
    match root.materials.as_slice().get(index.value()) {
        None => Ok(()),
        Some(material) => {
            let fits = fits_material(&primitive.attributes, material);
            findings.tell_member(fits, Code::TooFewTexcoords, "material", location)
        }
    }
}

fn has_coords(attributes: &BTreeMap<Semantic, Index<kinds::Accessor>>, set: u64) -> bool
    ensures { result ≡ has_coords attributes.now.entries set }
{
    for (semantic, _index) in attributes {
        if meaning_number(semantic) == TEX_COORDS && set_number(semantic) as u64 == set {
            return true;
        }
    }
    false
}

fn own_set(set: u32, own: Option<u32>) -> u32
    ensures { result ≡ unwrap_or own set }
{
    match own {
        Some(own) => own,
        None => set,
    }
}

fn moved_set(set: u32, extensions: Option<&moved::Info>) -> u32
    ensures { result ≡ moved_set set (option_copied extensions.entry) }
{
    let Some(extensions) = extensions else {
        return set;
    };
    match &extensions.texture_transform {
        Some(transform) => own_set(set, transform.tex_coord),
        None => set,
    }
}

fn info_set(info: &Info) -> u32
    ensures { result ≡ info_set info.now }
{
    moved_set(info.tex_coord, lent(&info.extensions))
}

fn fits_info(attributes: &BTreeMap<Semantic, Index<kinds::Accessor>>, info: Option<&Info>) -> bool
    ensures { result ≡ holds_of (fits_info attributes.now.entries) (option_copied info.entry) }
{
    match info {
        Some(info) => has_coords(attributes, info_set(info) as u64),
        None => true,
    }
}

/// `texCoord` of `KHR_texture_transform`, where extensions are kept as JSON.
fn kept_coord(extensions: &Option<Boxed<Others>>) -> Option<&Value>
    ensures { option_map (λ v. view v.now) result ≡ kept_coord extensions.now }
{
    match lent(extensions) {
        Some(extensions) => match extensions.others.get("KHR_texture_transform") {
            Some(value) => value.get("texCoord"),
            None => None,
        },
        None => None,
    }
}

/// Whether the set is there that stands in place of another, or this one, where none does.
fn fits_moved(
    attributes: &BTreeMap<Semantic, Index<kinds::Accessor>>,
    set: u32,
    own: Option<&Value>,
) -> bool
    ensures { result ≡ fits_moved attributes.now.entries set
        (option_map (λ v. view v.now) own.entry) }
{
    let Some(own) = own else {
        return has_coords(attributes, set as u64);
    };
    match own.as_u64() {
        Some(own) => has_coords(attributes, own),
        None => true,
    }
}

fn fits_normal(
    attributes: &BTreeMap<Semantic, Index<kinds::Accessor>>,
    normal: Option<&NormalTexture>,
) -> bool
    ensures { result
        ≡ holds_of (fits_normal attributes.now.entries) (option_copied normal.entry) }
{
    match normal {
        Some(it) => fits_moved(attributes, it.tex_coord, kept_coord(&it.extensions)),
        None => true,
    }
}

fn fits_occlusion(
    attributes: &BTreeMap<Semantic, Index<kinds::Accessor>>,
    occlusion: Option<&OcclusionTexture>,
) -> bool
    ensures { result ≡ holds_of (fits_occlusion attributes.now.entries)
        (option_copied occlusion.entry) }
{
    match occlusion {
        Some(it) => fits_moved(attributes, it.tex_coord, kept_coord(&it.extensions)),
        None => true,
    }
}

fn fits_metallic(
    attributes: &BTreeMap<Semantic, Index<kinds::Accessor>>,
    metallic: Option<&PbrMetallicRoughness>,
) -> bool
    ensures { result ≡ holds_of (fits_metallic attributes.now.entries)
        (option_copied metallic.entry) }
{
    match metallic {
        Some(it) => {
            fits_info(attributes, it.base_color_texture.as_ref())
                && fits_info(attributes, it.metallic_roughness_texture.as_ref())
        }
        None => true,
    }
}

fn fits_glossiness(
    attributes: &BTreeMap<Semantic, Index<kinds::Accessor>>,
    glossiness: Option<&extended::PbrSpecularGlossiness>,
) -> bool
    ensures { result ≡ holds_of (fits_glossiness attributes.now.entries)
        (option_copied glossiness.entry) }
{
    match glossiness {
        Some(it) => {
            fits_info(attributes, it.diffuse_texture.as_ref())
                && fits_info(attributes, it.specular_glossiness_texture.as_ref())
        }
        None => true,
    }
}

fn fits_transmission(
    attributes: &BTreeMap<Semantic, Index<kinds::Accessor>>,
    transmission: Option<&extended::Transmission>,
) -> bool
    ensures { result ≡ holds_of (fits_transmission attributes.now.entries)
        (option_copied transmission.entry) }
{
    match transmission {
        Some(it) => fits_info(attributes, it.transmission_texture.as_ref()),
        None => true,
    }
}

fn fits_volume(
    attributes: &BTreeMap<Semantic, Index<kinds::Accessor>>,
    volume: Option<&extended::Volume>,
) -> bool
    ensures { result
        ≡ holds_of (fits_volume attributes.now.entries) (option_copied volume.entry) }
{
    match volume {
        Some(it) => fits_info(attributes, it.thickness_texture.as_ref()),
        None => true,
    }
}

fn fits_specular(
    attributes: &BTreeMap<Semantic, Index<kinds::Accessor>>,
    specular: Option<&extended::Specular>,
) -> bool
    ensures { result ≡ holds_of (fits_specular attributes.now.entries)
        (option_copied specular.entry) }
{
    match specular {
        Some(it) => {
            fits_info(attributes, it.specular_texture.as_ref())
                && fits_info(attributes, it.specular_color_texture.as_ref())
        }
        None => true,
    }
}

fn fits_extensions(
    attributes: &BTreeMap<Semantic, Index<kinds::Accessor>>,
    extensions: Option<&extended::Material>,
) -> bool
    ensures { result ≡ holds_of (fits_extensions attributes.now.entries)
        (option_copied extensions.entry) }
{
    match extensions {
        Some(it) => {
            fits_glossiness(attributes, it.pbr_specular_glossiness.as_ref())
                && fits_transmission(attributes, it.transmission.as_ref())
                && fits_volume(attributes, it.volume.as_ref())
                && fits_specular(attributes, it.specular.as_ref())
        }
        None => true,
    }
}

fn fits_material(
    attributes: &BTreeMap<Semantic, Index<kinds::Accessor>>,
    material: &Material,
) -> bool
    ensures { result ≡ fits_material attributes.now.entries material.now }
{
    fits_metallic(attributes, lent(&material.pbr_metallic_roughness))
        && fits_normal(attributes, lent(&material.normal_texture))
        && fits_occlusion(attributes, lent(&material.occlusion_texture))
        && fits_info(attributes, material.emissive_texture.as_ref())
        && fits_extensions(attributes, lent(&material.extensions))
}
