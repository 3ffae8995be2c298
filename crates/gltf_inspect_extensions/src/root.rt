//! The extensions that are used in a whole document.
ghost use Rattle.std.specs.Prelude.{◌≡◌, OnOk};
ghost use Rattle.gltf_validation.specs.Locations.{places_of};
ghost use Rattle.gltf_inspect_meshes.specs.Names.{has_name};
ghost use Rattle.gltf_findings.specs.Checks.{told_after};
ghost use Rattle.gltf_inspect_extensions.specs.Documents.{root_extensions_checks};
ghost use Rattle.gltf_inspect_extensions.specs.Documents.{first_lists_checks, later_lists_checks};
ghost use Rattle.gltf_inspect_extensions.specs.Documents.{geometry_lists_checks};
ghost use Rattle.gltf_inspect_extensions.specs.Documents.{scene_lists_checks, picture_lists_checks};
ghost use Rattle.gltf_inspect_extensions.specs.Documents.{other_lists_checks, shape_lists_checks};
ghost use Rattle.gltf_inspect_extensions.specs.Documents.{undeclared_checks};

use crate::extended::{Extended, tell_extensions, tell_known, tell_list, tell_others};
use gltf_findings::findings::Findings;
use gltf_inspect_meshes::names::NameSet;
use gltf_json::extensions::root as extended;
use gltf_json::root::Root;
use gltf_validation::location::Location;
use std::alloc::{AllocError, Global};

/// Reports each extension that is used in a record of a document and not among its
/// `extensionsUsed`: in the asset, the document itself, and each element of its lists. What is in
/// records of which the reader keeps no extensions, as channels of animations, is not looked at.
/// Takes memory for the declared names and for a finding, and fails where there is none.
pub fn inspect_extensions(
    alloc: Global,
    root: &Root,
    location: &Location<'_>,
    findings: &mut Findings,
) -> Result<(), AllocError>
    ensures { OnOk result (findings.new ≡ told_after findings.old (places_of location.now)
        (undeclared_checks root.now)) }
{
    let used = NameSet::of(alloc, root.extensions_used.as_slice())?;
    let asset = Location::Member(location, "asset");
    root.asset.tell(&used, &asset, findings)?;
    tell_extensions(root.extensions.as_ref(), &used, location, findings)?;
    tell_first_lists(root, &used, location, findings)?;
    tell_later_lists(root, &used, location, findings)
}

impl Extended for extended::Root {
    ghost checks = { λ used r. root_extensions_checks used r };

    fn tell(
        &self,
        used: &NameSet,
        location: &Location<'_>,
        findings: &mut Findings,
    ) -> Result<(), AllocError> {
        let lights = &self.khr_lights_punctual;
        tell_known(lights, "KHR_lights_punctual", used, location, findings)?;
        let variants = &self.khr_materials_variants;
        tell_known(variants, "KHR_materials_variants", used, location, findings)?;
        tell_others(&self.others, used, location, findings)
    }
}

fn tell_first_lists(
    root: &Root,
    used: &NameSet,
    location: &Location<'_>,
    findings: &mut Findings,
) -> Result<(), AllocError>
    ensures { OnOk result (findings.new ≡ told_after findings.old (places_of location.now)
        (first_lists_checks (has_name used.now) root.now)) }
{
    tell_geometry_lists(root, used, location, findings)?;
    tell_scene_lists(root, used, location, findings)?;
    tell_picture_lists(root, used, location, findings)
}

fn tell_later_lists(
    root: &Root,
    used: &NameSet,
    location: &Location<'_>,
    findings: &mut Findings,
) -> Result<(), AllocError>
    ensures { OnOk result (findings.new ≡ told_after findings.old (places_of location.now)
        (later_lists_checks (has_name used.now) root.now)) }
{
    tell_other_lists(root, used, location, findings)?;
    tell_shape_lists(root, used, location, findings)
}

fn tell_geometry_lists(
    root: &Root,
    used: &NameSet,
    location: &Location<'_>,
    findings: &mut Findings,
) -> Result<(), AllocError>
    ensures { OnOk result (findings.new ≡ told_after findings.old (places_of location.now)
        (geometry_lists_checks (has_name used.now) root.now)) }
{
    let accessors = root.accessors.as_slice();
    tell_list(accessors, "accessors", used, location, findings)?;
    let buffers = root.buffers.as_slice();
    tell_list(buffers, "buffers", used, location, findings)?;
    let buffer_views = root.buffer_views.as_slice();
    tell_list(buffer_views, "bufferViews", used, location, findings)
}

fn tell_scene_lists(
    root: &Root,
    used: &NameSet,
    location: &Location<'_>,
    findings: &mut Findings,
) -> Result<(), AllocError>
    ensures { OnOk result (findings.new ≡ told_after findings.old (places_of location.now)
        (scene_lists_checks (has_name used.now) root.now)) }
{
    let nodes = root.nodes.as_slice();
    tell_list(nodes, "nodes", used, location, findings)?;
    let scenes = root.scenes.as_slice();
    tell_list(scenes, "scenes", used, location, findings)?;
    let skins = root.skins.as_slice();
    tell_list(skins, "skins", used, location, findings)
}

fn tell_picture_lists(
    root: &Root,
    used: &NameSet,
    location: &Location<'_>,
    findings: &mut Findings,
) -> Result<(), AllocError>
    ensures { OnOk result (findings.new ≡ told_after findings.old (places_of location.now)
        (picture_lists_checks (has_name used.now) root.now)) }
{
    let images = root.images.as_slice();
    tell_list(images, "images", used, location, findings)?;
    let samplers = root.samplers.as_slice();
    tell_list(samplers, "samplers", used, location, findings)?;
    let textures = root.textures.as_slice();
    tell_list(textures, "textures", used, location, findings)
}

fn tell_other_lists(
    root: &Root,
    used: &NameSet,
    location: &Location<'_>,
    findings: &mut Findings,
) -> Result<(), AllocError>
    ensures { OnOk result (findings.new ≡ told_after findings.old (places_of location.now)
        (other_lists_checks (has_name used.now) root.now)) }
{
    let animations = root.animations.as_slice();
    tell_list(animations, "animations", used, location, findings)?;
    let cameras = root.cameras.as_slice();
    tell_list(cameras, "cameras", used, location, findings)
}

fn tell_shape_lists(
    root: &Root,
    used: &NameSet,
    location: &Location<'_>,
    findings: &mut Findings,
) -> Result<(), AllocError>
    ensures { OnOk result (findings.new ≡ told_after findings.old (places_of location.now)
        (shape_lists_checks (has_name used.now) root.now)) }
{
    let materials = root.materials.as_slice();
    tell_list(materials, "materials", used, location, findings)?;
    let meshes = root.meshes.as_slice();
    tell_list(meshes, "meshes", used, location, findings)
}
