//! The indices in the whole document (glTF 2.0, section 5.17).
ghost use Rattle.std.specs.Prelude.{◌≡◌, OnOk};
ghost use Rattle.gltf_validation.specs.Locations.{places_of};
ghost use Rattle.gltf_uses.specs.Documents.{first_members_uses, later_members_uses, root_uses};
ghost use Rattle.gltf_uses.specs.Uses.{after_uses};

use crate::sink::Sink;
use crate::visit::{Visit, members};
use gltf_json::root::Root;
use gltf_validation::location::Location;
use std::alloc::AllocError;

impl Visit for Root {
    ghost uses = { λ r. root_uses r };

    fn visit<S: Sink>(&self, location: &Location<'_>, sink: &mut S) -> Result<(), AllocError> {
        first_members(self, location, sink)?;
        later_members(self, location, sink)
    }
}

fn first_members<S: Sink>(
    root: &Root,
    location: &Location<'_>,
    sink: &mut S,
) -> Result<(), AllocError>
    ensures { OnOk result (sink.new
        ≡ after_uses S.after sink.old (places_of location.now) (first_members_uses root.now)) }
{
    members!(root, location, sink; {
        accessors: "accessors",
        animations: "animations",
        buffer_views: "bufferViews",
        images: "images",
        materials: "materials",
        meshes: "meshes",
        nodes: "nodes",
    })
}

fn later_members<S: Sink>(
    root: &Root,
    location: &Location<'_>,
    sink: &mut S,
) -> Result<(), AllocError>
    ensures { OnOk result (sink.new
        ≡ after_uses S.after sink.old (places_of location.now) (later_members_uses root.now)) }
{
    members!(root, location, sink; {
        scene: "scene",
        scenes: "scenes",
        skins: "skins",
        textures: "textures",
    })
}
