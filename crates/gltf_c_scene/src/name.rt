//! The names that records have.
ghost use Rattle.std.specs.Prelude.{◌≡◌};
ghost use Rattle.std.specs.Option.{option_copied};
ghost use Rattle.gltf_c_scene.specs.Names.{record_name, name_of};

use crate::kind::{Kind, lights, variants};
use gltf_json::Root;

/// The name of a record of the kind of a number, where it has one. Of the two lists of extensions
/// it is the element itself.
pub fn name(root: &Root, kind: u32, index: usize) -> Option<&str>
    ensures { option_copied result ≡ name_of kind index root.now }
{
    record_name(root, Kind::of(kind)?, index)
}

/// The name of a record of a kind.
fn record_name(root: &Root, kind: Kind, index: usize) -> Option<&str>
    ensures { option_copied result ≡ record_name kind index root.now }
{
    match kind {
        Kind::Buffers => root.buffers.get(index)?.name.as_deref(),
        Kind::BufferViews => root.buffer_views.get(index)?.name.as_deref(),
        Kind::Accessors => root.accessors.get(index)?.name.as_deref(),
        Kind::Meshes => root.meshes.get(index)?.name.as_deref(),
        Kind::Nodes => root.nodes.get(index)?.name.as_deref(),
        Kind::Materials => root.materials.get(index)?.name.as_deref(),
        Kind::Scenes => root.scenes.get(index)?.name.as_deref(),
        Kind::Skins => root.skins.get(index)?.name.as_deref(),
        Kind::Animations => root.animations.get(index)?.name.as_deref(),
        Kind::Images => root.images.get(index)?.name.as_deref(),
        Kind::Textures => root.textures.get(index)?.name.as_deref(),
        Kind::Samplers => root.samplers.get(index)?.name.as_deref(),
        Kind::Cameras => root.cameras.get(index)?.name.as_deref(),
        Kind::Lights => lights(root).get(index)?.name.as_deref(),
        Kind::Variants => Some(variants(root).get(index)?.name.as_str()),
        Kind::ExtensionsUsed => Some(root.extensions_used.get(index)?.as_str()),
        Kind::ExtensionsRequired => Some(root.extensions_required.get(index)?.as_str()),
        Kind::Asset | Kind::Root => None,
    }
}
