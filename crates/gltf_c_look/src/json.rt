//! What records have besides the members that are structs here: `extras` and extensions, as JSON.
ghost use Rattle.std.specs.Prelude.{◌≡◌};
ghost use Rattle.std.specs.Option.{option_copied};
ghost use Rattle.gltf_handles.specs.Members.{unknown_extensions};
ghost use Rattle.gltf_c_look.specs.Json.{place_of, extras_of, extension_of, extension_at};
ghost use Rattle.gltf_c_look.specs.Json.{others_at, extras_at};

use gltf_c_scene::kind::{Kind, lights};
use gltf_json::boxed::{Boxed, lent};
use gltf_json::{Map, Root, Value};
use gltf_json_record::extensions::Others;

/// Where a record is: among all of a kind, or among the parts of another record.
#[derive(Clone, Copy, Debug, PartialEq, Eq)]
pub enum Place {
    /// At an index of a kind.
    Record(Kind),
    /// A primitive of a mesh.
    Primitive,
    /// A channel of an animation.
    Channel,
    /// A sampler of an animation.
    AnimationSampler,
}

impl Place {
    /// The place of a number, where there is one.
    pub fn of(number: u32) -> Option<Place>
        ensures { result ≡ place_of number }
    {
        match number {
            19 => Some(Place::Primitive),
            20 => Some(Place::Channel),
            21 => Some(Place::AnimationSampler),
            _ => match Kind::of(number) {
                Some(kind) => Some(Place::Record(kind)),
                None => None,
            },
        }
    }
}

/// The `extras` of a record, where it has some. `part` is the number of a primitive, a channel or a
/// sampler in the record at `index`, and of no matter for the other kinds.
pub fn extras(root: &Root, kind: u32, index: usize, part: usize) -> Option<&Value>
    ensures { option_copied result ≡ extras_of kind index part root.now }
{
    match Place::of(kind)? {
        Place::Record(kind) => extras_at(root, kind, index),
        Place::Primitive => lent(&root.meshes.get(index)?.primitives.get(part)?.extras),
        Place::Channel => lent(&root.animations.get(index)?.channels.get(part)?.extras),
        Place::AnimationSampler => lent(&root.animations.get(index)?.samplers.get(part)?.extras),
    }
}

/// The `extras` of the record of a kind at an index.
fn extras_at(root: &Root, kind: Kind, index: usize) -> Option<&Value>
    ensures { option_copied result ≡ extras_at kind index root.now }
{
    match kind {
        Kind::Buffers => lent(&root.buffers.get(index)?.extras),
        Kind::BufferViews => lent(&root.buffer_views.get(index)?.extras),
        Kind::Accessors => lent(&root.accessors.get(index)?.extras),
        Kind::Meshes => lent(&root.meshes.get(index)?.extras),
        Kind::Nodes => lent(&root.nodes.get(index)?.extras),
        Kind::Materials => lent(&root.materials.get(index)?.extras),
        Kind::Scenes => lent(&root.scenes.get(index)?.extras),
        Kind::Skins => lent(&root.skins.get(index)?.extras),
        Kind::Animations => lent(&root.animations.get(index)?.extras),
        Kind::Images => lent(&root.images.get(index)?.extras),
        Kind::Textures => lent(&root.textures.get(index)?.extras),
        Kind::Samplers => lent(&root.samplers.get(index)?.extras),
        Kind::Cameras => lent(&root.cameras.get(index)?.extras),
        Kind::Lights => lent(&lights(root).get(index)?.extras),
        Kind::Variants | Kind::ExtensionsUsed | Kind::ExtensionsRequired => None,
        Kind::Asset if index == 0 => lent(&root.asset.extras),
        Kind::Root if index == 0 => lent(&root.extras),
        Kind::Asset | Kind::Root => None,
    }
}

/// What a record has of an extension that the loader keeps as JSON, by the name of the extension.
/// The extensions that the loader reads are in the structs.
pub fn extension<'a>(
    root: &'a Root,
    kind: u32,
    index: usize,
    part: usize,
    name: &str,
) -> Option<&'a Value>
    ensures { option_copied result ≡ extension_of name.now kind index part root.now }
{
    let others = match Place::of(kind)? {
        Place::Record(kind) => others_at(root, kind, index)?,
        Place::Primitive => {
            let primitive = root.meshes.get(index)?.primitives.get(part)?;
            &lent(&primitive.extensions)?.others
        }
        Place::Channel | Place::AnimationSampler => return None,
    };
    others.get(name)
}

/// The same of the record of a kind at an index.
pub fn extension_at<'a>(root: &'a Root, kind: Kind, index: usize, name: &str) -> Option<&'a Value>
    ensures { option_copied result ≡ extension_at name.now kind index root.now }
{
    others_at(root, kind, index)?.get(name)
}

/// The extensions of the record of a kind at an index that the loader keeps as JSON.
fn others_at(root: &Root, kind: Kind, index: usize) -> Option<&Map<String, Value>>
    ensures { option_copied result ≡ others_at kind index root.now }
{
    match kind {
        Kind::Buffers => others(&root.buffers.get(index)?.extensions),
        Kind::BufferViews => others(&root.buffer_views.get(index)?.extensions),
        Kind::Accessors => others(&root.accessors.get(index)?.extensions),
        Kind::Meshes => others(&root.meshes.get(index)?.extensions),
        Kind::Nodes => Some(&lent(&root.nodes.get(index)?.extensions)?.others),
        Kind::Materials => Some(&lent(&root.materials.get(index)?.extensions)?.others),
        Kind::Scenes => others(&root.scenes.get(index)?.extensions),
        Kind::Skins => others(&root.skins.get(index)?.extensions),
        Kind::Animations => others(&root.animations.get(index)?.extensions),
        Kind::Images => others(&root.images.get(index)?.extensions),
        Kind::Textures => others(&root.textures.get(index)?.extensions),
        Kind::Samplers => others(&root.samplers.get(index)?.extensions),
        Kind::Cameras => others(&root.cameras.get(index)?.extensions),
        Kind::Lights | Kind::Variants | Kind::ExtensionsUsed | Kind::ExtensionsRequired => None,
        Kind::Asset if index == 0 => others(&root.asset.extensions),
        Kind::Root if index == 0 => Some(&root.extensions.as_ref()?.others),
        Kind::Asset | Kind::Root => None,
    }
}

/// The extensions of a record that knows none.
fn others(extensions: &Option<Boxed<Others>>) -> Option<&Map<String, Value>>
    ensures { option_copied result ≡ unknown_extensions extensions.now }
{
    Some(&lent(extensions)?.others)
}
