//! Kinds of records, by the numbers that C has for them, and how many there are of each.
ghost use Rattle.std.specs.Prelude.{◌≡◌};
ghost use Rattle.gltf_validation.specs.Lights.{lights_of};
ghost use Rattle.gltf_rules.specs.Extensions.{variants_of};
ghost use Rattle.gltf_c_scene.specs.Kinds.{kind_of, count_of, record_count};

use gltf_json::Root;
use gltf_json::extensions::scene::khr_lights_punctual::Light;
use gltf_json::extensions::scene::khr_materials_variants::Variant;

/// A kind of records.
#[derive(Clone, Copy, Debug, PartialEq, Eq)]
pub enum Kind {
    /// Buffers (glTF 2.0, section 5.10).
    Buffers,
    /// Views of buffers (section 5.11).
    BufferViews,
    /// Accessors (section 5.1).
    Accessors,
    /// Meshes (section 5.23).
    Meshes,
    /// Nodes (section 5.25).
    Nodes,
    /// Materials (section 5.19).
    Materials,
    /// Scenes (section 5.27).
    Scenes,
    /// Skins (section 5.28).
    Skins,
    /// Animations (section 5.5).
    Animations,
    /// Images (section 5.18).
    Images,
    /// Textures (section 5.29).
    Textures,
    /// Samplers of textures (section 5.26).
    Samplers,
    /// Cameras (section 5.12).
    Cameras,
    /// Lights (`KHR_lights_punctual`).
    Lights,
    /// Variants of materials (`KHR_materials_variants`).
    Variants,
    /// The names of the extensions that the document uses (section 3.12).
    ExtensionsUsed,
    /// The names of the extensions that it requires (section 3.12).
    ExtensionsRequired,
    /// `asset`, of which there is one (section 5.9).
    Asset,
    /// The document itself (section 5.17).
    Root,
}

impl Kind {
    /// The kind of a number, where there is one.
    pub fn of(number: u32) -> Option<Kind>
        ensures { result ≡ kind_of number }
    {
        match number {
            0 => Some(Kind::Buffers),
            1 => Some(Kind::BufferViews),
            2 => Some(Kind::Accessors),
            3 => Some(Kind::Meshes),
            4 => Some(Kind::Nodes),
            5 => Some(Kind::Materials),
            6 => Some(Kind::Scenes),
            7 => Some(Kind::Skins),
            8 => Some(Kind::Animations),
            9 => Some(Kind::Images),
            10 => Some(Kind::Textures),
            11 => Some(Kind::Samplers),
            12 => Some(Kind::Cameras),
            13 => Some(Kind::Lights),
            14 => Some(Kind::Variants),
            15 => Some(Kind::ExtensionsUsed),
            16 => Some(Kind::ExtensionsRequired),
            17 => Some(Kind::Asset),
            18 => Some(Kind::Root),
            _ => None,
        }
    }
}

/// How many records there are of the kind of a number; 0 where the number has no kind.
pub fn count(root: &Root, kind: u32) -> usize
    ensures { result ≡ count_of kind root.now }
{
    match Kind::of(kind) {
        Some(kind) => record_count(root, kind),
        None => 0,
    }
}

/// How many records of a kind there are.
fn record_count(root: &Root, kind: Kind) -> usize
    ensures { result ≡ record_count kind root.now }
{
    match kind {
        Kind::Buffers => root.buffers.len(),
        Kind::BufferViews => root.buffer_views.len(),
        Kind::Accessors => root.accessors.len(),
        Kind::Meshes => root.meshes.len(),
        Kind::Nodes => root.nodes.len(),
        Kind::Materials => root.materials.len(),
        Kind::Scenes => root.scenes.len(),
        Kind::Skins => root.skins.len(),
        Kind::Animations => root.animations.len(),
        Kind::Images => root.images.len(),
        Kind::Textures => root.textures.len(),
        Kind::Samplers => root.samplers.len(),
        Kind::Cameras => root.cameras.len(),
        Kind::Lights => lights(root).len(),
        Kind::Variants => variants(root).len(),
        Kind::ExtensionsUsed => root.extensions_used.len(),
        Kind::ExtensionsRequired => root.extensions_required.len(),
        Kind::Asset | Kind::Root => 1,
    }
}

/// The lights of a document; none where it has not that extension.
pub fn lights(root: &Root) -> &[Light]
    ensures { result.now ≡ lights_of root.now.extensions }
{
    match &root.extensions {
        Some(extensions) => match &extensions.khr_lights_punctual {
            Some(extension) => extension.lights.as_slice(),
            None => &[],
        },
        None => &[],
    }
}

/// The variants of a document; none where it has not that extension.
pub fn variants(root: &Root) -> &[Variant]
    ensures { result.now ≡ variants_of root.now.extensions }
{
    match &root.extensions {
        Some(extensions) => match &extensions.khr_materials_variants {
            Some(extension) => extension.variants.as_slice(),
            None => &[],
        },
        None => &[],
    }
}
