//! What is mended in a document.
ghost use Rattle.std.specs.Prelude.{◌≡◌, IfOk, map};
ghost use Rattle.serde_json.specs.View.{view};
ghost use Rattle.gltf_mend.specs.Mended.{mended, with_channels_mended, with_meshes_mended};
ghost use Rattle.gltf_mend.specs.Mended.{with_textures_mended};

use crate::attributes::WithAttributes;
use crate::channels::WithNodes;
use crate::edit::{At, Each, changed};
use crate::textures::Sourced;
use serde_json::Value;
use std::alloc::{AllocError, Global};

/// What is mended in a document, at the caller's choice.
#[derive(Clone, Copy, Debug)]
pub struct Mends<'a> {
    /// Channels that name no node are left out, which the standard lets a loader ignore (glTF 2.0,
    /// section 5.7.1, `animation.channel.target.node`). An extension may say what they animate, as
    /// `KHR_animation_pointer` does.
    pub skip_channels_without_node: bool,
    /// Attributes are left out whose names neither the standard has nor begin with an underscore
    /// (section 3.7.2.1, "Meshes: Overview"), as `position` and `TEXCOORD`. The rules refuse such
    /// names.
    pub skip_unknown_attributes: bool,
    /// The names of extensions that say which image a texture has, the preferred first. A texture
    /// without `source` (section 5.29.2) takes the `source` of the first of these that has one, as
    /// of `KHR_texture_basisu` or `EXT_texture_webp`.
    pub texture_sources: &'a [&'a str],
}

/// The value of a document as it is mended. All else of it stays as it is.
pub fn mended(alloc: Global, document: Value, mends: &Mends<'_>) -> Result<Value, AllocError>
    ensures { IfOk result (λ v. view v ≡ mended mends.now (view document)) }
{
    let document = with_channels_mended(alloc, document, mends.skip_channels_without_node)?;
    let document = with_meshes_mended(alloc, document, mends.skip_unknown_attributes)?;
    with_textures_mended(alloc, document, mends.texture_sources)
}

fn with_channels_mended(alloc: Global, document: Value, skip: bool) -> Result<Value, AllocError>
    ensures { IfOk result (λ v. view v ≡ with_channels_mended skip (view document)) }
{
    if skip {
        let animation = At {
            name: "channels",
            edit: WithNodes,
        };
        changed(alloc, document, "animations", &Each(animation))
    } else {
        Ok(document)
    }
}

fn with_meshes_mended(alloc: Global, document: Value, skip: bool) -> Result<Value, AllocError>
    ensures { IfOk result (λ v. view v ≡ with_meshes_mended skip (view document)) }
{
    if skip {
        let primitive = At {
            name: "attributes",
            edit: WithAttributes,
        };
        let mesh = At {
            name: "primitives",
            edit: Each(primitive),
        };
        changed(alloc, document, "meshes", &Each(mesh))
    } else {
        Ok(document)
    }
}

fn with_textures_mended(alloc: Global, document: Value, names: &[&str]) -> Result<Value, AllocError>
    ensures { IfOk result (λ v. view v
        ≡ with_textures_mended (map (λ n. n.now) names.now) (view document)) }
{
    changed(alloc, document, "textures", &Each(Sourced { names }))
}
