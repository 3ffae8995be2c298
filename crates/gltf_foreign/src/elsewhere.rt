//! The members that no conversion moves.
ghost use Rattle.std.specs.Prelude.{◌≡◌, IfOk, filter, not};
ghost use Rattle.serde_json.specs.View.{view};
ghost use Rattle.gltf_foreign.specs.Place.{places_view, step_view, steps_view};
ghost use Rattle.gltf_foreign.specs.Walk.{named_elsewhere, is_moved, is_said, is_of_view};
ghost use Rattle.gltf_foreign.specs.Walk.{is_compression_step};

use crate::place::{Place, Step, is_index, is_name};
use crate::walk::{Scope, found};
use serde_json::Value;
use std::alloc::{AllocError, Global};

/// The members `buffer`, `buffers`, `uri` and `uris` that stand in the object of an extension, at
/// any depth of a document, with their places, in the order of the document. A member that is null
/// is absent. Not among them is the member `buffer` of what `EXT_meshopt_compression` or
/// `KHR_meshopt_compression` says of a view, which a conversion moves.
pub fn named_elsewhere(alloc: Global, document: &Value) -> Result<Vec<Place>, AllocError>
    ensures { IfOk result (λ all. places_view all.items
        ≡ named_elsewhere (view document.now)) }
{
    let all = found(alloc, document, Scope::Outside)?;
    let mut left = Vec::new(alloc);
    'places: for place in all {
        if !is_moved(place.steps.as_slice()) {
            left.push(place)?;
        }
    }
    Ok(left)
}

/// Whether these steps lead to the buffer of what is compressed of a view.
fn is_moved(steps: &[Step]) -> bool
    ensures { result ≡ is_moved (steps_view steps.now) }
{
    match steps {
        [buffer, meshopt, extensions, view, views] => {
            is_said(buffer, meshopt) && is_of_view(extensions, view, views)
        }
        _ => false,
    }
}

/// Whether these lead to the buffer of what is compressed.
fn is_said(buffer: &Step, meshopt: &Step) -> bool
    ensures { result ≡ is_said (step_view buffer.now) (step_view meshopt.now) }
{
    is_name(buffer, "buffer") && is_compression(meshopt)
}

/// Whether these lead to the extensions of a view.
fn is_of_view(extensions: &Step, view: &Step, views: &Step) -> bool
    ensures { result ≡ is_of_view (step_view extensions.now) (step_view view.now)
        (step_view views.now) }
{
    is_name(extensions, "extensions") && is_index(view) && is_name(views, "bufferViews")
}

/// Whether a step leads to what is compressed of a view.
fn is_compression(step: &Step) -> bool
    ensures { result ≡ is_compression_step (step_view step.now) }
{
    is_name(step, "EXT_meshopt_compression") || is_name(step, "KHR_meshopt_compression")
}
