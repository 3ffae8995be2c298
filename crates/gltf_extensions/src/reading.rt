//! How extensions are read.
ghost use Rattle.std.specs.Prelude.{◌≡◌, IfOk, IfErr, MatchResult, option_map};
ghost use Rattle.std.specs.Option.{option_copied};
ghost use Rattle.serde_json.specs.View.{view};
ghost use Rattle.gltf_validation.specs.Documents.{counts_of};
ghost use Rattle.gltf_validation.specs.Rules.{Hold};
ghost use Rattle.gltf_extensions.specs.Faults.{IsFault};
ghost use Rattle.gltf_extensions.specs.Handles.{IsHandleOf, IsRead};

use crate::fault::{ExtensionFault, of_record};
use crate::handle::Handle;
use gltf_json::kinds;
use gltf_json_record::read::FromValue;
use gltf_rules::Records;
use gltf_validation::counts::Counts;
use gltf_validation::validate::{Validate, faults_of};
use serde_json::Value;
use std::alloc::Global;

/// The lengths of the lists of a document.
fn counts<D: Records>(document: &D) -> Counts
    ensures { result ≡ counts_of (D.root document.now) }
{
    Counts {
        accessors: document.len::<kinds::Accessor>(),
        animation_samplers: 0,
        buffers: document.len::<kinds::Buffer>(),
        cameras: document.len::<kinds::Camera>(),
        images: document.len::<kinds::Image>(),
        lights: document.len::<kinds::Light>(),
        materials: document.len::<kinds::Material>(),
        meshes: document.len::<kinds::Mesh>(),
        nodes: document.len::<kinds::Node>(),
        samplers: document.len::<kinds::Sampler>(),
        scenes: document.len::<kinds::Scene>(),
        skins: document.len::<kinds::Skin>(),
        textures: document.len::<kinds::Texture>(),
        views: document.len::<kinds::View>(),
    }
}

/// The handle of the record that a value is, in a document; or the fault of the value. A record of
/// your own that is `FromValue` and `Validate` is read so too.
pub fn read<'a, R: FromValue + Validate + Copy, D: Records>(
    alloc: Global,
    document: &'a D,
    value: &Value,
) -> Result<Handle<'a, R, D>, ExtensionFault>
    ensures { MatchResult result
        (IsHandleOf R.kind (D.root document.now) (view value.now))
        (IsFault R.kind R.rules (D.root document.now) (view value.now)) }
{
    let json = match R::from_value(alloc, value) {
        Ok(json) => json,
        Err(error) => return Err(of_record(error)),
    };
    let faults = faults_of(alloc, &json, &counts(document))?;
    if faults.is_empty() {
        Ok(Handle { document, json })
    } else {
        Err(ExtensionFault::Rules(faults))
    }
}

/// The same of an extension that may be absent, as `extension_value` gives it.
pub fn read_handle<'a, R: FromValue + Validate + Copy, D: Records>(
    alloc: Global,
    document: &'a D,
    value: Option<&Value>,
) -> Option<Result<Handle<'a, R, D>, ExtensionFault>>
    ensures { IsRead R.kind R.rules (D.root document.now) (option_copied value.entry) result }
{
    Some(read(alloc, document, value?))
}
