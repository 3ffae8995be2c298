//! How an extension is read, and why there is none.
ghost use Rattle.std.specs.Prelude.{◌≡◌};
ghost use Rattle.serde_json.specs.View.{view};
ghost use Rattle.gltf_c_look.specs.Json.{extension_at};
ghost use Rattle.gltf_c_extensions.specs.Reading.{IsValid, IsRead, IsShown};

use gltf_c_look::json::extension_at;
use gltf_c_scene::kind::Kind;
use gltf_json::Root;
use gltf_json_record::error::Error;
use gltf_json_record::read as record;
use gltf_json_record::read::FromValue;
use gltf_validation::counts::Counts;
use gltf_validation::validate::{Validate, faults_of};
use serde_json::Value;
use std::alloc::Global;

/// Why there is no answer.
#[derive(Clone, Copy, Debug, PartialEq, Eq)]
pub enum Missing {
    /// There is no such record, or it has no such extension.
    Absent,
    /// The extension does not fit its table, or breaks its rules.
    Bad,
    /// There was not enough memory.
    Memory,
}

/// The reading of a value whose rules hold in a document.
fn read_valid<R: FromValue + Validate>(
    alloc: Global,
    root: &Root,
    value: &Value,
) -> Result<R, Missing>
    ensures { IsValid R.kind R.rules root.now (view value.now) result }
{
    let read: R = match record::read(alloc, value) {
        Ok(read) => read,
        Err(Error::Memory) => return Err(Missing::Memory),
        Err(_) => return Err(Missing::Bad),
    };
    match faults_of(alloc, &read, &Counts::of(root)) {
        Ok(faults) => {
            if faults.is_empty() {
                Ok(read)
            } else {
                Err(Missing::Bad)
            }
        }
        Err(_) => Err(Missing::Memory),
    }
}

/// The reading of an extension of the record of a kind at an index.
fn read_at<R: FromValue + Validate>(
    alloc: Global,
    root: &Root,
    kind: Kind,
    index: usize,
    name: &str,
) -> Result<R, Missing>
    ensures { IsRead R.kind R.rules root.now (extension_at name.now kind index root.now) result }
{
    match extension_at(root, kind, index, name) {
        Some(value) => read_valid(alloc, root, value),
        None => Err(Missing::Absent),
    }
}

/// A struct that C sees of a reading.
pub(crate) trait ShownOf<R> {
    /// The struct of a reading.
    ghost shown: { R → Self };

    fn shown_of(it: &R) -> Self
        ensures { result ≡ shown it.now };
}

/// What C sees of an extension of the record of a kind at an index.
pub(crate) fn shown_at<R: FromValue + Validate, S: ShownOf<R>>(
    alloc: Global,
    root: &Root,
    kind: Kind,
    index: usize,
    name: &str,
) -> Result<S, Missing>
    ensures { IsShown R.kind R.rules S.shown kind name.now index root.now result }
{
    match read_at(alloc, root, kind, index, name) {
        Ok(it) => Ok(S::shown_of(&it)),
        Err(missing) => Err(missing),
    }
}
