//! Documents, read from JSON values and from JSON text.
ghost use Rattle.std.specs.Prelude.{◌≡◌, ◌≢◌, IfOk, IfErr};
ghost use Rattle.serde_json.specs.Data.{Data};
ghost use Rattle.serde_json.specs.View.{view};
ghost use Rattle.gltf_json_record.specs.Fault.{Tells};
ghost use Rattle.gltf_json_record.specs.declared.error.Error.TheVariants.{Memory};
ghost use Rattle.gltf_json.specs.Documents.{root};
ghost use Rattle.gltf_json.specs.Reading.{Reads, Refuses};
ghost use Rattle.gltf_json.specs.declared.root.Root.{Root};

use gltf_json::laws::two_readings_of_a_text_are_alike;
use gltf_json::root::Root;
use gltf_json_pull::text::pull;
use gltf_json_record::error::Error;
use gltf_json_record::read::read;
use serde_json::Value;
use std::alloc::Global;

/// The document of a JSON value (glTF 2.0, section 5.17, "glTF"). It is answered exactly where the
/// value fits the tables of the format, out of memory aside; any other document of the value shows
/// the same. Otherwise the answer is a `Record` with a fault that stands in the value at its path,
/// and the value is no document; or `Memory`.
#[tactic(auto, using(crate::proofs::Readings::read_alike, crate::proofs::Readings::refused_unread))]
pub fn from_value(alloc: Global, value: &Value) -> Result<Root, Error>
    ensures ok { IfOk result (root.is (view value.now)) }
    ensures alike { IfOk result (λ r. (s : Root) → root.is (view value.now) s
        → root.content s ≡ root.content r) }
    ensures fits { IfOk result (λ _. root.fits (view value.now)) }
    ensures fault { IfErr result (Tells (root.fault (view value.now))) }
    ensures refused { IfErr result (λ e. e ≢ Memory → root.fits (view value.now) → ⊥) }
    ensures unread { IfErr result (λ e. e ≢ Memory
        → (r : Root) → root.is (view value.now) r → ⊥) }
{
    read(alloc, value)
}

/// The document of a JSON text (glTF 2.0, section 5.17, "glTF"): that of the value which
/// `serde_json` reads from it. It is read in one pass over the text, with no tree of values, where
/// that gives a document; every refusal comes from the tree. `Text` is answered only where the
/// bytes are no JSON text in UTF-8; `Record` with a fault that stands in the value at its path; and
/// `Memory` where there was not enough, in `serde_json` or here.
pub fn from_slice(alloc: Global, bytes: &[u8]) -> Result<Root, Error>
    ensures ok { IfOk result (λ r. (d : Data) × Reads bytes.now d × root.is d r) }
    ensures alike { IfOk result (λ r. (d : Data) (s : Root) → Reads bytes.now d → root.is d s
        → root.content s ≡ root.content r) }
    ensures refused { IfErr result (Refuses bytes.now) }
    ensures exact { IfErr result (λ e. e ≢ Memory
        → (d : Data) → Reads bytes.now d → root.fits d → ⊥) }
{
    if let Some(document) = pull::<Root>(alloc, bytes) {
        // A law that the proof stands on; the call does nothing.
        two_readings_of_a_text_are_alike();
        return Ok(document);
    }
    let value = Value::from_slice(alloc, bytes)?;
    from_value(alloc, &value)
}
