//! The records of a file as they are mended.
ghost use Rattle.std.specs.Prelude.{◌≡◌, ◌≢◌, IfOk, IfErr};
ghost use Rattle.std.specs.Cow.{cow_slice_items};
ghost use Rattle.gltf_glb.specs.declared.error.Error.TheVariants.{Memory};
ghost use Rattle.serde_json.specs.Data.{Data};
ghost use Rattle.gltf_json.specs.Documents.{root};
ghost use Rattle.gltf_json.specs.Reading.{Reads};
ghost use Rattle.gltf_json.specs.declared.root.Root.{Root};
ghost use Rattle.gltf_json_record.specs.declared.error.Error.TheVariants.{Memory as TextMemory};
ghost use Rattle.gltf.specs.Errors.{OutOfMemoryOr};
ghost use Rattle.gltf.specs.Shown.{blob_bytes};
ghost use Rattle.gltf_mend.specs.Mended.{mended};
ghost use Rattle.gltf_lenient.specs.Import.{IsMendedDocument, IsOnlyMendedDocument};
ghost use Rattle.gltf_lenient.specs.Import.{IsNoMendedDocument, RefusesMendedRecords, RefusesValue};

use gltf::{Document, RawGltf, Result, owned_blob, text_and_blob_of};
use gltf_json::Error;
use gltf_json::root::Root;
use gltf_json_deserialize::deserialize::from_value;
use gltf_mend::{Mends, mended};
use serde_json::Value;
use std::alloc::Global;
use std::borrow::CowSlice;

/// The records of a file as they are mended, and its blob, owned.
pub(crate) fn raw_of(alloc: Global, bytes: CowSlice<'_, u8>, mends: &Mends<'_>) -> Result<RawGltf>
    ensures document { IfOk result (λ raw. IsMendedDocument mends.now
        (cow_slice_items bytes.entry) raw.document (blob_bytes raw.blob)) }
    ensures only { IfOk result (λ raw. IsOnlyMendedDocument mends.now
        (cow_slice_items bytes.entry) raw.document (blob_bytes raw.blob)) }
    ensures refused { IfErr result
        (OutOfMemoryOr (RefusesMendedRecords mends.now (cow_slice_items bytes.entry))) }
    ensures exact { IfErr result (λ e. e ≢ Memory
        → IsNoMendedDocument mends.now (cow_slice_items bytes.entry)) }
{
    let (text, blob) = text_and_blob_of(alloc, bytes)?;
    let root = root_of(alloc, text.as_slice(), mends)?;
    let blob = owned_blob(alloc, blob)?;
    Ok(RawGltf {
        document: Document::from_json_without_validation(root),
        blob,
    })
}

/// The document of a JSON text as it is mended.
fn root_of(alloc: Global, text: &[u8], mends: &Mends<'_>) -> std::result::Result<Root, Error>
    ensures ok { IfOk result (λ r. (d : Data) × Reads text.now d
        × root.is (mended mends.now d) r) }
    ensures alike { IfOk result (λ r. (d : Data) (s : Root) → Reads text.now d
        → root.is (mended mends.now d) s → root.content s ≡ root.content r) }
    ensures refused { IfErr result (RefusesValue mends.now text.now) }
    ensures exact { IfErr result (λ e. e ≢ TextMemory
        → (d : Data) (s : Root) → Reads text.now d → root.is (mended mends.now d) s → ⊥) }
{
    let value = Value::from_slice(alloc, text)?;
    let value = mended(alloc, value, mends)?;
    from_value(alloc, &value)
}
