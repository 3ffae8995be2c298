//! Whether bytes that were made are accepted.
ghost use Rattle.std.specs.Prelude.{◌≡◌, ℕ, List, true, map, length, OnOk, IfOk, IfErr};
ghost use Rattle.gltf_bundle.specs.Bundle.{IsAcceptedAs};
ghost use Rattle.gltf_buffers.specs.Buffers.{AreBytes, source_of};
ghost use Rattle.gltf_buffers.specs.Names.{Nowhere};
ghost use Rattle.gltf_glb.specs.Glb.{items_of};
ghost use Rattle.gltf.specs.Errors.{OutOfMemoryOr};
ghost use Rattle.gltf_required.specs.Import.{RefusesImportAs};

use gltf::owned_blob;
use gltf_buffers::{NoNames, read_buffers};
use gltf_glb::Result;
use gltf_json::buffer::Buffer;
use gltf_required::{Required, document_as};
use std::alloc::Global;
use std::borrow::CowSlice;

/// Tries bytes as [`gltf::import_slice`] does, with the same error, but for the required extensions
/// that pass and for what is mended. Where the one buffer is the blob, nothing but its length
/// decides, so that it is not copied.
pub(crate) fn tried(alloc: Global, bytes: &[u8], required: &Required<'_>) -> Result<()>
    ensures accepted { OnOk result (IsAcceptedAs required.now bytes.now) }
    ensures refused { IfErr result
        (OutOfMemoryOr (RefusesImportAs required.now Nowhere bytes.now)) }
{
    let (document, blob) = document_as(alloc, bytes, required)?;
    let buffers = document.as_json().buffers.as_slice();
    if is_the_one(buffers, &blob) {
        return Ok(());
    }
    let blob = owned_blob(alloc, blob)?;
    read_buffers(alloc, buffers, &mut NoNames, blob)?;
    Ok(())
}

/// Whether there is one buffer, which has no URI and no more bytes than the blob.
fn is_the_one(buffers: &[Buffer], blob: &Option<CowSlice<'_, u8>>) -> bool
    ensures { result ≡ true → (all : List (List ℕ)) × AreBytes Nowhere (map source_of buffers.now)
        (items_of blob.now) (length (map source_of buffers.now)) all }
{
    let Some(blob) = blob else {
        return false;
    };
    match buffers {
        [buffer] => buffer.uri.is_none() && buffer.byte_length <= blob.as_slice().len() as u64,
        _ => false,
    }
}
