//! The layers of a document over its bytes, which are lent or given up. A blob that is lent is
//! copied; one that is given up is handed on.
ghost use Rattle.std.specs.Prelude.{◌≡◌, ◌≢◌, ℕ, List, Option, IfOk, IfErr, IfSome};
ghost use Rattle.std.specs.Prelude.{◌+◌, ◌<◌, ◌≤◌, ◌^◌, length, vec_capacity};
ghost use Rattle.std.specs.Cow.{cow_slice_items};
ghost use Rattle.gltf_glb.specs.Glb.{items_of, IsTakenFrom, RefusesOrRunsOut};
ghost use Rattle.gltf_glb.specs.declared.error.Error.TheVariants.{Memory};
ghost use Rattle.gltf.specs.Errors.{OutOfMemoryOr};
ghost use Rattle.gltf.specs.Import.{AreParts, IsDocument, IsValidDocument};
ghost use Rattle.gltf.specs.Import.{IsOnlyDocument, IsNoDocument, IsNoValidDocument};
ghost use Rattle.gltf.specs.Import.{RefusesContainer, RefusesRecords, RefusesDocument};
ghost use Rattle.gltf.specs.Room.{StaysInRoom, IsInRoomOf, KeepsRoom};
ghost use Rattle.gltf.specs.Shown.{blob_bytes};

use crate::document::{Document, RawDocument};
use gltf_glb::{Glb, Result};
use gltf_json::root::Root;
use gltf_json_deserialize::deserialize;
use gltf_rules::laws::what_shows_the_same_breaks_the_same_rules;
use std::alloc::{AllocError, Global};
use std::borrow::CowSlice;

/// The document, and the blob.
pub(crate) fn document_of(
    alloc: Global,
    bytes: CowSlice<'_, u8>,
) -> Result<(Document, Option<Vec<u8>>)>
    ensures valid { IfOk result (λ read. IsValidDocument (cow_slice_items bytes.entry) read.0
        (blob_bytes read.1)) }
    ensures only { IfOk result (λ read. IsOnlyDocument (cow_slice_items bytes.entry) read.0
        (blob_bytes read.1)) }
    ensures refused { IfErr result (OutOfMemoryOr (RefusesDocument (cow_slice_items bytes.entry))) }
    ensures exact { IfErr result (λ e. e ≢ Memory
        → IsNoValidDocument (cow_slice_items bytes.entry)) }
    ensures moved { IfOk result (λ read. IfSome read.1 (IsInRoomOf bytes.entry)) }
{
    // A law that the proof stands on; the call does nothing.
    what_shows_the_same_breaks_the_same_rules();
    let (root, blob) = root_of(alloc, bytes)?;
    let document = Document::from_json(alloc, root)?;
    let blob = owned_blob(alloc, blob)?;
    Ok((document, blob))
}

/// The records without the rules, and the blob.
pub(crate) fn raw_document_of(
    alloc: Global,
    bytes: CowSlice<'_, u8>,
) -> Result<(RawDocument, Option<Vec<u8>>)>
    ensures document { IfOk result (λ read. IsDocument (cow_slice_items bytes.entry) read.0
        (blob_bytes read.1)) }
    ensures only { IfOk result (λ read. IsOnlyDocument (cow_slice_items bytes.entry) read.0
        (blob_bytes read.1)) }
    ensures refused { IfErr result (OutOfMemoryOr (RefusesRecords (cow_slice_items bytes.entry))) }
    ensures exact { IfErr result
        (λ e. e ≢ Memory → IsNoDocument (cow_slice_items bytes.entry)) }
    ensures moved { IfOk result (λ read. IfSome read.1 (IsInRoomOf bytes.entry)) }
{
    let (root, blob) = root_of(alloc, bytes)?;
    let blob = owned_blob(alloc, blob)?;
    Ok((Document::from_json_without_validation(root), blob))
}

/// The records, and the blob.
fn root_of(alloc: Global, bytes: CowSlice<'_, u8>) -> Result<(Root, Option<CowSlice<'_, u8>>)>
    ensures document { IfOk result (λ read. IsDocument (cow_slice_items bytes.entry) read.0
        (items_of read.1)) }
    ensures only { IfOk result (λ read. IsOnlyDocument (cow_slice_items bytes.entry) read.0
        (items_of read.1)) }
    ensures refused { IfErr result (OutOfMemoryOr (RefusesRecords (cow_slice_items bytes.entry))) }
    ensures exact { IfErr result
        (λ e. e ≢ Memory → IsNoDocument (cow_slice_items bytes.entry)) }
    ensures moved { IfOk result (λ read. IfSome read.1 (StaysInRoom bytes.entry)) }
{
    let (text, blob) = text_and_blob_of(alloc, bytes)?;
    let root = deserialize::from_slice(alloc, text.as_slice())?;
    Ok((root, blob))
}

/// [`text_and_blob`] of bytes that are lent or given up. Of a container that is given up the text is
/// copied, and the blob is handed on in the room that the bytes had.
///
/// Returns [`Error::Binary`](crate::Error::Binary) where the bytes begin with `glTF` and are no
/// container, or [`Error::Memory`](crate::Error::Memory).
#[tactic(auto, unfolding(crate::specs::Import::AreParts))]
pub fn text_and_blob_of(
    alloc: Global,
    bytes: CowSlice<'_, u8>,
) -> Result<(CowSlice<'_, u8>, Option<CowSlice<'_, u8>>)>
    ensures parts { IfOk result (λ parts. AreParts (cow_slice_items bytes.entry)
        (cow_slice_items parts.0) (items_of parts.1)) }
    ensures only { IfOk result (λ parts. (text : List ℕ) (blob : Option (List ℕ))
        → AreParts (cow_slice_items bytes.entry) text blob
        → (text ≡ cow_slice_items parts.0) × (blob ≡ items_of parts.1)) }
    ensures refused { IfErr result
        (OutOfMemoryOr (RefusesContainer (cow_slice_items bytes.entry))) }
    ensures exact { IfErr result (λ e. e ≢ Memory
        → (text : List ℕ) (blob : Option (List ℕ))
        → AreParts (cow_slice_items bytes.entry) text blob → ⊥) }
    ensures moved { IfOk result (λ parts. IfSome parts.1 (StaysInRoom bytes.entry)) }
{
    if bytes.as_slice().starts_with(b"glTF") {
        let glb = container_of(alloc, bytes)?;
        Ok((glb.json, glb.bin))
    } else {
        Ok((bytes, None))
    }
}

/// The JSON text and the blob of a file, lent: those of a container (glTF 2.0, section 4.4) where
/// the bytes begin with `glTF`, else the bytes are the text. Neither is looked at.
///
/// Returns [`Error::Binary`](crate::Error::Binary) where the bytes begin so and are no container.
#[tactic(auto, unfolding(crate::specs::Import::AreParts))]
pub fn text_and_blob(bytes: &[u8]) -> Result<(CowSlice<'_, u8>, Option<CowSlice<'_, u8>>)>
    ensures parts { IfOk result (λ parts. AreParts bytes.now (cow_slice_items parts.0)
        (items_of parts.1)) }
    ensures only { IfOk result (λ parts. (text : List ℕ) (blob : Option (List ℕ))
        → AreParts bytes.now text blob
        → (text ≡ cow_slice_items parts.0) × (blob ≡ items_of parts.1)) }
    ensures refused { IfErr result (RefusesContainer bytes.now) }
    ensures exact { IfErr result (λ _. (text : List ℕ) (blob : Option (List ℕ))
        → AreParts bytes.now text blob → ⊥) }
{
    if bytes.starts_with(b"glTF") {
        let glb = Glb::from_slice(bytes)?;
        Ok((glb.json, glb.bin))
    } else {
        Ok((CowSlice::Borrowed(bytes), None))
    }
}

/// The container that the bytes are.
fn container_of(alloc: Global, bytes: CowSlice<'_, u8>) -> Result<Glb<'_>>
    ensures parts { IfOk result (IsTakenFrom (cow_slice_items bytes.entry)) }
    ensures fault { IfErr result (RefusesOrRunsOut (cow_slice_items bytes.entry)) }
    ensures moved { IfOk result (λ glb. IfSome glb.bin (StaysInRoom bytes.entry)) }
{
    match bytes {
        CowSlice::Borrowed(bytes) => Glb::from_slice(bytes),
        CowSlice::Owned(bytes) => Glb::from_vec(alloc, bytes),
    }
}

/// The blob, owned. What is lent is copied, with room for the zeros that may follow it; what is
/// given up is handed on as it is.
pub fn owned_blob(alloc: Global, blob: Option<CowSlice<'_, u8>>) -> Result<Option<Vec<u8>>>
    ensures ok { IfOk result (λ copy. blob_bytes copy ≡ items_of blob.entry) }
    ensures room { IfOk result (KeepsRoom blob.entry) }
    ensures refused { IfErr result (λ e. e ≡ Memory) }
{
    match blob {
        Some(CowSlice::Borrowed(lent)) => Ok(Some(copied(alloc, lent)?)),
        Some(CowSlice::Owned(blob)) => Ok(Some(blob)),
        None => Ok(None),
    }
}

/// A copy that is made once: there is room for the zeros that may follow a blob.
fn copied(alloc: Global, blob: &[u8]) -> Result<Vec<u8>, AllocError>
    ensures items { IfOk result (λ copy. copy.items ≡ blob.now) }
    ensures room { IfOk result (λ copy. length blob.now + 3 < 2 ^ 64
        → length blob.now + 3 ≤ vec_capacity copy) }
{
    let mut copy = Vec::with_capacity(alloc, blob.len().saturating_add(3))?;
    copy.extend_from_slice(blob)?;
    Ok(copy)
}
