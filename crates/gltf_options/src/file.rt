//! A document and its blob, with the names of `extensionsRequired` that the caller handles.
ghost use Rattle.std.specs.Prelude.{◌≡◌, ◌≢◌, IfOk, IfErr, IfSome, MatchResult, vec_capacity};
ghost use Rattle.std.specs.Cow.{cow_slice_items};
ghost use Rattle.gltf_glb.specs.declared.error.Error.TheVariants.{Memory};
ghost use Rattle.gltf.specs.Errors.{OutOfMemoryOr};
ghost use Rattle.gltf.specs.Reader.{Gives};
ghost use Rattle.gltf.specs.Room.{IsInRoomOf};
ghost use Rattle.gltf.specs.Shown.{blob_bytes};
ghost use Rattle.gltf_options.specs.Besides.{listed};
ghost use Rattle.gltf_options.specs.Import.{IsValidBesides, IsOnlyBesides, IsNoValidBesides};
ghost use Rattle.gltf_options.specs.Import.{RefusesDocumentBesides};
ghost use Rattle.gltf_options.specs.Names.{texts};
ghost use Rattle.gltf_options.specs.Reader.{IsFileBesides, RefusesFileBesides};

use crate::besides::without_names;
use crate::options::Options;
use gltf::{Gltf, Result};
use gltf_json::laws::what_shows_the_same_is_alike_in_each_member;
use gltf_rules::laws::what_shows_the_same_breaks_the_same_rules;
use std::alloc::Global;
use std::borrow::CowSlice;
use std::io::Read;

/// A file whose document breaks no rule without the names that the caller handles.
#[derive(Debug, Drop)]
pub struct Opened {
    /// The document without these names in `extensionsRequired`, and its binary buffer.
    pub gltf: Gltf,
    /// The names that were left out, in the order of the file; a name that the file repeats comes
    /// as often.
    pub also_required: Vec<String>,
}

/// [`Gltf::from_slice`] for a caller who handles further extensions (glTF 2.0, section 3.12).
///
/// The bytes are accepted exactly where the container, the text and the records hold, and the
/// rules of the records without these names in `extensionsRequired`. The error is that of the first
/// of these that does not, or [`gltf::Error::Memory`], which says nothing of the bytes. The path of
/// a broken rule is that in the file, at `extensionsRequired` too.
pub fn from_slice_with(alloc: Global, slice: &[u8], options: &Options<'_>) -> Result<Opened>
    ensures valid { IfOk result (λ file. IsValidBesides (listed options.now) slice.now
        file.gltf.document (texts file.also_required.items) (blob_bytes file.gltf.blob)) }
    ensures only { IfOk result (λ file. IsOnlyBesides (listed options.now) slice.now
        file.gltf.document (texts file.also_required.items) (blob_bytes file.gltf.blob)) }
    ensures refused { IfErr result
        (OutOfMemoryOr (RefusesDocumentBesides (listed options.now) slice.now)) }
    ensures exact { IfErr result (λ e. e ≢ Memory
        → IsNoValidBesides (listed options.now) slice.now) }
{
    // Laws that the proof stands on; the calls do nothing.
    what_shows_the_same_is_alike_in_each_member();
    what_shows_the_same_breaks_the_same_rules();
    let raw = Gltf::from_slice_without_validation(alloc, slice)?;
    without_names(alloc, raw, options)
}

/// [`from_slice_with`] of bytes that are lent or given up. The blob of a container is copied where
/// they are lent, and handed on in the room that they had where they are given up.
pub fn from_bytes_with(
    alloc: Global,
    bytes: CowSlice<'_, u8>,
    options: &Options<'_>,
) -> Result<Opened>
    ensures valid { IfOk result (λ file. IsValidBesides (listed options.now)
        (cow_slice_items bytes.entry) file.gltf.document (texts file.also_required.items)
        (blob_bytes file.gltf.blob)) }
    ensures only { IfOk result (λ file. IsOnlyBesides (listed options.now)
        (cow_slice_items bytes.entry) file.gltf.document (texts file.also_required.items)
        (blob_bytes file.gltf.blob)) }
    ensures refused { IfErr result (OutOfMemoryOr
        (RefusesDocumentBesides (listed options.now) (cow_slice_items bytes.entry))) }
    ensures exact { IfErr result (λ e. e ≢ Memory
        → IsNoValidBesides (listed options.now) (cow_slice_items bytes.entry)) }
    ensures moved { IfOk result (λ file. IfSome file.gltf.blob (IsInRoomOf bytes.entry)) }
{
    match bytes {
        CowSlice::Borrowed(slice) => from_slice_with(alloc, slice, options),
        CowSlice::Owned(vec) => from_vec_with(alloc, vec, options),
    }
}

/// [`from_slice_with`] of bytes that are given up.
fn from_vec_with(alloc: Global, bytes: Vec<u8>, options: &Options<'_>) -> Result<Opened>
    ensures valid { IfOk result (λ file. IsValidBesides (listed options.now) bytes.items
        file.gltf.document (texts file.also_required.items) (blob_bytes file.gltf.blob)) }
    ensures only { IfOk result (λ file. IsOnlyBesides (listed options.now) bytes.items
        file.gltf.document (texts file.also_required.items) (blob_bytes file.gltf.blob)) }
    ensures refused { IfErr result
        (OutOfMemoryOr (RefusesDocumentBesides (listed options.now) bytes.items)) }
    ensures exact { IfErr result (λ e. e ≢ Memory
        → IsNoValidBesides (listed options.now) bytes.items) }
    ensures moved { IfOk result (λ file. IfSome file.gltf.blob
        (λ blob. vec_capacity blob ≡ vec_capacity bytes)) }
{
    // Laws that the proof stands on; the calls do nothing.
    what_shows_the_same_is_alike_in_each_member();
    what_shows_the_same_breaks_the_same_rules();
    let raw = Gltf::from_vec_without_validation(alloc, bytes)?;
    without_names(alloc, raw, options)
}

/// [`Gltf::from_reader`] for a caller who handles further extensions (glTF 2.0, section 3.12).
///
/// As much is read, and the reading stops with the same errors; else the answer is that of
/// [`from_slice_with`] over the bytes that came.
pub fn from_reader_with<R: Read>(
    alloc: Global,
    reader: &mut R,
    options: &Options<'_>,
) -> Result<Opened>
    ensures { Gives (R.remaining reader.old) (R.remaining reader.new) (λ came.
        MatchResult result (λ file. IsFileBesides (listed options.now) (R.remaining reader.new)
        came file.gltf.document (texts file.also_required.items) (blob_bytes file.gltf.blob))
        (RefusesFileBesides (listed options.now) (R.remaining reader.new) came)) }
{
    // Laws that the proof stands on; the calls do nothing.
    what_shows_the_same_is_alike_in_each_member();
    what_shows_the_same_breaks_the_same_rules();
    let raw = Gltf::from_reader_without_validation(alloc, reader)?;
    without_names(alloc, raw, options)
}
