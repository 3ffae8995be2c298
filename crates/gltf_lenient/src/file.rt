//! A document as it is mended, and its blob.
ghost use Rattle.std.specs.Prelude.{◌≢◌, IfOk, IfErr, MatchResult};
ghost use Rattle.std.specs.Cow.{cow_slice_items};
ghost use Rattle.gltf_glb.specs.declared.error.Error.TheVariants.{Memory};
ghost use Rattle.gltf.specs.Errors.{OutOfMemoryOr};
ghost use Rattle.gltf.specs.Reader.{Gives};
ghost use Rattle.gltf.specs.Shown.{blob_bytes};
ghost use Rattle.gltf_options.specs.Names.{texts};
ghost use Rattle.gltf_lenient.specs.Import.{IsValidMended, IsOnlyMended, RefusesMended};
ghost use Rattle.gltf_lenient.specs.Import.{IsNoValidMended};
ghost use Rattle.gltf_lenient.specs.Reader.{IsFileMended, RefusesFileMended};

use crate::options::Options;
use crate::records::raw_of;
use gltf::{Result, read_file};
use gltf_glb::laws::whole_bytes_decide;
use gltf_options::laws::{
    the_same_rules_are_broken_without_the_names, what_shows_the_same_breaks_the_same_rules_besides,
    what_shows_the_same_is_left_alike,
};
use gltf_options::{Opened, without_names};
use std::alloc::Global;
use std::borrow::CowSlice;
use std::io::Read;

/// [`gltf::Gltf::from_slice`] for a caller who handles further extensions, of a document that is
/// mended.
///
/// The bytes are accepted exactly where the container and the text hold as they stand, the records
/// of the mended value, and the rules of these without the names that the caller handles. The error
/// is that of the first of these that does not hold, or [`gltf::Error::Memory`], which says nothing
/// of the bytes. The path of a fault is that of the mended value: an index in a list of channels
/// counts those that are left, and one in `extensionsRequired` all names.
pub fn from_slice_with(alloc: Global, bytes: &[u8], options: &Options<'_>) -> Result<Opened>
    ensures valid { IfOk result (λ file. IsValidMended options.now bytes.now file.gltf.document
        (texts file.also_required.items) (blob_bytes file.gltf.blob)) }
    ensures only { IfOk result (λ file. IsOnlyMended options.now bytes.now file.gltf.document
        (texts file.also_required.items) (blob_bytes file.gltf.blob)) }
    ensures refused { IfErr result (OutOfMemoryOr (RefusesMended options.now bytes.now)) }
    ensures exact { IfErr result (λ e. e ≢ Memory → IsNoValidMended options.now bytes.now) }
{
    from_bytes_with(alloc, CowSlice::Borrowed(bytes), options)
}

/// [`from_slice_with`] of bytes that are lent or given up. The blob of a container is copied where
/// they are lent.
pub fn from_bytes_with(
    alloc: Global,
    bytes: CowSlice<'_, u8>,
    options: &Options<'_>,
) -> Result<Opened>
    ensures valid { IfOk result (λ file. IsValidMended options.now (cow_slice_items bytes.entry)
        file.gltf.document (texts file.also_required.items) (blob_bytes file.gltf.blob)) }
    ensures only { IfOk result (λ file. IsOnlyMended options.now (cow_slice_items bytes.entry)
        file.gltf.document (texts file.also_required.items) (blob_bytes file.gltf.blob)) }
    ensures refused { IfErr result
        (OutOfMemoryOr (RefusesMended options.now (cow_slice_items bytes.entry))) }
    ensures exact { IfErr result (λ e. e ≢ Memory
        → IsNoValidMended options.now (cow_slice_items bytes.entry)) }
{
    // Laws that the proof stands on; the calls do nothing.
    what_shows_the_same_is_left_alike();
    what_shows_the_same_breaks_the_same_rules_besides();
    the_same_rules_are_broken_without_the_names();
    let raw = raw_of(alloc, bytes, &options.mends)?;
    let besides = gltf_options::Options {
        also_supported: options.also_supported,
    };
    without_names(alloc, raw, &besides)
}

/// [`gltf::Gltf::from_reader`] for a caller who handles further extensions, of a document that is
/// mended.
///
/// As much is read, and the reading stops with the same errors; else the answer is that of
/// [`from_slice_with`] over the bytes that came.
pub fn from_reader_with<R: Read>(
    alloc: Global,
    reader: &mut R,
    options: &Options<'_>,
) -> Result<Opened>
    ensures { Gives (R.remaining reader.old) (R.remaining reader.new) (λ came.
        MatchResult result (λ file. IsFileMended options.now (R.remaining reader.new) came
        file.gltf.document (texts file.also_required.items) (blob_bytes file.gltf.blob))
        (RefusesFileMended options.now (R.remaining reader.new) came)) }
{
    // A law that the proof stands on; the call does nothing.
    whole_bytes_decide();
    let mut bytes = Vec::new(alloc);
    read_file(reader, &mut bytes)?;
    from_bytes_with(alloc, CowSlice::Owned(bytes), options)
}
