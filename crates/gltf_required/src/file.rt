//! Files, and which extensions they may require.
ghost use Rattle.std.specs.Prelude.{IfOk, IfErr};
ghost use Rattle.gltf.specs.Errors.{OutOfMemoryOr};
ghost use Rattle.gltf.specs.Shown.{blob_bytes};
ghost use Rattle.gltf_glb.specs.Glb.{items_of};
ghost use Rattle.gltf_required.specs.Import.{IsOpenedAs, RefusesDocumentAs};

use crate::checking::checked;
use crate::records::root_as;
use crate::required::Required;
use gltf::{Document, Gltf, Result, owned_blob, text_and_blob};
use std::alloc::Global;
use std::borrow::CowSlice;

/// [`Gltf::from_slice`] of a file that may require these extensions, and is mended so. The document
/// is without the names in `extensionsRequired` that pass.
///
/// The error is that of the container, of the text or of the records, as [`Gltf::from_slice`] has
/// it, or has all rules that are broken without these names, at their places in the file. Where the
/// file is mended, the faults of the records are those of the mended value, and so are the places.
pub fn from_slice_as(alloc: Global, slice: &[u8], required: &Required<'_>) -> Result<Gltf>
    ensures opened { IfOk result (λ file. IsOpenedAs required.now slice.now file.document
        (blob_bytes file.blob)) }
    ensures refused { IfErr result (OutOfMemoryOr (RefusesDocumentAs required.now slice.now)) }
{
    let (document, blob) = document_as(alloc, slice, required)?;
    let blob = owned_blob(alloc, blob)?;
    Ok(Gltf { document, blob })
}

/// The document of [`from_slice_as`], and the blob, which is lent.
pub fn document_as<'b>(
    alloc: Global,
    bytes: &'b [u8],
    required: &Required<'_>,
) -> Result<(Document, Option<CowSlice<'b, u8>>)>
    ensures opened { IfOk result (λ read. IsOpenedAs required.now bytes.now read.0
        (items_of read.1)) }
    ensures refused { IfErr result (OutOfMemoryOr (RefusesDocumentAs required.now bytes.now)) }
{
    let (text, blob) = text_and_blob(bytes)?;
    let root = root_as(alloc, text.as_slice(), required)?;
    let document = checked(alloc, root, required)?;
    Ok((document, blob))
}
