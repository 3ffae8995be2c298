//! Extensions of objects of which no record keeps them, in the JSON text of a file (glTF 2.0,
//! section 3.12).
ghost use Rattle.std.specs.Prelude.{IfOk, OnOk};
ghost use Rattle.gltf_buffers.specs.Names.{CanBeAsked};
ghost use Rattle.gltf_inspect_files.specs.Asking.{AsksOnceOf};
ghost use Rattle.gltf_inspect_files.specs.Layers.{IsShared};
ghost use Rattle.gltf_inspect_files.specs.Reports.{lent_of};
ghost use Rattle.gltf_inspect_files.specs.Unkept.{IsOfDocument, IsUnkept, IsWith, IsWholeLent};

use crate::contents::with_contents;
use crate::join::joined;
use crate::layers::inspect_bytes;
use crate::lent::Lent;
use gltf::buffer::Data;
use gltf::laws::one_text_and_blob;
use gltf::{Document, text_and_blob};
use gltf_findings::findings::Findings;
use gltf_findings::report::Report;
use gltf_inspect_unkept::laws::{has_none, nothing_is_found_where_there_is_none};
use gltf_inspect_unkept::text::inspect_text;
use gltf_shared::AskUpTo;
use std::alloc::{AllocError, Global};
use std::rc::Rc;

/// What is found in these bytes, layer by layer, in items as the share says, and then in their JSON
/// text. Fails where there is no memory.
pub(crate) fn inspect_whole<N: AskUpTo>(
    alloc: Global,
    names: &mut N,
    bytes: &[u8],
    share: Option<u32>,
) -> Result<Lent, AllocError>
    ensures whole { IfOk result (IsWholeLent share (N.names names.old) bytes.now) }
    ensures shared { IfOk result IsShared }
    ensures asked { OnOk result (CanBeAsked (N.names names.old)
        → AsksOnceOf N.asks bytes.now names.old names.new) }
{
    let file = inspect_bytes(alloc, names, bytes)?;
    let file = with_contents(alloc, file, share, bytes.len())?;
    with_unkept(alloc, bytes, file)
}

/// A file with what is found in its text behind what was found.
#[tactic(auto, using(crate::proofs::Whole::as_it_is, crate::proofs::Whole::of_cause, crate::proofs::Whole::of_none_cause, crate::proofs::Whole::with_more))]
fn with_unkept(alloc: Global, bytes: &[u8], file: Lent) -> Result<Lent, AllocError>
    requires { IsOfDocument bytes.now (lent_of file.imported) }
    ensures { IfOk result (IsWith bytes.now file) }
{
    if file.cause.is_some() {
        return Ok(file);
    }
    let unkept = unkept_of(alloc, bytes, &file.imported)?;
    if unkept.findings().is_empty() {
        return Ok(file);
    }
    let Lent {
        report,
        cause,
        imported,
    } = file;
    Ok(Lent {
        report: joined(alloc, &report, &unkept)?,
        cause,
        imported,
    })
}

/// What is found in the text of bytes that hold a document. No text is looked at where the document
/// has no such objects.
#[tactic(auto, using(crate::proofs::Whole::none_found))]
fn unkept_of(
    alloc: Global,
    bytes: &[u8],
    imported: &Option<(Document, Vec<Rc<Data>>)>,
) -> Result<Report, AllocError>
    requires { IsOfDocument bytes.now (lent_of imported.now) }
    ensures { IfOk result (IsUnkept bytes.now) }
{
    // Laws that the proof stands on; the calls do nothing.
    one_text_and_blob();
    nothing_is_found_where_there_is_none();
    if let Some((document, _buffers)) = imported {
        if has_none(document.as_json()) {
            return Ok(Report::new(Findings::new(alloc)));
        }
    }
    unkept_in(alloc, bytes)
}

/// The same, whatever the document has.
fn unkept_in(alloc: Global, bytes: &[u8]) -> Result<Report, AllocError>
    ensures { IfOk result (IsUnkept bytes.now) }
{
    match text_and_blob(bytes) {
        Ok((text, _blob)) => inspect_text(alloc, text.as_slice()),
        // Bytes without a text hold no document.
        Err(_) => Ok(Report::new(Findings::new(alloc))),
    }
}
