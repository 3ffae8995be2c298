//! All that is found in a file.
ghost use Rattle.std.specs.Prelude.{◌≡◌, ◌⊎◌, IfOk, IfErr, IfNone, IsSome};
ghost use Rattle.gltf.specs.Import.{IsNotAccepted};
ghost use Rattle.gltf.specs.Shown.{bytes_of_each};
ghost use Rattle.gltf_buffers.specs.Errors.{IsUnanswered};
ghost use Rattle.gltf_buffers.specs.Names.{names_of, Nowhere};
ghost use Rattle.gltf_glb.specs.declared.error.Error.TheVariants.{Memory};
ghost use Rattle.gltf_names.specs.Named.{File};
ghost use Rattle.gltf_findings.specs.Reports.{refusal_count};
ghost use Rattle.gltf_inspect_files.specs.Reports.{document_findings};
ghost use Rattle.gltf_inspect_files.specs.Unkept.{IsWholeReport, IsWholeReportOfFile};

use crate::contents::inspect_contents;
use crate::join::joined;
use crate::laws::{what_is_refused_is_not_accepted, what_is_refused_is_reported};
use crate::lent::{inspect_lent_from, inspect_lent_slice, owned};
use gltf::buffer::Data;
use gltf::{Document, Error, NamedBytes};
use gltf_findings::report::Report;
use gltf_inspect::inspect::inspect;
use gltf_shared::lent;
use std::alloc::{AllocError, Global};

/// A file that was looked at.
#[derive(Debug, Drop)]
pub struct Inspected {
    /// What is found in it.
    pub report: Report,
    /// Why the file holds no document: what is wrong with its container, its text or its records.
    /// `None` where it holds one, whether its rules are broken or not.
    pub cause: Option<Error>,
    /// The document and the bytes of its buffers, where the file is accepted.
    pub imported: Option<(Document, Vec<Data>)>,
}

/// All that is found in a document and in the items of its accessors, over the bytes of its
/// buffers. Fails where there is no memory.
pub fn inspect_imported(
    alloc: Global,
    document: &Document,
    buffers: &[Data],
) -> Result<Report, AllocError>
    ensures { IfOk result (λ found. found
        ≡ document_findings document.now (bytes_of_each buffers.now)) }
{
    let records = inspect(alloc, document.as_json())?;
    let lent = lent(alloc, buffers)?;
    let items = inspect_contents(alloc, document, &lent)?;
    joined(alloc, &records, &items)
}

/// All that is found in the bytes of a file, and what is imported where they are accepted, as
/// [`gltf::import_slice`] accepts them.
///
/// Where they are not, the report says so: the fault of the container, of the text or of a
/// record, which is an error, but for a member that this reader alone needs
/// ([`Code::NeededByReader`](gltf_findings::code::Code::NeededByReader)); or all broken rules, and what else is found in the records; or the fault of each buffer,
/// and what is found in the records. Files that buffers name are not looked for. Fails where there
/// is no memory.
///
/// All items are looked at, however many; [`crate::lent::inspect_lent_slice`] takes a budget.
pub fn inspect_slice(alloc: Global, bytes: &[u8]) -> Result<Inspected, AllocError>
    ensures report { IfOk result (IsWholeReport Nowhere bytes.now) }
    ensures fine { IfOk result (λ file. refusal_count file.report ≡ 0
        → IsSome file.imported) }
    ensures exact { IfOk result (λ file. IfNone file.imported (IsNotAccepted bytes.now)) }
{
    // Laws that the proof stands on; the calls do nothing.
    what_is_refused_is_reported();
    what_is_refused_is_not_accepted();
    let file = inspect_lent_slice(alloc, bytes, None)?;
    owned(alloc, file)
}

/// All that is found in the file at a path of a source, and in those that its buffers name, and
/// what is imported where it is accepted, as [`gltf::import_from`] accepts it. Each buffer has
/// bytes of its own.
///
/// The error is that the file itself cannot be read, or [`Error::Memory`].
pub fn inspect_from<S: NamedBytes>(
    alloc: Global,
    source: &mut S,
    path: &str,
) -> gltf::Result<Inspected>
    ensures report { IfOk result (IsWholeReportOfFile (names_of (S.bytes_by_name source.old))
        path.now) }
    ensures fine { IfOk result (λ file. refusal_count file.report ≡ 0
        → IsSome file.imported) }
    ensures unread { IfErr result (λ e. (e ≡ Memory)
        ⊎ IsUnanswered (names_of (S.bytes_by_name source.old)) (File path.now)
        (S.failures source.old) (S.failures source.new) e) }
{
    // A law that the proof stands on; the call does nothing.
    what_is_refused_is_reported();
    let file = inspect_lent_from(alloc, source, path, None)?;
    let own = owned(alloc, file)?;
    Ok(own)
}
