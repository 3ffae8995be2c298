//! The layers of a file, one after the other: container, text, records, rules, buffers.
ghost use Rattle.std.specs.Prelude.{◌≡◌, ◌≢◌, ◌++◌, [], false, IfOk, OnOk, IfSome};
ghost use Rattle.std.specs.Prelude.{IfNone, length};
ghost use Rattle.std.specs.List.{AllByRecursion};
ghost use Rattle.gltf_buffers.specs.Buffers.{sources_of};
ghost use Rattle.gltf_buffers.specs.Each.{AreAnswers};
ghost use Rattle.gltf_buffers.specs.Names.{CanBeAsked};
ghost use Rattle.gltf_buffers.specs.Shown.{blob_bytes};
ghost use Rattle.gltf_shared.specs.Asked.{AsksOnce};
ghost use Rattle.gltf_shared.specs.Shared.{AreShared};
ghost use Rattle.gltf_shared.specs.Shown.{answer_of_each};
ghost use Rattle.gltf_validation.specs.Documents.{Faults};
ghost use Rattle.gltf_inspect_files.specs.Buffers.{buffers_findings, is_memory, SaysSomething};
ghost use Rattle.gltf_inspect_files.specs.Buffers.{is_nil};
ghost use Rattle.gltf_inspect_files.specs.Asking.{AsksOnceOf};
ghost use Rattle.gltf_inspect_files.specs.Layers.{IsOfLayers, IsOfRecords, IsRead, IsShared};
ghost use Rattle.gltf_inspect_files.specs.Layers.{IsSharedRead};
ghost use Rattle.gltf_inspect_files.specs.Reports.{error_findings, records_findings};

use crate::buffer::{had, is_memory, tell_buffers};
use crate::container::container_code;
use crate::join::joined;
use crate::lent::Lent;
use crate::text::tell_text;
use gltf::buffer::Data;
use gltf::{Document, Error, Gltf, RawGltf};
use gltf_buffers::laws::are_bytes_of_all;
use gltf_findings::findings::Findings;
use gltf_findings::report::Report;
use gltf_inspect::inspect::inspect;
use gltf_json::root::Root;
use gltf_json_record::path::Path;
use gltf_shared::{AskUpTo, read_each_shared};
use std::alloc::{AllocError, Global};
use std::rc::Rc;

/// What is found in the layers of these bytes, where names are asked of `names`, none of them
/// twice, and what is imported where all hold; items are not looked at. Fails where there is no
/// memory.
pub(crate) fn inspect_bytes<N: AskUpTo>(
    alloc: Global,
    names: &mut N,
    bytes: &[u8],
) -> Result<Lent, AllocError>
    ensures layers { IfOk result (IsOfLayers (N.names names.old) bytes.now) }
    ensures shared { IfOk result IsShared }
    ensures asked { CanBeAsked (N.names names.old) → OnOk result
        (AsksOnceOf N.asks bytes.now names.old names.new) }
{
    match Gltf::from_slice_without_validation(alloc, bytes) {
        Ok(file) => inspect_records(alloc, names, file),
        Err(cause) => {
            let report = report_of_error(alloc, bytes, &cause)?;
            Ok(Lent {
                report,
                cause: Some(cause),
                imported: None,
            })
        }
    }
}

/// The fault of the container, of the text or of a record. Out of memory is no fault, and fails.
fn report_of_error(alloc: Global, bytes: &[u8], cause: &Error) -> Result<Report, AllocError>
    ensures found { IfOk result (λ report. report ≡ error_findings bytes.now cause.now) }
    ensures memory { OnOk result (is_memory cause.now ≡ false) }
{
    not_memory(cause)?;
    let mut findings = Findings::new(alloc);
    tell_error(alloc, bytes, cause, &mut findings)?;
    Ok(Report::new(findings))
}

fn tell_error(
    alloc: Global,
    bytes: &[u8],
    cause: &Error,
    findings: &mut Findings,
) -> Result<(), AllocError>
    ensures { OnOk result (findings.new ≡ findings.old ++ error_findings bytes.now cause.now) }
{
    match cause {
        Error::Binary(fault) => findings.add(Path::new(alloc), container_code(bytes, fault)),
        Error::Deserialize(fault) => tell_text(alloc, fault, findings),
        // Bytes are no document for no other cause.
        _ => Ok(()),
    }
}

/// What is found in records, and where no rule is broken, in buffers.
fn inspect_records<N: AskUpTo>(
    alloc: Global,
    names: &mut N,
    file: RawGltf,
) -> Result<Lent, AllocError>
    ensures records { IfOk result (IsOfRecords (N.names names.old) file.document
        (blob_bytes file.blob)) }
    ensures shared { IfOk result IsShared }
    ensures asked { CanBeAsked (N.names names.old) → OnOk result
        (AsksOnce N.asks (sources_of file.document) names.old names.new) }
{
    let RawGltf { document, blob } = file;
    let root = document.into_json();
    let records = inspect(alloc, &root)?;
    match document_of(alloc, root)? {
        Some(document) => inspect_valid(alloc, names, document, blob, records),
        None => Ok(Lent {
            report: records,
            cause: None,
            imported: None,
        }),
    }
}

/// The document of these records, where they break no rule. Fails where there is no memory.
fn document_of(alloc: Global, root: Root) -> Result<Option<Document>, AllocError>
    ensures valid { IfOk result (λ found. IfSome found
        (λ document. (document ≡ root) × (Faults root ≡ []))) }
    ensures broken { IfOk result (λ found. IfNone found (Faults root ≢ [])) }
{
    match Document::from_json(alloc, root) {
        Ok(document) => Ok(Some(document)),
        Err(cause) => {
            not_memory(&cause)?;
            Ok(None)
        }
    }
}

fn not_memory(cause: &Error) -> Result<(), AllocError>
    ensures { OnOk result (is_memory cause.now ≡ false) }
{
    if is_memory(cause) {
        Err(AllocError)
    } else {
        Ok(())
    }
}

/// What is found in buffers, and the bytes of all where each has its own.
fn inspect_valid<N: AskUpTo>(
    alloc: Global,
    names: &mut N,
    document: Document,
    blob: Option<Vec<u8>>,
    records: Report,
) -> Result<Lent, AllocError>
    requires rules { Faults document ≡ [] }
    requires records { records ≡ records_findings document }
    ensures records { IfOk result (IsOfRecords (N.names names.old) document (blob_bytes blob)) }
    ensures shared { IfOk result IsShared }
    ensures asked { CanBeAsked (N.names names.old) → OnOk result
        (AsksOnce N.asks (sources_of document) names.old names.new) }
{
    match inspect_buffers(alloc, names, &document, blob, &records)? {
        Read::Had(buffers) => Ok(Lent {
            report: records,
            cause: None,
            imported: Some((document, buffers)),
        }),
        Read::Fail(report) => Ok(Lent {
            report,
            cause: None,
            imported: None,
        }),
    }
}

/// The bytes of all buffers of a document, or what is found where some have none.
#[derive(Drop)]
enum Read {
    Had(Vec<Rc<Data>>),
    Fail(Report),
}

fn inspect_buffers<N: AskUpTo>(
    alloc: Global,
    names: &mut N,
    document: &Document,
    blob: Option<Vec<u8>>,
    records: &Report,
) -> Result<Read, AllocError>
    ensures read { IfOk result (IsRead (N.names names.old) document.now (blob_bytes blob)
        records.now) }
    ensures shared { IfOk result (IsSharedRead document.now) }
    ensures asked { CanBeAsked (N.names names.old) → OnOk result
        (AsksOnce N.asks (sources_of document.now) names.old names.new) }
{
    // A law that the proof stands on; the call does nothing.
    are_bytes_of_all();
    let answers = answers_of(alloc, names, document, blob)?;
    let faults = report_of_buffers(alloc, answers.as_slice())?;
    if is_clean(&faults) {
        let buffers = had(alloc, answers)?;
        return Ok(Read::Had(buffers));
    }
    let report = joined(alloc, &faults, records)?;
    Ok(Read::Fail(report))
}

fn is_clean(report: &Report) -> bool
    ensures { result ≡ is_nil report.now }
{
    report.findings().is_empty()
}

/// Each buffer's own answer.
fn answers_of<N: AskUpTo>(
    alloc: Global,
    names: &mut N,
    document: &Document,
    blob: Option<Vec<u8>>,
) -> Result<Vec<Result<Rc<Data>, Error>>, AllocError>
    ensures ok { IfOk result (λ all. AreAnswers (N.names names.old) (sources_of document.now)
        (blob_bytes blob) (length (sources_of document.now)) (answer_of_each all.items)) }
    ensures shared { IfOk result (λ all. AreShared (sources_of document.now)
        (answer_of_each all.items)) }
    ensures asked { CanBeAsked (N.names names.old) → OnOk result
        (AsksOnce N.asks (sources_of document.now) names.old names.new) }
{
    read_each_shared(alloc, &document.as_json().buffers, names, blob)
}

fn report_of_buffers(
    alloc: Global,
    answers: &[Result<Rc<Data>, Error>],
) -> Result<Report, AllocError>
    ensures found { IfOk result (λ report. report
        ≡ buffers_findings 0 (answer_of_each answers.now)) }
    ensures told { OnOk result (AllByRecursion SaysSomething (answer_of_each answers.now)) }
{
    let mut findings = Findings::new(alloc);
    tell_buffers(alloc, answers, &mut findings)?;
    Ok(Report::new(findings))
}
