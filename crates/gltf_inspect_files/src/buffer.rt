//! Buffers whose bytes cannot be had (glTF 2.0, section 3.6.1).
ghost use Rattle.std.specs.Prelude.{◌≡◌, ◌++◌, [], ◌∷◌, IfOk, OnOk};
ghost use Rattle.std.specs.List.{AllByRecursion};
ghost use Rattle.gltf_shared.specs.Shown.{answer_of, answer_of_each, bytes_of_each};
ghost use Rattle.gltf_inspect_files.specs.Buffers.{buffer_code, is_of_bytes, is_memory};
ghost use Rattle.gltf_inspect_files.specs.Buffers.{buffer_place, answer_findings};
ghost use Rattle.gltf_inspect_files.specs.Buffers.{buffers_findings, SaysSomething, had};

use gltf::Error;
use gltf::buffer::Data;
use gltf_findings::code::Code;
use gltf_findings::findings::Findings;
use gltf_json_record::path::{Path, Step};
use std::alloc::{AllocError, Global};
use std::rc::Rc;

fn buffer_code(error: &Error) -> Code
    ensures { result ≡ buffer_code error.now }
{
    match error {
        Error::Base64(_) => Code::InvalidUri,
        Error::BufferLength { .. } => Code::BufferByteLengthMismatch,
        Error::MissingBlob => Code::BufferMissingGlbData,
        _ => Code::IoError,
    }
}

fn is_of_bytes(error: &Error) -> bool
    ensures { result ≡ is_of_bytes error.now }
{
    matches!(error, Error::BufferLength { .. } | Error::MissingBlob)
}

/// Whether an error is out of memory, which says nothing of a file.
pub(crate) fn is_memory(error: &Error) -> bool
    ensures { result ≡ is_memory error.now }
{
    matches!(error, Error::Memory)
}

fn tell_buffer(
    alloc: Global,
    index: usize,
    error: &Error,
    findings: &mut Findings,
) -> Result<(), AllocError>
    ensures { OnOk result (findings.new
        ≡ findings.old ++ (buffer_place index error.now, buffer_code error.now) ∷ []) }
{
    let mut path = Path::new(alloc);
    path.push(Step::Member("buffers"))?;
    path.push(Step::Item(index))?;
    if !is_of_bytes(error) {
        path.push(Step::Member("uri"))?;
    }
    findings.add(path, buffer_code(error))
}

fn tell_answer(
    alloc: Global,
    index: usize,
    answer: &Result<Rc<Data>, Error>,
    findings: &mut Findings,
) -> Result<(), AllocError>
    ensures found { OnOk result (findings.new
        ≡ findings.old ++ answer_findings index (answer_of answer.now)) }
    ensures told { OnOk result (SaysSomething (answer_of answer.now)) }
{
    match answer {
        Ok(_) => Ok(()),
        Err(error) if is_memory(error) => Err(AllocError),
        Err(error) => tell_buffer(alloc, index, error, findings),
    }
}

/// Adds the faults of all buffers, in the order of their indices. Fails where there is no memory,
/// also where there was none for the bytes of a buffer.
pub(crate) fn tell_buffers(
    alloc: Global,
    answers: &[Result<Rc<Data>, Error>],
    findings: &mut Findings,
) -> Result<(), AllocError>
    ensures found { OnOk result (findings.new
        ≡ findings.old ++ buffers_findings 0 (answer_of_each answers.now)) }
    ensures told { OnOk result (AllByRecursion SaysSomething (answer_of_each answers.now)) }
{
    for (i, answer) in answers.iter().enumerate() {
        tell_answer(alloc, i, answer, findings)?;
    }
    Ok(())
}

/// The bytes of the buffers that have no fault.
#[tactic(auto, using(crate::proofs::Answered::had_one_more))]
pub(crate) fn had(
    alloc: Global,
    answers: Vec<Result<Rc<Data>, Error>>,
) -> Result<Vec<Rc<Data>>, AllocError>
    ensures { IfOk result (λ buffers. bytes_of_each buffers.items
        ≡ had (answer_of_each answers.items)) }
{
    let mut buffers = Vec::new(alloc);
    for answer in answers {
        add_had(&mut buffers, answer)?;
    }
    Ok(buffers)
}

fn add_had(buffers: &mut Vec<Rc<Data>>, answer: Result<Rc<Data>, Error>) -> Result<(), AllocError>
    ensures { OnOk result (bytes_of_each buffers.new.items
        ≡ bytes_of_each buffers.old.items ++ had (answer_of answer ∷ [])) }
{
    match answer {
        Ok(buffer) => Ok(buffers.push(buffer)?),
        Err(_) => Ok(()),
    }
}
