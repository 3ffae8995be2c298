//! The findings of texts and records that are refused (glTF 2.0, sections 2.7 and 5).
ghost use Rattle.std.specs.Prelude.{◌≡◌, ◌++◌, [], OnOk, map};
ghost use Rattle.gltf_json_record.specs.Place.{place_of, named};
ghost use Rattle.gltf_inspect.specs.Refusals.{last_of};
ghost use Rattle.gltf_inspect_files.specs.Texts.{kind_code, record_code, text_findings};
ghost use Rattle.gltf_inspect_files.specs.Texts.{absent_code, is_needed_here};

use gltf_findings::code::Code;
use gltf_findings::findings::Findings;
use gltf_json_record::error::{Error, RecordFault};
use gltf_json_record::path::{Path, Step};
use std::alloc::{AllocError, Global};

/// Adds the fault of a text. Fails where there is no memory.
pub(crate) fn tell_text(
    alloc: Global,
    fault: &Error,
    findings: &mut Findings,
) -> Result<(), AllocError>
    ensures { OnOk result (findings.new ≡ findings.old ++ text_findings fault.now) }
{
    match fault {
        Error::Text(_) => findings.add(Path::new(alloc), Code::InvalidJson),
        Error::Record { path, fault } => {
            let code = code_at(path.steps(), *fault);
            findings.add(path.clone(alloc)?, code)
        }
        Error::Memory => Err(AllocError),
    }
}

fn code_at(steps: &[Step], fault: RecordFault) -> Code
    ensures { result ≡ record_code (last_of (named []) (map place_of steps.now)) fault }
{
    let mut last = &Step::Member("");
    for step in steps {
        last = step;
    }
    record_code(last, fault)
}

fn record_code(step: &Step, fault: RecordFault) -> Code
    ensures { result ≡ record_code (place_of step.now) fault }
{
    match fault {
        RecordFault::MissingMember => absent_code(step),
        RecordFault::WrongKind => kind_code(step),
    }
}

fn absent_code(step: &Step) -> Code
    ensures { result ≡ absent_code (place_of step.now) }
{
    if is_needed_here(step) {
        Code::NeededByReader
    } else {
        Code::UndefinedProperty
    }
}

/// Whether the standard lets a member of this name be absent, without which nothing is loaded: the
/// source of a texture, and the node of a channel's target (glTF 2.0, sections 5.29.2 and 5.7.1).
fn is_needed_here(step: &Step) -> bool
    ensures { result ≡ is_needed_here (place_of step.now) }
{
    match step {
        Step::Member(name) => *name == "source" || *name == "node",
        Step::Item(_) | Step::Attribute(_) => false,
    }
}

fn kind_code(step: &Step) -> Code
    ensures { result ≡ kind_code (place_of step.now) }
{
    match step {
        Step::Item(_) => Code::ArrayTypeMismatch,
        Step::Member(_) | Step::Attribute(_) => Code::TypeMismatch,
    }
}
