//! The rules of loading: each broken one is found, where it stands.
ghost use Rattle.std.specs.Prelude.{◌≡◌, ◌++◌, OnOk, map};
ghost use Rattle.gltf_json_record.specs.Place.{place_of, numbered};
ghost use Rattle.gltf_inspect.specs.Refusals.{refusal_code, invalid_code, missing_code, last_of};
ghost use Rattle.gltf_inspect.specs.Refusals.{refusal};

use gltf_findings::code::Code;
use gltf_findings::findings::Findings;
use gltf_json_record::path::{Path, Step};
use gltf_validation::error::Error;
use std::alloc::{AllocError, Global};

/// Reports each broken rule.
pub(crate) fn tell_refusals(
    alloc: Global,
    faults: &[(Path, Error)],
    findings: &mut Findings,
) -> Result<(), AllocError>
    ensures { OnOk result (findings.new ≡ findings.old ++ map refusal faults.now) }
{
    for fault in faults {
        let (path, error) = fault;
        findings.add(path.clone(alloc)?, code_at(path.steps(), *error))?;
    }
    Ok(())
}

fn code_at(steps: &[Step], error: Error) -> Code
    ensures { result ≡ refusal_code (last_of (numbered 0) (map place_of steps.now)) error }
{
    let mut last = &Step::Item(0);
    for step in steps {
        last = step;
    }
    refusal_code(last, error)
}

fn refusal_code(step: &Step, error: Error) -> Code
    ensures { result ≡ refusal_code (place_of step.now) error }
{
    match error {
        Error::IndexOutOfBounds => Code::UnresolvedReference,
        Error::Invalid => invalid_code(step),
        Error::Missing => missing_code(step),
        Error::Oversize => Code::ValueNotInRange,
        Error::Unsupported => Code::RequiredExtension,
    }
}

fn invalid_code(step: &Step) -> Code
    ensures { result ≡ invalid_code (place_of step.now) }
{
    match step {
        Step::Member(_) | Step::Item(_) => Code::ValueNotInList,
        Step::Attribute(_) => Code::InvalidAttribute,
    }
}

fn missing_code(step: &Step) -> Code
    ensures { result ≡ missing_code (place_of step.now) }
{
    match step {
        Step::Member(name) => {
            if *name == "uri" {
                Code::OneOfMismatch
            } else if *name == "mimeType" {
                Code::UnsatisfiedDependency
            } else {
                Code::UndefinedProperty
            }
        }
        Step::Item(_) | Step::Attribute(_) => Code::UndefinedProperty,
    }
}
