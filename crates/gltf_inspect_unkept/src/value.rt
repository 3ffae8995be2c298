//! The extensions that are used in a JSON value, in objects of which no record keeps them.
ghost use Rattle.std.specs.Prelude.{◌≡◌, ◌++◌, [], IfOk, OnOk, codes, map};
ghost use Rattle.std.specs.String.{string_bytes};
ghost use Rattle.serde_json.specs.View.{view};
ghost use Rattle.gltf_json_record.specs.Member.{member_at};
ghost use Rattle.gltf_inspect_meshes.specs.Names.{has_name};
ghost use Rattle.gltf_findings.specs.Checks.{findings_of};
ghost use Rattle.gltf_inspect_unkept.specs.Documents.{array_texts, text_of, texts};
ghost use Rattle.gltf_inspect_unkept.specs.Documents.{declared_by};
ghost use Rattle.gltf_inspect_unkept.specs.Documents.{unkept_checks};

use crate::document::tell_document;
use gltf_findings::findings::Findings;
use gltf_findings::laws::a_walk_adds_what_is_found;
use gltf_findings::report::Report;
use gltf_inspect_meshes::names::NameSet;
use gltf_json_record::read::member;
use serde_json::Value;
use std::alloc::{AllocError, Global};

/// Each extension that the JSON value of a document uses in an object of which no record keeps
/// them, and that is not among its `extensionsUsed`: in the sparse parts of accessors, their
/// indices and values, and then in the channels of animations, their targets and the samplers, in
/// the order of the file. The code is that of a record's extension. Takes memory for the declared
/// names and for a finding, and fails where there is none.
pub fn inspect_value(alloc: Global, value: &Value) -> Result<Report, AllocError>
    ensures { IfOk result (λ report. report ≡ findings_of [] (unkept_checks (view value.now))) }
{
    // A law that the proof stands on; the call does nothing.
    a_walk_adds_what_is_found();
    let used = declared_by(alloc, value)?;
    let mut findings = Findings::new(alloc);
    tell_document(value, &used, &mut findings)?;
    Ok(Report::new(findings))
}

/// The names that the value of a document declares.
fn declared_by(alloc: Global, value: &Value) -> Result<NameSet, AllocError>
    ensures { IfOk result (λ set. has_name set ≡ declared_by (view value.now)) }
{
    let names = names_of(alloc, value)?;
    NameSet::of(alloc, names.as_slice())
}

fn names_of(alloc: Global, value: &Value) -> Result<Vec<String>, AllocError>
    ensures { IfOk result (λ names. map string_bytes names.items
        ≡ texts (member_at (codes "extensionsUsed") (view value.now))) }
{
    match member(value, "extensionsUsed") {
        Some(list) => texts_of(alloc, list),
        None => Ok(Vec::new(alloc)),
    }
}

/// The texts of an array.
fn texts_of(alloc: Global, list: &Value) -> Result<Vec<String>, AllocError>
    ensures { IfOk result (λ names. map string_bytes names.items ≡ array_texts (view list.now)) }
{
    let mut names = Vec::new(alloc);
    let Value::Array(items) = list else {
        return Ok(names);
    };
    for item in items {
        add_text(&mut names, item)?;
    }
    Ok(names)
}

fn add_text(names: &mut Vec<String>, item: &Value) -> Result<(), AllocError>
    ensures { OnOk result (map string_bytes names.new.items
        ≡ map string_bytes names.old.items ++ text_of (view item.now)) }
{
    if let Value::String(text) = item {
        names.push(text.clone()?)?;
    }
    Ok(())
}
