//! Made reports, each told by both forms, on one line and on several.
use crate::message::message as before;
use crate::tree::json_text;
use gltf_findings::code::Code;
use gltf_findings::findings::Findings;
use gltf_findings::report::Report;
use gltf_json::root::Root;
use gltf_json_record::path::{Path, Step};
use gltf_json_record::read::FromValue;
use gltf_messages::message::message;
use gltf_report_json::text::report_text;
use serde_json::Value;
use std::alloc::{AllocError, Global};
use std::test::Fail;

/// Codes of each severity, and each that a message has numbers or kinds for.
const CODES: [Code; 26] = [
    Code::UnusedObject,
    Code::ViewTargetMissing,
    Code::NoPosition,
    Code::InvalidAttribute,
    Code::TypeMismatch,
    Code::ArrayTypeMismatch,
    Code::ValueNotInRange,
    Code::ValueMultipleOf,
    Code::ViewTooBigByteStride,
    Code::ViewTooLong,
    Code::OffsetAlignment,
    Code::TotalOffsetAlignment,
    Code::SmallByteStride,
    Code::AccessorTooLong,
    Code::SparseCountOutOfRange,
    Code::InputTooFewElements,
    Code::IbmCount,
    Code::NodeWeightsInvalid,
    Code::MeshInvalidWeightsCount,
    Code::UnequalAccessorCount,
    Code::NodeEmpty,
    Code::AlphaCutoffInvalidMode,
    Code::IoError,
    Code::UndeclaredExtension,
    Code::AnimationInputNonIncreasing,
    Code::UnresolvedReference,
];

/// Names of files, some with what has an escape in JSON.
const NAMES: [&str; 8] = [
    "",
    "a.gltf",
    "a \"b\" \\ c/d.glb",
    "\u{0}\u{1}\u{1f} \u{7f}",
    "tab\tline\nback\u{8}feed\u{c}return\r",
    "größe \u{2028} \u{1f600} 名前",
    "~0 ~1 / ~",
    "a name of more than sixty-four bytes, of which the last but one is a quote: \"'",
];

/// Texts of documents and of values that are none: with no, one and many names of extensions, with
/// and without a generator, a scene, skins, textures and targets, and with values of each kind where
/// another is wanted.
const DOCUMENTS: [&str; 7] = [
    "{\"asset\": {\"version\": \"2.0\"}}",
    "{\"asset\": {\"version\": \"2.0\", \"generator\": \"\\u0000 \\\"a\\\" \\\\ ü\"}, \"scene\": 0,
      \"scenes\": [{\"nodes\": [0]}], \"nodes\": [{\"mesh\": 0, \"weights\": [1, 2, 3]}, {}],
      \"extensionsUsed\": [\"KHR_a\"], \"extensionsRequired\": [\"KHR_a\"],
      \"buffers\": [{\"byteLength\": 8}],
      \"bufferViews\": [{\"buffer\": 0, \"byteOffset\": 2, \"byteLength\": 7, \"byteStride\": 6}],
      \"accessors\": [
        {\"bufferView\": 0, \"byteOffset\": 1, \"componentType\": 5126, \"count\": 3,
         \"type\": \"VEC3\", \"sparse\": {\"count\": 9, \"indices\": {\"bufferView\": 0,
         \"componentType\": 5121}, \"values\": {\"bufferView\": 0}}},
        {\"componentType\": 5126, \"count\": 5, \"type\": \"VEC3\"}],
      \"meshes\": [{\"weights\": [0.5], \"primitives\": [{\"attributes\": {\"POSITION\": 0,
        \"NORMAL\": 1, \"_A~/\\\"\": 1}, \"targets\": [{\"POSITION\": 0}, {}]}]}],
      \"skins\": [{\"joints\": [0, 1, 1, 1, 1, 1], \"inverseBindMatrices\": 0}],
      \"animations\": [{\"channels\": [{\"sampler\": 0,
        \"target\": {\"node\": 0, \"path\": \"scale\"}}],
        \"samplers\": [{\"input\": 1, \"output\": 0}]}],
      \"materials\": [{}, {}], \"textures\": [{\"source\": 0}],
      \"images\": [{\"uri\": \"a.png\"}]}",
    "{\"asset\": {\"version\": \"2.1\", \"generator\": \"\"}, \"accessors\": [{\"count\":
      18446744073709551615, \"componentType\": 5126, \"type\": \"SCALAR\"}, {\"count\": 1,
      \"componentType\": 5126, \"type\": \"SCALAR\"}], \"extensionsUsed\":
      [\"b\", \"a\", \"\", \"\\n\"],
      \"meshes\": [{\"primitives\": [{\"attributes\": {\"POSITION\": 0}}, {\"attributes\":
      {\"POSITION\": 1}}, {\"attributes\": {\"POSITION\": 7}}]}],
      \"extensionsRequired\": [\"a\", \"b\"]}",
    "{\"nodes\": {\"0\": {\"mesh\": -1.5e300}}, \"meshes\": 7, \"a~b/c\": [true, null, \"x\"]}",
    "[]",
    "null",
    WRONG_KINDS,
];

/// Booleans, texts, fractions and exponents, and `null`, lists and objects, where another kind is
/// wanted.
const WRONG_KINDS: &str = "{\"nodes\": [{\"mesh\": 1e-7, \"name\": false}, {\"mesh\": true,
      \"name\": 2.5}, \"a node\"], \"meshes\": \"no list\", \"accessors\": [{\"count\": -1.5e-300,
      \"normalized\": \"yes\"}, {\"count\": \"3\", \"normalized\": 0.5}, true],
      \"bufferViews\": true, \"extensionsUsed\": [true, -2.5, \"a\"], \"skins\": 6.5e-11,
      \"animations\": {\"0\": null}, \"buffers\": [[1], 7.25]}";

/// Places in that text, and what is said of the kind of the value there.
const SAID: [(&[usize], &str); 19] = [
    (
        &[0, 16, 22],
        "Found 1e-7, wanted a whole number from 0 to 4294967295.",
    ),
    (
        &[0, 17, 22],
        "Found true or false, wanted a whole number from 0 to 4294967295.",
    ),
    (&[0, 16, 23], "Found true or false, wanted a string."),
    (&[0, 17, 23], "Found 2.5, wanted a string."),
    (&[0, 26], "Found a string, wanted an object."),
    (&[1], "Found a string, wanted a list."),
    (
        &[2, 16, 13],
        "Found -1.5e-300, wanted a whole number from 0 to 18446744073709551615.",
    ),
    (
        &[2, 17, 13],
        "Found a string, wanted a whole number from 0 to 18446744073709551615.",
    ),
    (&[2, 16, 24], "Found a string, wanted true or false."),
    (&[2, 17, 24], "Found 0.5, wanted true or false."),
    (&[2, 26], "Found true or false, wanted an object."),
    (&[3], "Found true or false, wanted a list."),
    (&[25, 16], "Found true or false, wanted a string."),
    (&[25, 17], "Found -2.5, wanted a string."),
    (&[10], "Found 6.5e-11, wanted a list."),
    (&[8], "Found an object, wanted a list."),
    (&[8, 16], "Found null, wanted an object."),
    (&[11, 16], "Found a list, wanted an object."),
    (&[11, 17], "Found 7.25, wanted an object."),
];

fn member(name: &'static str) -> Step {
    Step::Member(name)
}

/// The step that has this number, of those that are put together to places.
fn step(alloc: Global, number: usize) -> Result<Step, AllocError> {
    Ok(match number % 27 {
        0 => member("nodes"),
        1 => member("meshes"),
        2 => member("accessors"),
        3 => member("bufferViews"),
        4 => member("primitives"),
        5 => member("attributes"),
        6 => member("a~b/c"),
        7 => member("weights"),
        8 => member("animations"),
        9 => member("samplers"),
        10 => member("skins"),
        11 => member("buffers"),
        12 => member("sparse"),
        13 => member("count"),
        14 => member("byteStride"),
        15 => member("extensions"),
        16 => Step::Item(0),
        17 => Step::Item(1),
        18 => Step::Item(usize::MAX),
        19 => Step::Attribute(String::from_str(alloc, "POSITION")?),
        20 => Step::Attribute(String::from_str(alloc, "_A~/\"")?),
        21 => Step::Attribute(String::from_str(alloc, "\u{1}ü")?),
        22 => member("mesh"),
        23 => member("name"),
        24 => member("normalized"),
        25 => member("extensionsUsed"),
        _ => Step::Item(2),
    })
}

/// Places that are in the documents above.
const PLACES: [&[usize]; 37] = [
    &[],
    &[0, 16],
    &[0, 17],
    &[1, 16],
    &[1, 16, 7],
    &[1, 16, 4, 16, 5, 19],
    &[1, 16, 4, 16, 5, 20],
    &[1, 16, 4, 16, 5, 21],
    &[2, 16],
    &[2, 16, 13],
    &[2, 16, 12, 13],
    &[3, 16],
    &[3, 16, 14],
    &[8, 16, 9, 16],
    &[10, 16],
    &[11, 16],
    &[6, 17],
    &[6, 16],
    &[6, 26],
    &[1],
    &[3],
    &[8],
    &[8, 16],
    &[10],
    &[0, 26],
    &[0, 16, 22],
    &[0, 17, 22],
    &[0, 16, 23],
    &[0, 17, 23],
    &[1, 16, 7, 16],
    &[2, 26],
    &[2, 16, 24],
    &[2, 17, 13],
    &[2, 17, 24],
    &[11, 17],
    &[25, 16],
    &[25, 17],
];

fn path(alloc: Global, steps: &[usize]) -> Result<Path, AllocError> {
    let mut path = Path::new(alloc);
    for number in steps {
        path.push(step(alloc, *number)?)?;
    }
    Ok(path)
}

/// A number that looks drawn by lot, made from the last.
fn next(number: &mut usize) -> usize {
    *number = number
        .wrapping_mul(6364136223846793005)
        .wrapping_add(1442695040888963407);
    *number >> 33
}

/// A report with each code at each place, and with places put together by lot.
fn full_report(alloc: Global) -> Result<Report, AllocError> {
    let mut findings = Findings::new(alloc);
    for steps in &PLACES {
        for code in &CODES {
            findings.add(path(alloc, *steps)?, *code)?;
        }
    }
    let mut number = 1;
    for _ in 0..200 {
        let mut drawn = Path::new(alloc);
        for _ in 0..next(&mut number) % 6 {
            drawn.push(step(alloc, next(&mut number))?)?;
        }
        findings.add(drawn, CODES[next(&mut number) % CODES.len()])?;
    }
    Ok(Report::new(findings))
}

/// A report of as many findings as are asked for.
fn small_report(alloc: Global, count: usize, seed: usize) -> Result<Report, AllocError> {
    let mut findings = Findings::new(alloc);
    let mut number = seed;
    for _ in 0..count {
        let steps = PLACES[next(&mut number) % PLACES.len()];
        let code = CODES[next(&mut number) % CODES.len()];
        findings.add(path(alloc, steps)?, code)?;
    }
    Ok(Report::new(findings))
}

/// Both forms, on one line and on several.
fn are_same(
    alloc: Global,
    name: &str,
    report: &Report,
    root: Option<&Root>,
    value: Option<&Value>,
) -> Result<bool, AllocError> {
    let mut same = true;
    for is_pretty in [false, true] {
        let before = json_text(alloc, name, report, root, value, is_pretty)?;
        let now = report_text(alloc, name, report, root, value, is_pretty)?;
        same = same && before.as_str() == now.as_str();
    }
    Ok(same)
}

/// With and without the value of the document.
fn are_same_in_each_way(
    alloc: Global,
    name: &str,
    report: &Report,
    root: Option<&Root>,
    value: &Value,
) -> Result<bool, AllocError> {
    Ok(
        are_same(alloc, name, report, root, Some(value))?
            && are_same(alloc, name, report, root, None)?,
    )
}

fn root_of(alloc: Global, value: &Value) -> Option<Root> {
    Root::from_value(alloc, value).ok()
}

#[test]
fn a_full_report_is_the_text_of_the_tree(rt: HostRuntime) -> Result<(), Fail> {
    let alloc = rt.alloc();
    let report = full_report(alloc)?;
    for text in DOCUMENTS {
        let value = Value::from_str(alloc, text)?;
        let root = root_of(alloc, &value);
        let same = are_same_in_each_way(alloc, "a.gltf", &report, root.as_ref(), &value)?;
        assert!(rt; same, "{text}");
    }
    Ok(())
}

#[test]
fn a_message_is_that_from_before(rt: HostRuntime) -> Result<(), Fail> {
    let alloc = rt.alloc();
    let report = full_report(alloc)?;
    for text in DOCUMENTS {
        let value = Value::from_str(alloc, text)?;
        let root = root_of(alloc, &value);
        for (place, code) in report.findings() {
            let says = message(alloc, root.as_ref(), Some(&value), place, *code)?;
            let said = before(alloc, root.as_ref(), Some(&value), place, *code)?;
            assert_eq!(rt; says.as_str(), said.as_str(), "{text}");
        }
    }
    Ok(())
}

#[test]
fn small_reports_are_the_texts_of_their_trees(rt: HostRuntime) -> Result<(), Fail> {
    let alloc = rt.alloc();
    let mut number = 0;
    for count in [0, 1, 1, 1, 2, 3] {
        for name in NAMES {
            for text in DOCUMENTS {
                let report = small_report(alloc, count, next(&mut number))?;
                let value = Value::from_str(alloc, text)?;
                let root = root_of(alloc, &value);
                let same = are_same_in_each_way(alloc, name, &report, root.as_ref(), &value)?
                    && are_same_in_each_way(alloc, name, &report, None, &value)?;
                assert!(rt; same, "{count} {name} {text}");
            }
        }
    }
    Ok(())
}

#[test]
fn the_first_three_texts_are_documents(rt: HostRuntime) -> Result<(), Fail> {
    let alloc = rt.alloc();
    for (k, text) in DOCUMENTS.iter().enumerate() {
        let value = Value::from_str(alloc, text)?;
        assert_eq!(rt; root_of(alloc, &value).is_some(), k < 3, "{text}");
    }
    Ok(())
}

#[test]
fn the_kind_that_is_found_is_said(rt: HostRuntime) -> Result<(), Fail> {
    let alloc = rt.alloc();
    let value = Value::from_str(alloc, WRONG_KINDS)?;
    for (steps, kinds) in SAID {
        let place = path(alloc, steps)?;
        let says = message(alloc, None, Some(&value), &place, Code::TypeMismatch)?;
        assert!(rt; says.as_str().ends_with(kinds), "{says}");
    }
    Ok(())
}
