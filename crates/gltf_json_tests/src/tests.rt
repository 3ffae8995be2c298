//! Made texts, each read by both ways: its fault is that which the tree gives.
use gltf_json::root::Root;
use gltf_json_deserialize::deserialize::{from_slice, from_value};
use gltf_json_record::error::Error;
use serde_json::Value;
use std::alloc::{AllocError, Global};
use std::test::Fail;

/// A document with each kind of token, blanks and ends of lines.
const DOCUMENT: &str = "{\"asset\": {\"version\": \"2.0\"},\r\n \"scene\": 0,\t\"scenes\": [{}],
  \"nodes\": [{\"name\": \"a \\\"\\u00fc\\n\\\\\", \"extras\": [true, false, null, [], {}, [[1.5]],
    -0.25e-3, 1E+2, 18446744073709551616, \"\u{1f600}\", {\"a\": {\"b\": [2]}, \"\": 0}]}, {
    \"mesh\": 0, \"children\": [1, 2]}], \"meshes\": [{\"primitives\": []}]}\n";

/// One with faults of its records before each fault of its grammar.
const RECORDS: &str =
    "{\"scene\": -1, \"nodes\": {\"0\": [1, {\"a\": 7e400}, \"b\"]}, \"asset\": 3}";

/// What stands in the place of a byte.
const BYTES: &[u8] = b"\0 \"\\,:[]{}0-+.eEtfnu/\x1f\x7f\x80\xc3\xff";

/// Texts that end, or have more behind them, in ways of their own.
const TEXTS: [&[u8]; 28] = [
    b"",
    b" \n\t\r ",
    b"{}",
    b"{} {}",
    b"{},",
    b"{}]",
    b"[]",
    b"[1,]",
    b"[,1]",
    b"{,}",
    b"{\"a\"}",
    b"{\"a\":}",
    b"{\"a\":1,}",
    b"{\"a\" 1}",
    b"{1:1}",
    b"[1 2]",
    b"[}",
    b"{]",
    b"nul",
    b"nulll",
    b"-",
    b"01",
    b"1.",
    b"1e400",
    b"[1e400, ",
    b"[, 1e400]",
    b"\"\\ud800\"",
    b"\xef\xbb\xbf{}",
];

/// The reading by way of a tree.
fn of_tree(alloc: Global, bytes: &[u8]) -> Result<Root, Error> {
    let value = Value::from_slice(alloc, bytes)?;
    from_value(alloc, &value)
}

/// What a reading says, with the line and the column of a fault of the text.
fn said(alloc: Global, read: &Result<Root, Error>) -> Result<String, AllocError> {
    match read {
        Ok(_) => String::from_str(alloc, "a document"),
        Err(error) => format!(in alloc; "{error:?}"),
    }
}

/// Whether both ways say the same of a text.
pub(crate) fn is_same(alloc: Global, bytes: &[u8]) -> Result<bool, AllocError> {
    let one = said(alloc, &from_slice(alloc, bytes))?;
    let other = said(alloc, &of_tree(alloc, bytes))?;
    Ok(one == other)
}

/// Whether both say the same of each beginning of a text, and of each text with another byte in
/// the place of one.
fn are_same_at_each_byte(alloc: Global, text: &[u8]) -> Result<bool, AllocError> {
    for at in 0..text.len() {
        let (front, back) = text.split_at(at);
        if !is_same(alloc, front)? {
            return Ok(false);
        }
        for byte in BYTES {
            let mut changed = Vec::from_slice(alloc, front)?;
            changed.push(*byte)?;
            if let Some((_, rest)) = back.split_first() {
                changed.extend_from_slice(rest)?;
            }
            if !is_same(alloc, &changed)? {
                return Ok(false);
            }
        }
    }
    Ok(true)
}

/// A text that has one part so many times, and then another one.
pub(crate) fn nested(
    alloc: Global,
    opening: &[u8],
    levels: usize,
    closing: &[u8],
    ends: usize,
) -> Result<Vec<u8>, AllocError> {
    let mut text = Vec::new(alloc);
    for _ in 0..levels {
        text.extend_from_slice(opening)?;
    }
    for _ in 0..ends {
        text.extend_from_slice(closing)?;
    }
    Ok(text)
}

#[test]
fn a_document_with_another_byte_is_refused_alike(rt: HostRuntime) -> Result<(), Fail> {
    assert!(rt; is_same(rt.alloc(), DOCUMENT.as_bytes())?);
    assert!(rt; are_same_at_each_byte(rt.alloc(), DOCUMENT.as_bytes())?);
    Ok(())
}

#[test]
fn records_with_another_byte_are_refused_alike(rt: HostRuntime) -> Result<(), Fail> {
    assert!(rt; are_same_at_each_byte(rt.alloc(), RECORDS.as_bytes())?);
    Ok(())
}

#[test]
fn short_texts_are_refused_alike(rt: HostRuntime) -> Result<(), Fail> {
    for text in TEXTS {
        assert!(rt; is_same(rt.alloc(), text)?);
        assert!(rt; are_same_at_each_byte(rt.alloc(), text)?);
    }
    Ok(())
}

#[test]
fn texts_that_nest_deep_are_refused_alike(rt: HostRuntime) -> Result<(), Fail> {
    for levels in 124..132_usize {
        for closing in 124..132_usize {
            let lists = nested(rt.alloc(), b"[", levels, b"]", closing)?;
            assert!(rt; is_same(rt.alloc(), &lists)?);
            let objects = nested(rt.alloc(), b"{\"a\":", levels, b"}", closing)?;
            assert!(rt; is_same(rt.alloc(), &objects)?);
            let both = nested(rt.alloc(), b"[{\"\":", levels / 2, b"}]", closing / 2)?;
            assert!(rt; is_same(rt.alloc(), &both)?);
        }
    }
    Ok(())
}
