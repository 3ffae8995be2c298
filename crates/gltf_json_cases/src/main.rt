//! Reads each line of a file as a document, in one pass and from its tree, and says how the two
//! readings compare. Where `from_slice` gives another answer than the tree, the line says so too.
//! `cases.py` beside this folder writes the lines, and what has to be printed.
#![tactic(auto)]

use gltf_json::root::Root;
use gltf_json_deserialize::deserialize::{from_slice, from_value};
use gltf_json_pull::text::pull;
use gltf_json_record::error::Error;
use serde_json::Value;
use std::alloc::{AllocError, Global};
use std::rt::HostRuntime;
use std::{env, fs, io};

fn main(rt: HostRuntime) -> io::Result<()> {
    let mut words = env::args(&rt)?;
    let _program = words.next();
    let paths: Vec<String> = words.collect(rt.alloc())?;
    for path in &paths {
        let texts = fs::read_to_string(&rt, path.as_str())?;
        for text in texts.lines() {
            let line = compared(rt.alloc(), text.as_bytes())?;
            println!(rt; "{line}")?;
        }
    }
    Ok(())
}

/// How the readings of a text compare. The documents are dropped here, at one exit.
fn compared(alloc: Global, bytes: &[u8]) -> Result<String, AllocError> {
    let mut line = String::new(alloc);
    let pulled: Option<Root> = pull(alloc, bytes);
    let read = of_tree(alloc, bytes);
    let sliced = from_slice(alloc, bytes);
    write_compared(alloc, &pulled, &read, &sliced, &mut line)?;
    Ok(line)
}

/// The document of the value that `serde_json` reads.
fn of_tree(alloc: Global, bytes: &[u8]) -> Result<Root, Error> {
    let value = Value::from_slice(alloc, bytes)?;
    from_value(alloc, &value)
}

fn write_compared(
    alloc: Global,
    pulled: &Option<Root>,
    read: &Result<Root, Error>,
    sliced: &Result<Root, Error>,
    line: &mut String,
) -> Result<(), AllocError> {
    write_pulled(alloc, pulled, read, line)?;
    if shown(alloc, read)? == shown(alloc, sliced)? {
        Ok(())
    } else {
        line.push_str("; from_slice: ANOTHER")
    }
}

/// All that a reading shows: the document, or the text of the error.
fn shown(alloc: Global, reading: &Result<Root, Error>) -> Result<String, AllocError> {
    let mut text = String::new(alloc);
    match reading {
        Ok(document) => write!(text, "{document:?}")?,
        Err(error) => write!(text, "{error}")?,
    }
    Ok(text)
}

/// How the one pass compares with the tree.
fn write_pulled(
    alloc: Global,
    pulled: &Option<Root>,
    read: &Result<Root, Error>,
    line: &mut String,
) -> Result<(), AllocError> {
    match pulled {
        Some(document) => {
            line.push_str("one pass: ")?;
            write_beside(alloc, document, read, line)
        }
        None => {
            line.push_str("tree: ")?;
            match read {
                Ok(_) => line.push_str("a document"),
                Err(Error::Text(_)) => line.push_str("no JSON text"),
                Err(error) => write!(line, "{error}"),
            }
        }
    }
}

/// What the tree gives beside a document of the one pass.
fn write_beside(
    alloc: Global,
    document: &Root,
    read: &Result<Root, Error>,
    line: &mut String,
) -> Result<(), AllocError> {
    match read {
        Ok(other) => {
            let is_same = text_of(alloc, document)? == text_of(alloc, other)?;
            line.push_str(if is_same { "the same" } else { "ANOTHER" })
        }
        Err(error) => write!(line, "REFUSED, {error}"),
    }
}

/// All that a document shows.
fn text_of(alloc: Global, document: &Root) -> Result<String, AllocError> {
    let mut text = String::new(alloc);
    write!(text, "{document:?}")?;
    Ok(text)
}
