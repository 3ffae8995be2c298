//! Answers files of cases of compressed streams, a case a line, with a line each. `tables/` beside
//! this folder has the cases and what has to be answered, which `streams.py` made with the encoder
//! and the decoder of Debian's libmeshoptimizer.
#![tactic(auto)]

use gltf_meshopt::{Fault, decode_attributes, decode_indices, decode_triangles};
use hex::FromHexError;
use std::alloc::{AllocError, Global};
use std::rt::HostRuntime;
use std::{env, fs, io};

fn main(rt: HostRuntime) -> io::Result<()> {
    let mut words = env::args(&rt)?;
    let _program = words.next();
    let paths: Vec<String> = words.collect(rt.alloc())?;
    for path in &paths {
        answer_file(&rt, path.as_str())?;
    }
    Ok(())
}

/// Prints the name of a file, and the line that answers each of its cases.
fn answer_file(rt: &HostRuntime, path: &str) -> io::Result<()> {
    println!(rt; "{path}")?;
    let cases = fs::read_to_string(rt, path)?;
    for case in cases.lines() {
        let mut line = String::new(rt.alloc());
        answer(rt.alloc(), case, &mut line)?;
        println!(rt; "{line}")?;
    }
    Ok(())
}

/// Writes what a stream holds: `MODE COUNT STRIDE : BYTES`, with bytes as hexadecimal digits. After
/// `any MODE ..` no fault is named.
fn answer(alloc: Global, case: &str, line: &mut String) -> Result<(), AllocError> {
    let (head, digits) = case.split_once(" : ").unwrap_or((case, ""));
    let bytes = bytes_of(alloc, digits)?;
    let decoded = match head.strip_prefix("any ") {
        Some(rest) => decode(alloc, rest, &bytes),
        None => decode(alloc, head, &bytes),
    };
    write_decoded(&decoded, head.starts_with("any "), line)
}

/// What is decoded by a call: `MODE COUNT STRIDE`.
fn decode(alloc: Global, call: &str, bytes: &[u8]) -> Result<Vec<u8>, Fault> {
    let count = number(call, 1);
    let stride = number(call, 2);
    if call.starts_with("attributes ") {
        decode_attributes(alloc, bytes, count, stride)
    } else if call.starts_with("triangles ") {
        decode_triangles(alloc, bytes, count, stride)
    } else {
        decode_indices(alloc, bytes, count, stride)
    }
}

/// One of the words as a number; 0 where it is none.
fn number(call: &str, place: usize) -> usize {
    let word = call.split_whitespace().nth(place).unwrap_or("");
    word.parse::<usize>().unwrap_or(0)
}

/// The bytes that hexadecimal digits spell; none where they spell none.
fn bytes_of(alloc: Global, digits: &str) -> Result<Vec<u8>, AllocError> {
    match hex::decode(alloc, digits) {
        Ok(bytes) => Ok(bytes),
        Err(FromHexError::OutOfMemory) => Err(AllocError),
        Err(_) => Ok(Vec::new(alloc)),
    }
}

/// Writes bytes in hexadecimal digits, or why there are none.
fn write_decoded(
    decoded: &Result<Vec<u8>, Fault>,
    is_any: bool,
    line: &mut String,
) -> Result<(), AllocError> {
    match decoded {
        Ok(bytes) => {
            for byte in bytes {
                write!(line, "{byte:02x}")?;
            }
            Ok(())
        }
        Err(_) if is_any => line.push_str("refused"),
        Err(fault) => write!(line, "{fault:?}"),
    }
}
