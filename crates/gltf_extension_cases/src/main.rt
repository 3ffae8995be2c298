//! Answers a file of cases on extensions, a case a line, with a line each: the name of a call, and
//! the text of a document, whose first record with extensions the call is on. `tables/` beside this
//! folder says what has to be answered.
#![tactic(auto)]

mod calls;
mod imports;
mod instances;
mod lenient;
mod mended;
mod pairs;
mod written;

use gltf::Error;
use gltf_case::asked::Asked;
use std::rt::HostRuntime;
use std::{env, fs};

fn main(rt: HostRuntime) -> Result<(), Error> {
    let mut words = env::args(&rt)?;
    let _program = words.next();
    let paths: Vec<String> = words.collect(rt.alloc())?;
    for path in &paths {
        answer_file(&rt, path.as_str())?;
    }
    Ok(())
}

/// Prints the name of a file, and the line that answers each of its cases.
fn answer_file(rt: &HostRuntime, path: &str) -> Result<(), Error> {
    println!(rt; "{path}")?;
    let cases = fs::read_to_string(rt, path)?;
    for case in cases.lines() {
        let mut line = String::new(rt.alloc());
        answer(rt, case, &mut line)?;
        println!(rt; "{line}")?;
    }
    Ok(())
}

/// Writes what answers a case.
fn answer(rt: &HostRuntime, case: &str, line: &mut String) -> Result<(), Error> {
    let alloc = rt.alloc();
    let (call, text) = case.split_once(" ").unwrap_or((case, ""));
    if call == "lenient" {
        return lenient::write(rt, Asked::of(case), line);
    }
    if call == "accepts" {
        pairs::write_accepted(text, line)?;
        return Ok(());
    }
    if call == "instances" {
        instances::write(alloc, text, line)?;
        return Ok(());
    }
    if call == "pointer" {
        calls::write_pointer(alloc, text, line)?;
        return Ok(());
    }
    if call == "mended" {
        mended::write(alloc, text, line)?;
        return Ok(());
    }
    if matches!(
        call,
        "import" | "plain" | "positions" | "normals" | "tangents" | "tex_coords" | "displacements"
    ) {
        imports::write(alloc, call, text, line)?;
        return Ok(());
    }
    match gltf::Gltf::from_slice(alloc, text.as_bytes()) {
        Ok(file) => calls::write(alloc, call, &file.document, line)?,
        Err(error) => write!(line, "{error}")?,
    }
    Ok(())
}
