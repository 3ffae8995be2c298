//! Answers files of cases on what programs over the loader ask, a case a line, with a line each:
//! who uses what, documents that require extensions of the caller's, bytes where they lie, and why
//! a reader read nothing. `tables/` beside this folder says what they are and what has to be
//! answered.
#![tactic(auto)]

mod buffers;
mod calls;
mod guide;
mod opened;
mod options;
mod raw;
mod reasons;
mod sources;
mod uses;

use gltf::Error;
use gltf_case::asked::Asked;
use std::rt::HostRuntime;
use std::{env, fs};

fn main(rt: HostRuntime) -> Result<(), Error> {
    let mut words = env::args(&rt)?;
    let _program = words.next();
    let paths: Vec<String> = words.collect(rt.alloc())?;
    for path in &paths {
        answer_file(&rt, path.as_str())?;
    }
    Ok(())
}

/// Prints the name of a file, and the line that answers each of its cases.
fn answer_file(rt: &HostRuntime, path: &str) -> Result<(), Error> {
    println!(rt; "{path}")?;
    let cases = fs::read_to_string(rt, path)?;
    for case in cases.lines() {
        let mut line = String::new(rt.alloc());
        calls::answer(rt, Asked::of(case), &mut line)?;
        println!(rt; "{line}")?;
    }
    Ok(())
}
