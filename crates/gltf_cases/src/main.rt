//! Answers files of cases, a case a line, with a line each. `tables/` beside this folder says what
//! they are and what has to be answered.
#![tactic(auto)]

mod broken;
mod calls;
mod containers;
mod documents;
mod files;
mod imported;
mod items;
mod lists;
mod named;
mod reads;
mod streamed;
mod told;

use gltf::Error;
use gltf_case::asked::Asked;
use std::rt::HostRuntime;
use std::{env, fs};

fn main(rt: HostRuntime) -> Result<(), Error> {
    let mut words = env::args(&rt)?;
    let _program = words.next();
    let paths: Vec<String> = words.collect(rt.alloc())?;
    for path in &paths {
        answer_file(&rt, path.as_str())?;
    }
    Ok(())
}

/// Prints the name of a file, and the line that answers each of its cases.
fn answer_file(rt: &HostRuntime, path: &str) -> Result<(), Error> {
    println!(rt; "{path}")?;
    let cases = fs::read_to_string(rt, path)?;
    for case in cases.lines() {
        let line = answer_of(rt, Asked::of(case))?;
        println!(rt; "{line}")?;
    }
    Ok(())
}

/// The line that answers a case. What is given as `@NAME` is the file of that name.
fn answer_of(rt: &HostRuntime, asked: Asked<'_>) -> Result<String, Error> {
    let mut line = String::new(rt.alloc());
    match asked.given.strip_prefix("@") {
        Some(name) => {
            let bytes = fs::read(rt, name)?;
            calls::of_bytes(rt.alloc(), asked, &bytes, &mut line)?;
        }
        None => match asked.call {
            "opened" | "open" | "folder" | "beside" => named::of_system(rt, asked, &mut line)?,
            _ => calls::answer(rt.alloc(), asked, &mut line)?,
        },
    }
    Ok(line)
}
