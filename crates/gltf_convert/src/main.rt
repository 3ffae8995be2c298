//! Converts a glTF file to one GLB container, or to JSON text with files beside it.
#![tactic(auto)]

mod beside;
mod elsewhere;
mod files;
mod instead;
pub mod laws;
mod left;
mod meanwhile;
mod noted;
mod refusal;
mod run;
mod shared;
mod staying;
mod words;

use gltf_names::{Folder, Inside, OwnFolder};
use noted::Noted;
pub use run::run;
use std::env;
use std::io::{ErrorKind, Write};
use std::process::ExitCode;
use std::rt::HostRuntime;

fn main(rt: HostRuntime) -> std::io::Result<ExitCode> {
    let alloc = rt.alloc();
    let mut arguments = match env::args(&rt) {
        Ok(arguments) => arguments,
        Err(cause) => return refused(&mut rt.stderr(), cause),
    };
    let _program = arguments.next();
    let arguments: Vec<String> = arguments.collect(alloc)?;
    let mut words = Vec::new(alloc);
    for word in &arguments {
        words.push(word.as_str())?;
    }
    Ok(ExitCode::from(answer(&rt, words.as_slice())))
}

/// Reads what the file names: with `--outside` wherever it is, else in the folder of the file.
fn answer<'a>(rt: &'a HostRuntime, words: &[&'a str]) -> u8 {
    let (mut out, mut err) = (rt.stdout(), rt.stderr());
    let document = match words {
        [path, ..] => *path,
        [] => "",
    };
    let base = gltf::base_of(document);
    if words.contains(&"--outside") {
        let mut folder = Noted::new(rt.alloc(), Folder::new(rt, base), base);
        return run(rt, &mut folder, words, &mut out, &mut err);
    }
    let inside = Inside::new(OwnFolder::new(rt, base), document);
    let mut inside = Noted::new(rt.alloc(), inside, base);
    run(rt, &mut inside, words, &mut out, &mut err)
}

/// The exit status where the words could not be read: 2 where one of them is no UTF-8.
fn refused<E: Write>(err: &mut E, cause: std::io::Error) -> std::io::Result<ExitCode> {
    if cause.kind() != ErrorKind::InvalidData {
        return Err(cause);
    }
    writeln!(err, "gltf_convert: the words have to be UTF-8")?;
    Ok(ExitCode::from(2))
}
