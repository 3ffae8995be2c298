//! Shows what a glTF file holds.
#![tactic(auto)]

mod call;
mod chunks;
mod findings;
mod indices;
mod kept;
mod looked;
mod old;
mod opened;
mod refusal;
mod run;
mod summary;
mod taken;

use findings::inspect_files;
use gltf_shared::RegularFolder;
pub use run::run;
use std::env;
use std::io::{ErrorKind, Write};
use std::process::ExitCode;

fn main(rt: HostRuntime) -> std::io::Result<ExitCode> {
    let alloc = rt.alloc();
    let mut arguments = match env::args(&rt) {
        Ok(arguments) => arguments,
        Err(cause) => return refused(&mut rt.stderr(), cause),
    };
    let _program = arguments.next();
    let arguments: Vec<String> = arguments.collect(alloc)?;
    let mut words = Vec::new(alloc);
    for word in &arguments {
        words.push(word.as_str())?;
    }
    if let ["inspect", files @ ..] = words.as_slice() {
        let answer = inspect_files(&rt, alloc, files, &mut rt.stdout(), &mut rt.stderr());
        if let Some(status) = answer {
            return Ok(ExitCode::from(status));
        }
    }
    // What follows this word is a path, whatever it begins with, as it is without that word.
    if let [_, "--", ..] = words.as_slice() {
        let _dashes = words.remove(1);
    }
    let folder = RegularFolder::new(&rt, alloc, base_of(words.as_slice()));
    let status = run(
        alloc,
        folder,
        words.as_slice(),
        &mut rt.stdout(),
        &mut rt.stderr(),
    );
    Ok(ExitCode::from(status))
}

/// The exit status where the words could not be read: 2 where one of them is no UTF-8.
fn refused<E: Write>(err: &mut E, cause: std::io::Error) -> std::io::Result<ExitCode> {
    if cause.kind() != ErrorKind::InvalidData {
        return Err(cause);
    }
    writeln!(err, "gltf_show: the words have to be UTF-8")?;
    Ok(ExitCode::from(2))
}

/// The folders of the path: relative names are put after them.
fn base_of<'w>(words: &[&'w str]) -> &'w str {
    match words {
        [_, path, ..] => gltf::base_of(*path),
        _ => "",
    }
}
