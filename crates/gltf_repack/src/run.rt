//! The engine of the program, over any files and any two writers.
use crate::refusal::Refusal;
use gltf_pack::repack;
use gltf_put::put;
use std::io::Write;
use std::rt::Files;
use std::{fs, io};

/// Repacks the file that the first of two words names to the file that the second names, where the
/// words are the arguments after the program's name, and gives the exit status.
///
/// - 0: the second file is whole, and a line on `out` says how long it is.
/// - 1: the first file is refused, the second could not be written, or the line could not; the
///   reason stands on `err`, with the name of a file that could not be read or written.
/// - 2: the words are not two; the usage stands on `err`.
pub fn run<O: Write, E: Write>(
    rt: &(impl Files + AllocGlobal),
    words: &[&str],
    out: &mut O,
    err: &mut E,
) -> u8 {
    match answer(rt, words, out) {
        Ok(()) => 0,
        Err(refusal) => {
            // Where this write fails too, the status alone says so.
            let _ = writeln!(err, "{refusal}");
            refusal.status()
        }
    }
}

fn answer<'w, O: Write>(
    rt: &(impl Files + AllocGlobal),
    words: &[&'w str],
    out: &mut O,
) -> Result<(), Refusal<'w>> {
    let [from, to] = words else {
        return Err(Refusal::Usage);
    };
    let bytes = fs::read(rt, *from).map_err(|cause: io::Error| Refusal::Read(*from, cause))?;
    let packed = repack(rt.alloc(), &bytes)?;
    put(rt, *to, &packed)?;
    let length = packed.len();
    match writeln!(out, "{to}: {length} bytes") {
        Ok(()) => Ok(()),
        Err(cause) => Err(Refusal::Line(cause)),
    }
}
