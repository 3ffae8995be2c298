//! The engine of the program, over any source of named bytes and any two writers.
use crate::call::Call;
use crate::chunks::Chunks;
use crate::indices::write_indices;
use crate::kept::{Kept, Part};
use crate::opened::{open, tell_flag};
use crate::refusal::Refusal;
use crate::summary::Summary;
use gltf::{Glb, Name};
use gltf_shared::AskUpTo;
use std::alloc::Global;
use std::io::{self, Write};

/// Answers the call that the words make, but for `inspect`, where the words are the arguments after
/// the program's name, and gives the exit status.
///
/// - 0: the answer stands on `out`.
/// - 1: the file is refused, or has not what is asked for, or a read or a write failed; the reason
///   stands on `err`, with the name of the file that could not be read.
/// - 2: the words make no call; the usage stands on `err`.
pub fn run<S: AskUpTo + Drop, O: Write, E: Write>(
    alloc: Global,
    source: S,
    words: &[&str],
    out: &mut O,
    err: &mut E,
) -> u8 {
    let mut source = Kept::new(source, Part::Version);
    match answer(alloc, &mut source, words, out) {
        Ok(()) => 0,
        Err(refusal) => {
            // Where this write fails too, the status alone says so.
            let _ = tell(&refusal, source.last_failed(), err);
            if refusal.is_of_content() {
                advise(alloc, &refusal, &mut source, words, err);
            }
            refusal.status()
        }
    }
}

/// Writes why a call is not answered; where a file was not read, after the name of that file.
fn tell<E: Write>(refusal: &Refusal, failed: Option<&str>, err: &mut E) -> io::Result<()> {
    match failed {
        Some(name) if refusal.is_failed_read() => writeln!(err, "{name}: {refusal}"),
        _ => writeln!(err, "{refusal}"),
    }
}

/// Writes what else is to be known of a file that is refused for what stands in it: that it is of
/// glTF 1.0, or by which flag it is taken.
fn advise<S: AskUpTo + Drop, E: Write>(
    alloc: Global,
    refusal: &Refusal,
    source: &mut Kept<S>,
    words: &[&str],
    err: &mut E,
) {
    let (path, is_check) = match Call::of(words) {
        Some(Call::Check(path, _)) => (path, true),
        Some(Call::Indices(path, _, _)) => (path, false),
        _ => return,
    };
    if is_check && source.says_first_version(alloc) {
        let _ = writeln!(err, "this is a glTF 1.0 file; glTF 2.0 is supported");
    } else if refusal.is_of_extensions() {
        tell_flag(alloc, source, path, err);
    }
}

fn answer<S: AskUpTo, O: Write>(
    alloc: Global,
    source: &mut S,
    words: &[&str],
    out: &mut O,
) -> Result<(), Refusal> {
    match Call::of(words) {
        Some(Call::Chunks(path)) => {
            let bytes = source.ask_up_to(alloc, Name::File(path), None)?;
            let glb = Glb::from_slice(&bytes)?;
            write!(out, "{}", Chunks(&glb)).map_err(Refusal::Write)
        }
        Some(Call::Check(path, taken)) => {
            let (document, _buffers) = open(alloc, source, path, taken)?;
            write!(out, "{}", Summary(&document)).map_err(Refusal::Write)
        }
        Some(Call::Indices(path, place, taken)) => {
            let (document, buffers) = open(alloc, source, path, taken)?;
            write_indices(&document, &buffers, place, out)
        }
        None => Err(Refusal::Usage),
    }
}
