//! Files out of readers, and containers into writers, at a pace and where these fail.
use crate::told::tell;
use gltf::{Glb, Gltf};
use gltf_case::asked::Asked;
use gltf_case::bytes::write_hex;
use gltf_case::refused::write_error;
use gltf_case::shown::Written;
use std::alloc::Global;
use std::io;
use std::io::{Read, Write};

/// How many bytes a call gives or takes at most, and after how many of them one call fails.
#[derive(Clone, Copy)]
struct Pace {
    most: usize,
    fails_at: Option<usize>,
    kind: io::ErrorKind,
}

impl Pace {
    /// The pace that a word names: `MOST` bytes a call; or `AT:other` and `AT:interrupted`, which
    /// are a byte a call, and one failure of this kind after so many bytes.
    fn of(word: &str) -> Pace {
        let (number, kind) = word.split_once(":").unwrap_or((word, ""));
        let number = number.parse::<usize>().unwrap_or(1);
        let kind = match kind {
            "interrupted" => io::ErrorKind::Interrupted,
            "other" => io::ErrorKind::Other,
            _ => return Pace::without_failure(number),
        };
        Pace {
            most: 1,
            fails_at: Some(number),
            kind,
        }
    }

    /// So many bytes a call, and no failure.
    fn without_failure(most: usize) -> Pace {
        Pace {
            most,
            fails_at: None,
            kind: io::ErrorKind::Other,
        }
    }

    /// How many of so many bytes a call gives or takes, after those of earlier calls. It fails
    /// once, and would then go on.
    fn count_of(&mut self, length: usize, before: usize) -> io::Result<usize> {
        if self.fails_at == Some(before) {
            self.fails_at = None;
            return Err(io::Error::from(self.kind));
        }
        Ok(self.most.min(length))
    }
}

/// A reader of bytes.
#[derive(Drop)]
struct Source<'b> {
    left: &'b [u8],
    pace: Pace,
    given: usize,
}

impl<'b> Source<'b> {
    /// A reader of these bytes at a pace.
    fn of(bytes: &'b [u8], pace: Pace) -> Source<'b> {
        Source {
            left: bytes,
            pace,
            given: 0,
        }
    }
}

impl<'b> Read for Source<'b> {
    fn read(&mut self, buf: &mut [u8]) -> io::Result<usize> {
        let count = self.pace.count_of(buf.len(), self.given)?;
        let count = count.min(buf.len()).min(self.left.len());
        let (now, later) = self.left.split_at(count);
        buf[..count].copy_from_slice(now);
        self.left = later;
        self.given = self.given.saturating_add(count);
        Ok(count)
    }
}

/// A writer that keeps what it takes.
#[derive(Drop)]
struct Sink {
    taken: Vec<u8>,
    pace: Pace,
}

impl Write for Sink {
    fn write(&mut self, buf: &[u8]) -> io::Result<usize> {
        let count = self.pace.count_of(buf.len(), self.taken.len())?;
        let count = count.min(buf.len());
        self.taken.extend_from_slice(&buf[..count])?;
        Ok(count)
    }

    fn flush(&mut self) -> io::Result<()> {
        Ok(())
    }
}

/// Writes what a line says of a file out of a reader that gives a byte a call: `streamed CALL ..`.
pub(crate) fn tell_streamed(
    alloc: Global,
    asked: Asked<'_>,
    bytes: &[u8],
    line: &mut String,
) -> Written {
    let mut source = Source::of(bytes, Pace::without_failure(1));
    tell_read(alloc, asked.inner(), &mut source, line)
}

/// Writes what a line says of a file out of a reader of a pace, and how many bytes it gave:
/// `drawn PACE CALL ..`.
pub(crate) fn tell_drawn(
    alloc: Global,
    asked: Asked<'_>,
    bytes: &[u8],
    line: &mut String,
) -> Written {
    let mut source = Source::of(bytes, Pace::of(asked.word(0)));
    tell_read(alloc, asked.inner().inner(), &mut source, line)?;
    write!(line, "; {} given", source.given)
}

/// Writes what a line says of a file out of a reader: of a container by `glb`, of records by
/// `records`, and of a document by any other call.
fn tell_read(
    alloc: Global,
    asked: Asked<'_>,
    source: &mut Source<'_>,
    line: &mut String,
) -> Written {
    match asked.call {
        "glb" => tell(alloc, asked, Glb::from_reader(alloc, source), line),
        "records" => {
            let file = Gltf::from_reader_without_validation(alloc, source);
            tell(alloc, asked, file, line)
        }
        _ => tell(alloc, asked, Gltf::from_reader(alloc, source), line),
    }
}

/// Writes what a line says of a container into a writer of a pace, and what that took:
/// `written PACE`.
pub(crate) fn tell_written(
    alloc: Global,
    asked: Asked<'_>,
    bytes: &[u8],
    line: &mut String,
) -> Written {
    match &Glb::from_slice(bytes) {
        Ok(glb) => write_taken(alloc, asked, glb, line),
        Err(error) => write_error(asked, error, line),
    }
}

/// What a writer of a pace takes of a container.
fn write_taken(alloc: Global, asked: Asked<'_>, glb: &Glb<'_>, line: &mut String) -> Written {
    let mut sink = Sink {
        taken: Vec::new(alloc),
        pace: Pace::of(asked.word(0)),
    };
    tell(alloc, asked, glb.to_writer(&mut sink), line)?;
    if sink.taken.is_empty() {
        return Ok(());
    }
    line.push_str("; ")?;
    write_hex(&sink.taken, line)
}
