//! What is found in files.
use crate::kept::{Kept, Part};
use crate::looked::{Looked, look_at, look_at_alone};
use gltf::Error;
use gltf_findings::report::Report;
use gltf_json::root::Root;
use gltf_report::json::json_text;
use gltf_report::page::lent_page;
use gltf_report::text::write_text;
use gltf_shared::{AskUpTo, RegularFolder, slices};
use gltf_shared_files::{InsideUpTo, Outsider};
use serde_json::Value;
use std::alloc::{AllocError, Global};
use std::io::Write;
use std::rt::HostRuntime;

/// How reports are written, and what is read for them.
#[derive(Clone, Copy)]
struct Asked {
    /// As JSON: `--json`.
    json: bool,
    /// On several lines: `--pretty`.
    pretty: bool,
    /// As a page of HTML: `--html`.
    html: bool,
    /// Without the files that buffers name: `--no-files`.
    no_files: bool,
    /// With files from outside the folder of the file too: `--outside`.
    outside: bool,
}

impl Asked {
    fn of(words: &[&str]) -> Asked {
        Asked {
            json: words.contains(&"--json"),
            pretty: words.contains(&"--pretty"),
            html: words.contains(&"--html"),
            no_files: words.contains(&"--no-files"),
            outside: words.contains(&"--outside"),
        }
    }

    /// Why the options do not fit each other or the files: a page is of one file, and is no JSON.
    fn misfit(self, words: &[&str]) -> Option<&'static str> {
        if self.html && (self.json || self.pretty) {
            return Some("--html: not with --json or --pretty");
        }
        if self.html && files(words) > 1 {
            return Some("--html: one file at a time");
        }
        if self.pretty && !self.json {
            return Some("--pretty: only with --json");
        }
        if self.outside && self.no_files {
            return Some("--outside: not with --no-files");
        }
        None
    }
}

/// The words in front of the first `--`, which may be options, and those behind it, which are
/// files whatever they begin with.
fn parts<'a, 'w>(words: &'a [&'w str]) -> (&'a [&'w str], &'a [&'w str]) {
    for (i, word) in words.iter().enumerate() {
        if *word == "--" {
            return (&words[..i], &words[i + 1..]);
        }
    }
    (words, &words[words.len()..])
}

/// How many of the words are files.
fn files(words: &[&str]) -> usize {
    let (front, rest) = parts(words);
    let named = front.iter().filter(|word| !is_option(**word)).count();
    named.saturating_add(rest.len())
}

fn is_option(word: &str) -> bool {
    word.starts_with("--")
}

fn is_known(word: &str) -> bool {
    matches!(
        word,
        "--json" | "--pretty" | "--html" | "--no-files" | "--outside"
    )
}

/// Writes what is found in each of the files that the words name, in order, and gives the greatest
/// of their statuses: 0 where no error is found, 1 where one is, 2 where the file could not be read
/// or the report not be made or written. A file that has no report is named on `err`, and the next
/// one follows. A report is text; with the word `--json` a line of JSON, or with `--pretty`
/// several; with the word `--html` a page. Behind the word `--` each word is a file.
///
/// `None` where the words name no file, or have an option that is not known or does not fit the
/// others, which `err` says then.
pub(crate) fn inspect_files<O: Write, E: Write>(
    rt: &HostRuntime,
    alloc: Global,
    words: &[&str],
    out: &mut O,
    err: &mut E,
) -> Option<u8> {
    let (front, rest) = parts(words);
    for word in front {
        if is_option(*word) && !is_known(*word) {
            let _ = writeln!(err, "{word}: no such option");
            return None;
        }
    }
    let asked = Asked::of(front);
    if let Some(why) = asked.misfit(words) {
        let _ = writeln!(err, "{why}");
        return None;
    }
    let mut worst = None;
    for word in front {
        if !is_option(*word) {
            let status = inspect_file(rt, alloc, *word, asked, out, err);
            worst = greater(worst, status);
        }
    }
    for path in rest {
        let status = inspect_file(rt, alloc, *path, asked, out, err);
        worst = greater(worst, status);
    }
    worst
}

fn greater(worst: Option<u8>, status: u8) -> Option<u8> {
    match worst {
        Some(before) if before > status => Some(before),
        _ => Some(status),
    }
}

/// Files that buffers name are looked for in the folder of the file. Those outside of it are read
/// only with `--outside`; without, `err` has a line for each that is not.
fn inspect_file<'a, O: Write, E: Write>(
    rt: &'a HostRuntime,
    alloc: Global,
    path: &'a str,
    asked: Asked,
    out: &mut O,
    err: &mut E,
) -> u8 {
    let base = gltf::base_of(path);
    let folder = RegularFolder::new(rt, alloc, base);
    if asked.outside {
        let mut source = Kept::new(folder, Part::Text);
        return inspect_from(alloc, &mut source, path, asked, out, err);
    }
    let inside = InsideUpTo::new(rt, alloc, base, path, folder);
    let mut source = Kept::new(inside, Part::Text);
    let status = inspect_from(alloc, &mut source, path, asked, out, err);
    write_outsiders(path, source.source().outsiders(), err);
    status
}

/// The same out of a source.
fn inspect_from<S: AskUpTo + Drop, O: Write, E: Write>(
    alloc: Global,
    source: &mut Kept<S>,
    path: &str,
    asked: Asked,
    out: &mut O,
    err: &mut E,
) -> u8 {
    match file_from(alloc, source, path, asked) {
        Ok(looked) => write_report(alloc, &looked, path, asked, out, err),
        Err(cause) => {
            let _ = writeln!(err, "{path}: {cause}");
            2
        }
    }
}

/// The file, and what its buffers name, out of a source.
fn file_from<S: AskUpTo + Drop>(
    alloc: Global,
    source: &mut Kept<S>,
    path: &str,
    asked: Asked,
) -> Result<Looked, Error> {
    if asked.no_files {
        look_at_alone(alloc, source, path)
    } else {
        look_at(alloc, source, path)
    }
}

/// Writes a line for each file that was not read, since it stands outside.
fn write_outsiders<E: Write>(path: &str, outsiders: &[Outsider], err: &mut E) {
    for outsider in outsiders {
        let name = outsider.name.as_str();
        let cause = &outsider.cause;
        let _ = writeln!(err, "{path}: {name}: {cause}; --outside reads it");
    }
}

/// Writes a report, which is made whole before.
fn write_report<O: Write, E: Write>(
    alloc: Global,
    looked: &Looked,
    path: &str,
    asked: Asked,
    out: &mut O,
    err: &mut E,
) -> u8 {
    let Ok(text) = report_text(alloc, looked, path, asked) else {
        let _ = writeln!(err, "{path}: out of memory");
        return 2;
    };
    match out.write_all(text.as_slice()) {
        Ok(()) if looked.file.report.is_without_errors() => 0,
        Ok(()) => 1,
        Err(cause) => {
            let _ = writeln!(err, "standard output: {cause}");
            2
        }
    }
}

fn report_text(
    alloc: Global,
    looked: &Looked,
    path: &str,
    asked: Asked,
) -> Result<Vec<u8>, AllocError> {
    let Looked { file, value } = looked;
    let report = &file.report;
    let cause = file.cause.as_ref();
    let value = value.as_ref();
    if asked.html {
        return match &file.imported {
            Some((document, buffers)) => {
                let lent = slices(alloc, buffers)?;
                let imported = Some((document, lent.as_slice()));
                lent_page(alloc, path, report, cause, imported, value)
            }
            None => lent_page(alloc, path, report, cause, None, value),
        };
    }
    let root = match &file.imported {
        Some((document, _buffers)) => Some(document.as_json()),
        None => None,
    };
    if asked.json {
        return json_line(alloc, path, report, root, value, asked.pretty);
    }
    let mut text = Vec::new(alloc);
    match write_text(alloc, path, report, cause, root, value, &mut text) {
        Ok(()) => Ok(text),
        Err(_) => Err(AllocError),
    }
}

fn json_line(
    alloc: Global,
    path: &str,
    report: &Report,
    root: Option<&Root>,
    value: Option<&Value>,
    is_pretty: bool,
) -> Result<Vec<u8>, AllocError> {
    let mut text = json_text(alloc, path, report, root, value, is_pretty)?;
    text.push_str("\n")?;
    Ok(text.into_bytes())
}
