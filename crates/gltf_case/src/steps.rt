//! Steps of walks, as words.
use crate::shown::{Written, show};
use gltf::accessor::{End, Item, Iter, Step, Walked, walk};
use std::alloc::{AllocError, Global};
use std::fmt::Debug;

/// The steps among words: `next`, `nth:NUMBER` and `len`.
pub fn steps_of(alloc: Global, words: &str) -> Result<Vec<Step>, AllocError> {
    let mut steps = Vec::new(alloc);
    for word in words.split_whitespace() {
        if let Some(step) = step_of(word) {
            steps.push(step)?;
        }
    }
    Ok(steps)
}

/// The step that a word names.
fn step_of(word: &str) -> Option<Step> {
    match word {
        "next" => Some(Step::Next),
        "len" => Some(Step::Len),
        _ => {
            let places = word.strip_prefix("nth:")?;
            Some(Step::Nth(places.parse::<usize>().ok()?))
        }
    }
}

/// The end that the last of these words names: `last`, `count`, or none.
pub fn end_of(words: &str) -> End {
    if words.ends_with("last") {
        End::Last
    } else if words.ends_with("count") {
        End::Count
    } else {
        End::Stop
    }
}

/// Writes what a walk over items answers; with the word `hints` each item, and before it how many
/// are left.
pub fn write_walk<T: Item + Debug>(
    alloc: Global,
    words: &str,
    steps: &[Step],
    items: Option<Iter<'_, T>>,
    line: &mut String,
) -> Written {
    match items {
        Some(items) if words.ends_with("hints") => write_hints(items, line),
        Some(items) => tell_walk(walk(alloc, items, steps, end_of(words)), line),
        None => line.push_str("no items"),
    }
}

/// Writes the answers of a walk, which are dropped here.
fn tell_walk<T: Debug + Drop>(walked: Result<Walked<T>, AllocError>, line: &mut String) -> Written {
    tell_walk_of(&walked, line)
}

/// Writes the answers of a walk by reference.
fn tell_walk_of<T: Debug>(walked: &Result<Walked<T>, AllocError>, line: &mut String) -> Written {
    match walked {
        Ok(walked) => write!(line, "{:?} {:?}", walked.answers, walked.ended),
        Err(_) => line.push_str("out of memory"),
    }
}

/// Writes how many items are left and the next one, until there is none, and once more.
fn write_hints<T: Item + Debug>(mut items: Iter<'_, T>, line: &mut String) -> Written {
    for _ in 0..items.len().saturating_add(2) {
        if !line.is_empty() {
            line.push_str("; ")?;
        }
        write!(line, "{:?} ", items.size_hint())?;
        show(Ok(items.next()), line)?;
    }
    Ok(())
}
