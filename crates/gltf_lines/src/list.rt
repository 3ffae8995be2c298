//! Lists of handles, walked by words.
use crate::line::{Line, Written};
use crate::shown::Shown;
use gltf_handles::list::{Indexed, List};

/// Writes what the steps over a list give: `next`, `nth:NUMBER`, `len`, `hint`, `last` and `count`.
pub fn write_list<S: Indexed>(mut list: List<S>, words: &str, text: &mut String) -> Written
where
    S::Item: Shown,
{
    write_steps(&mut list, words, text)
}

/// The same of a list that may be absent.
pub fn write_list_or_none<S: Indexed>(
    list: Option<List<S>>,
    words: &str,
    text: &mut String,
) -> Written
where
    S::Item: Shown,
{
    match list {
        Some(list) => write_list(list, words, text),
        None => text.push_str("no list"),
    }
}

/// What is walked by steps, each of which writes what it gives.
pub(crate) trait Walked {
    /// The next item.
    fn write_next(&mut self, line: &mut Line<'_>);

    /// The item after so many others.
    fn write_nth(&mut self, places: usize, line: &mut Line<'_>);

    /// The last item, of a copy.
    fn write_last(&self, line: &mut Line<'_>);

    /// How many items are left, by the length.
    fn write_len(&self, line: &mut Line<'_>);

    /// How many are left, by the size hint.
    fn write_hint(&self, line: &mut Line<'_>);

    /// How many are left, by a count of a copy.
    fn write_count(&self, line: &mut Line<'_>);
}

/// Writes what the steps give that words name, as `write_list` says.
pub(crate) fn write_steps<W: Walked>(walked: &mut W, words: &str, text: &mut String) -> Written {
    let mut line = Line::new(text);
    for word in words.split_whitespace() {
        if !line.is_empty() {
            line.push_str("; ");
        }
        write_step(walked, word, &mut line);
    }
    line.finish()
}

/// Writes what a step gives.
pub(crate) fn write_step<W: Walked>(walked: &mut W, word: &str, line: &mut Line<'_>) {
    match word {
        "next" => walked.write_next(line),
        "len" => walked.write_len(line),
        "hint" => walked.write_hint(line),
        "last" => walked.write_last(line),
        "count" => walked.write_count(line),
        _ => {
            let places = word.strip_prefix("nth:").unwrap_or("");
            walked.write_nth(places.parse::<usize>().unwrap_or(0), line);
        }
    }
}

impl<S: Indexed> Walked for List<S>
where
    S::Item: Shown,
{
    fn write_next(&mut self, line: &mut Line<'_>) {
        write_item(self.next(), line);
    }

    fn write_nth(&mut self, places: usize, line: &mut Line<'_>) {
        write_item(self.nth(places), line);
    }

    fn write_last(&self, line: &mut Line<'_>) {
        if let Some(list) = line.kept(self.clone()) {
            write_item(list.last(), line);
        }
    }

    fn write_len(&self, line: &mut Line<'_>) {
        write!(line, "{}", self.len());
    }

    fn write_hint(&self, line: &mut Line<'_>) {
        write!(line, "{:?}", self.size_hint());
    }

    fn write_count(&self, line: &mut Line<'_>) {
        if let Some(list) = line.kept(self.clone()) {
            write!(line, "{}", list.count());
        }
    }
}

/// Writes an item of a list.
fn write_item<T: Shown + Drop>(item: Option<T>, line: &mut Line<'_>) {
    item.show(line);
}
