//! A line of text, as far as there is memory for it.
use std::alloc::AllocError;
use std::fmt::Display;

/// What writes into a line answers.
pub type Written = Result<(), AllocError>;

/// What is written after a text. Once there is no memory for a part, no other is written after it,
/// so that what writes many parts asks once, at the end, whether there was memory for all.
#[derive(Drop)]
pub struct Line<'a> {
    text: &'a mut String,
    is_cut: bool,
}

impl<'a> Line<'a> {
    /// What is written after this text.
    pub(crate) fn new(text: &'a mut String) -> Self {
        Line {
            text,
            is_cut: false,
        }
    }

    /// Whether there was memory for all parts.
    pub(crate) fn finish(self) -> Written {
        if self.is_cut { Err(AllocError) } else { Ok(()) }
    }

    /// Whether there was no memory for a part.
    pub(crate) fn is_cut(&self) -> bool {
        self.is_cut
    }

    /// Whether nothing stands in the line.
    pub(crate) fn is_empty(&self) -> bool {
        self.text.is_empty()
    }

    /// Writes a text.
    pub(crate) fn push_str(&mut self, text: &str) {
        if !self.is_cut {
            self.is_cut = self.text.push_str(text).is_err();
        }
    }

    /// Writes what `write!` is given.
    pub(crate) fn write_fmt<T: Display + Drop>(&mut self, given: T) {
        if !self.is_cut {
            self.is_cut = self.text.write_fmt(given).is_err();
        }
    }

    /// What there was memory for; else the line ends here.
    pub(crate) fn kept<T: Drop>(&mut self, given: Result<T, AllocError>) -> Option<T> {
        self.is_cut |= given.is_err();
        given.ok()
    }
}
