//! What is kept of the first file that is read, so that no file is opened twice.
use crate::old::says_first_version;
use gltf::{Name, Result, text_and_blob};
use gltf_shared::AskUpTo;
use std::alloc::{AllocError, Global};
use std::borrow::CowSlice;

/// A longer text is not kept.
const LONGEST: usize = 16_777_216;

/// What is kept of a file.
#[derive(Clone, Copy)]
pub(crate) enum Part {
    /// What its version is read from: of a container its first eight bytes, else its text.
    Version,
    /// Its JSON text.
    Text,
}

/// A source, and a copy of a part of the first file that it gave.
#[derive(Drop)]
pub(crate) struct Kept<S: Drop> {
    source: S,
    part: Part,
    is_read: bool,
    copy: Result<Option<Vec<u8>>, AllocError>,
}

impl<S: AskUpTo + Drop> Kept<S> {
    /// The source, of which nothing is read yet.
    pub(crate) fn new(source: S, part: Part) -> Kept<S> {
        Kept {
            source,
            part,
            is_read: false,
            copy: Ok(None),
        }
    }

    /// The source.
    pub(crate) fn source(&self) -> &S {
        &self.source
    }

    /// The part of the first file; `None` where it has none or is too long. Fails where there was
    /// no memory for it.
    pub(crate) fn part(&self) -> Result<Option<&[u8]>, AllocError> {
        match &self.copy {
            Ok(Some(bytes)) => Ok(Some(bytes.as_slice())),
            Ok(None) => Ok(None),
            Err(_) => Err(AllocError),
        }
    }

    /// Whether the part says that the file is of glTF 1.0; false where it was not kept.
    pub(crate) fn says_first_version(&self, alloc: Global) -> bool {
        match self.part() {
            Ok(Some(bytes)) => says_first_version(alloc, bytes),
            _ => false,
        }
    }
}

impl<S: AskUpTo + Drop> AskUpTo for Kept<S> {
    ghost names = { λ kept. S.names kept.source };

    ghost failures = { λ kept. S.failures kept.source };

    ghost asks = { λ before name after. S.asks before.source name after.source };

    fn ask_up_to(&mut self, alloc: Global, name: Name<'_>, most: Option<u64>) -> Result<Vec<u8>> {
        let bytes = self.source.ask_up_to(alloc, name, most)?;
        if !self.is_read {
            self.is_read = true;
            self.copy = copy_of(alloc, &bytes, self.part);
        }
        Ok(bytes)
    }

    fn last_failed(&self) -> Option<&str> {
        self.source.last_failed()
    }
}

/// A copy of a part of a file.
fn copy_of(alloc: Global, bytes: &[u8], part: Part) -> Result<Option<Vec<u8>>, AllocError> {
    let kept = match (part, bytes) {
        (Part::Version, [b'g', b'l', b'T', b'F', ..]) => bytes.get(..8),
        _ => text_of(bytes),
    };
    match kept {
        Some(kept) => Ok(Some(Vec::from_slice(alloc, kept)?)),
        None => Ok(None),
    }
}

/// The JSON text of a file; `None` where it has none, or a longer one than is kept.
pub(crate) fn text_of(bytes: &[u8]) -> Option<&[u8]> {
    match text_and_blob(bytes) {
        Ok((CowSlice::Borrowed(text), _)) if text.len() <= LONGEST => Some(text),
        _ => None,
    }
}
