//! The files that a conversion asks for, what it leaves out of the first of them, and what it reads
//! in place of that one.
ghost use Rattle.std.specs.Prelude.{◌≡◌};

use crate::instead::{Instead, Own};
use crate::left::{LeftOut, Looked, look_at};
use gltf::{Name, NamedBytes, NamedFault};
use std::alloc::{AllocError, Global};

/// A source, the paths of the files that it was asked for, and what is left out of the first one.
/// Where that one leaves to its extensions what the loader needs, another is read in its place.
#[derive(Drop)]
pub struct Noted<'a, S: Drop> {
    source: S,
    base: &'a str,
    paths: Vec<String>,
    left: Option<LeftOut>,
    owners: Vec<usize>,
    behind: bool,
    own: Option<Own>,
}

impl<'a, S: Drop> Noted<'a, S> {
    /// The source, which was asked for nothing yet. Relative names are put after the base.
    pub fn new(alloc: Global, source: S, base: &'a str) -> Noted<'a, S> {
        Noted {
            source,
            base,
            paths: Vec::new(alloc),
            left: None,
            owners: Vec::new(alloc),
            behind: false,
            own: None,
        }
    }

    /// The same, for good.
    pub(crate) fn into_paths(self) -> Vec<String> {
        let Noted { paths, .. } = self;
        paths
    }

    fn note(&mut self, alloc: Global, name: &Name<'_>) -> Result<(), AllocError>
        ensures { self.new.source ≡ self.old.source }
    {
        let path = match name {
            Name::File(path) => String::from_str(alloc, path)?,
            Name::Relative(path) => join(alloc, self.base, path)?,
        };
        self.paths.push(path)?;
        Ok(())
    }

    /// Looks at the first file. What is read is that file, or another one in its place.
    fn look(&mut self, alloc: Global, bytes: Vec<u8>) -> Result<Vec<u8>, AllocError>
        ensures { self.new.source ≡ self.old.source }
    {
        let Looked {
            left,
            owners,
            instead,
        } = look_at(alloc, &bytes, self.behind)?;
        self.left = Some(left);
        self.owners = owners;
        let Some(Instead { bytes, own }) = instead else {
            return Ok(bytes);
        };
        self.own = Some(own);
        Ok(bytes)
    }
}

impl<'a, S: NamedBytes + Drop> NamedBytes for Noted<'a, S> {
    ghost failures = { λ noted. S.failures noted.source };

    fn read(&mut self, alloc: Global, name: Name<'_>) -> Result<Vec<u8>, NamedFault> {
        if self.note(alloc, &name).is_err() {
            return Err(NamedFault::Memory);
        }
        let bytes = self.source.read(alloc, name)?;
        if self.left.is_some() {
            return Ok(bytes);
        }
        match self.look(alloc, bytes) {
            Ok(bytes) => Ok(bytes),
            Err(_) => Err(NamedFault::Memory),
        }
    }

    fn last_failed(&self) -> Option<&str> {
        self.source.last_failed()
    }
}

/// A source that keeps the paths of the files that it was asked for, what is left out of the first
/// one, and that one where another file was read in its place.
pub trait Notes: NamedBytes {
    /// These paths.
    fn paths(&self) -> &[String];

    /// What is left out.
    fn left(&self) -> LeftOut;

    /// For each image of the first file the one that owns its file.
    fn owners(&self) -> &[usize];

    /// From now on, buffers become one.
    fn join(&mut self);

    /// The first file, where another was read in its place.
    fn own(&self) -> Option<&Own>;
}

impl<'a, S: NamedBytes + Drop> Notes for Noted<'a, S> {
    fn paths(&self) -> &[String] {
        &self.paths
    }

    fn left(&self) -> LeftOut {
        self.left.unwrap_or_default()
    }

    fn owners(&self) -> &[usize] {
        &self.owners
    }

    fn join(&mut self) {
        self.behind = true;
    }

    fn own(&self) -> Option<&Own> {
        self.own.as_ref()
    }
}

/// The path of the file that a relative reference leads to, after the folders of its document.
pub(crate) fn join(alloc: Global, base: &str, path: &str) -> Result<String, AllocError> {
    if path.starts_with('/') {
        return String::from_str(alloc, path);
    }
    let mut whole = String::from_str(alloc, base)?;
    whole.push_str(path)?;
    Ok(whole)
}
