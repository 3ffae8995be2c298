//! Which files are taken that the loader refuses by itself.
use gltf_lenient::{Mends, Options};
use std::alloc::{AllocError, Global};

/// The extensions that say which image a texture has.
const SOURCES: &[&str] = &["KHR_texture_basisu", "EXT_texture_webp"];

/// Which files are taken that the loader refuses by itself, by the flags of a call.
#[derive(Clone, Copy, Drop)]
pub(crate) struct Taken<'w> {
    /// The extensions that a file may require, beside those that the loader supports.
    extensions: Extensions<'w>,
    /// Whether a document is mended before it is read.
    is_lenient: bool,
}

/// Extensions that a file may require.
#[derive(Clone, Copy, Drop)]
enum Extensions<'w> {
    /// None.
    Nothing,
    /// Those that `gltf_extensions` reads.
    Known,
    /// Those with these names, which have commas between them.
    Named(&'w str),
}

impl<'w> Taken<'w> {
    /// What these flags say, each at most once: `--extensions`, `--extensions=NAME,..` in its
    /// place, and `--lenient`. `None` where one is no such flag.
    pub(crate) fn of(flags: &[&'w str]) -> Option<Taken<'w>> {
        let mut taken = Taken {
            extensions: Extensions::Nothing,
            is_lenient: false,
        };
        for flag in flags {
            if *flag == "--lenient" && !taken.is_lenient {
                taken.is_lenient = true;
            } else if matches!(taken.extensions, Extensions::Nothing) {
                taken.extensions = Extensions::of(*flag)?;
            } else {
                return None;
            }
        }
        Some(taken)
    }

    /// Whether no flag says anything.
    pub(crate) fn is_nothing(&self) -> bool {
        !self.is_lenient && matches!(self.extensions, Extensions::Nothing)
    }

    /// The names of the extensions.
    pub(crate) fn names(&self, alloc: Global) -> Result<Vec<&'w str>, AllocError> {
        let mut names = Vec::new(alloc);
        match self.extensions {
            Extensions::Nothing => {}
            Extensions::Known => {
                for name in gltf_extensions::supported() {
                    names.push(*name)?;
                }
            }
            Extensions::Named(text) => {
                for name in text.split(',') {
                    names.push(name)?;
                }
            }
        }
        Ok(names)
    }

    /// What a file is read with, where it may require the extensions of these names.
    pub(crate) fn options<'a>(&self, names: &'a [&'a str]) -> Options<'a> {
        Options {
            also_supported: names,
            mends: Mends {
                skip_channels_without_node: self.is_lenient,
                skip_unknown_attributes: self.is_lenient,
                texture_sources: if self.is_lenient { SOURCES } else { &[] },
            },
        }
    }
}

impl<'w> Extensions<'w> {
    /// The extensions that a flag names; `None` where it names none.
    fn of(flag: &'w str) -> Option<Extensions<'w>> {
        if flag == "--extensions" {
            return Some(Extensions::Known);
        }
        match flag.strip_prefix("--extensions=") {
            None | Some("") => None,
            Some(names) => Some(Extensions::Named(names)),
        }
    }
}
