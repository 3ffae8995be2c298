//! Names that lead out of the folder of a document (glTF 2.0, section 2.8).
ghost use Rattle.std.specs.Prelude.{◌≡◌, ◌↔◌, IsTrue, IfSome, MatchOption};
ghost use Rattle.std.specs.IoError.{error_kind};
ghost use Rattle.gltf_names.specs.Inside.{Climbs, EndsScheme, HasScheme, IsInside, IsOutside};
ghost use Rattle.gltf_names.specs.Inside.{IsRefused, MayBeAsked, is_in_scheme, is_letter, is_still};
ghost use Rattle.gltf_names.specs.Named.{named};

use crate::name::Name;
use std::io::{self, ErrorKind};

/// Why a name leads out of the folder of a document.
#[derive(Clone, Copy, Debug, PartialEq, Eq)]
pub enum Outside {
    /// It begins with `/`.
    Absolute,
    /// It begins with a scheme and a `:` (RFC 3986, section 3.1), or is the path of a `file:` URI.
    Scheme,
    /// Somewhere on its way it has more parts `..` than names in front of them.
    Climbs,
}

impl Outside {
    /// The reason, in words.
    pub fn reason(self) -> &'static str {
        match self {
            Outside::Absolute => "an absolute path, which leads out of the document's folder",
            Outside::Scheme =>
                "named with a scheme, as by file:, and so outside the document's folder",
            Outside::Climbs => "leads out of the document's folder by ..",
        }
    }

    /// The read of such a name, as a failed one.
    pub fn error(self) -> io::Error
        ensures { error_kind result ≡ ErrorKind.PermissionDenied }
    {
        io::Error::new(ErrorKind::PermissionDenied, self.reason())
    }
}

/// Why a relative reference, percent-decoded, leads out of the folder of its document; `None` where
/// it stays inside. Nothing is looked up: symbolic links are not known here.
///
/// Its parts stand between slashes. A part `..` leads one folder up, the empty one and `.` lead
/// nowhere, and each other one leads down: `a/../b.bin` stays inside, `a/../../b.bin` does not, nor
/// does `a//../../b.bin`. A backslash is a part's byte like any other, as on Linux.
pub fn leads_outside(path: &str) -> Option<Outside>
    ensures { MatchOption result (IsInside path.now) (λ why. IsOutside why path.now) }
{
    if path.starts_with('/') {
        return Some(Outside::Absolute);
    }
    if has_scheme(path.as_bytes()) {
        return Some(Outside::Scheme);
    }
    if climbs(path) {
        return Some(Outside::Climbs);
    }
    None
}

/// Why a name is not to be asked for, where nothing may be read but the document, by its own path,
/// and what stays inside its folder. [`Name::File`] with another path is that of a `file:` URI.
pub fn outside_of(document: &str, name: &Name<'_>) -> Option<Outside>
    ensures asked { MatchOption result (MayBeAsked document.now (named name.now))
        (λ _. ¬ MayBeAsked document.now (named name.now)) }
    ensures reason { IfSome result (λ why. IsRefused why document.now (named name.now)) }
{
    match name {
        Name::File(path) => {
            if *path == document {
                None
            } else {
                Some(Outside::Scheme)
            }
        }
        Name::Relative(path) => leads_outside(path),
    }
}

/// Whether a scheme and a `:` stand at the front.
fn has_scheme(path: &[u8]) -> bool
    ensures { IsTrue result ↔ HasScheme path.now }
{
    match path {
        [first, more @ ..] => is_letter(*first) && ends_scheme(more),
        [] => false,
    }
}

/// Whether bytes of a scheme stand at the front, and a `:` behind them.
fn ends_scheme(bytes: &[u8]) -> bool
    ensures { IsTrue result ↔ EndsScheme bytes.now }
{
    for byte in bytes {
        if *byte == b':' {
            return true;
        }
        if !is_in_scheme(*byte) {
            return false;
        }
    }
    false
}

fn is_letter(byte: u8) -> bool
    ensures { result ≡ is_letter byte }
{
    matches!(byte, b'A'..=b'Z' | b'a'..=b'z')
}

fn is_in_scheme(byte: u8) -> bool
    ensures { result ≡ is_in_scheme byte }
{
    is_letter(byte) || matches!(byte, b'0'..=b'9') || byte == b'+' || byte == b'-' || byte == b'.'
}

/// Whether a part leads neither up nor down.
fn is_still(part: &str) -> bool
    ensures { result ≡ is_still part.now }
{
    part == "" || part == "."
}

/// Whether more parts lead up than down, somewhere on the way.
fn climbs(path: &str) -> bool
    ensures { IsTrue result ↔ Climbs path.now }
{
    let mut depth = 0usize;
    for part in path.split('/') {
        if part == ".." {
            if depth == 0 {
                return true;
            }
            depth -= 1;
        } else if !is_still(part) {
            depth += 1;
        }
    }
    false
}
