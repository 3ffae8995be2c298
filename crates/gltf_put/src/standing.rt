//! Which files that stand on a disk may be written over.
ghost use Rattle.std.specs.Prelude.{◌≡◌, ◌↔◌, IsTrue, MatchOption};
ghost use Rattle.gltf_put.specs.Standing.{IsAmong, MayBeReplaced, Stays};

use std::fs;
use std::os::unix::fs::MetadataExt;
use std::rt::Files;

/// A file on a disk, whatever names it has.
#[derive(Clone, Copy, Debug, PartialEq, Eq)]
pub struct FileId {
    /// The number of its device.
    pub device: u64,
    /// Its number there.
    pub inode: u64,
}

/// Why a file is not written over.
#[derive(Clone, Copy, Debug, PartialEq, Eq)]
pub enum Standing {
    /// It is one of those that are read.
    Source,
    /// It is none of the writer's own.
    Other,
}

/// Why a file that stands at a name is not to be written over; `None` where it may be. The sources
/// stay in any case. The writer's own may be replaced, and with force each other one too.
pub fn stays(file: FileId, sources: &[FileId], own: &[FileId], force: bool) -> Option<Standing>
    ensures { MatchOption result (MayBeReplaced file sources.now own.now force)
        (λ why. Stays why file sources.now own.now force) }
{
    if is_among(file, sources) {
        return Some(Standing::Source);
    }
    if is_among(file, own) || force {
        return None;
    }
    Some(Standing::Other)
}

/// Whether the file is one of these.
fn is_among(file: FileId, files: &[FileId]) -> bool
    ensures { IsTrue result ↔ IsAmong file files.now }
{
    files.contains(&file)
}

/// The regular file that a name leads to, through symbolic links; `None` where there is none, or
/// where it cannot be looked at.
pub fn file_at(rt: &impl Files, name: &str) -> Option<FileId> {
    match fs::metadata(rt, name) {
        Ok(found) if found.is_file() => Some(FileId {
            device: found.dev(),
            inode: found.ino(),
        }),
        _ => None,
    }
}
