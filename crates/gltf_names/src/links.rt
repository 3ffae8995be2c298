//! Where symbolic links lead.
use crate::name::NamedFault;
use std::alloc::Global;
use std::fs;
use std::path::PathBuf;
use std::rt::Files;

/// Whether the file that a relative reference leads to stands in a folder, where the system follows
/// symbolic links. The base is put in front of the reference, as [`crate::Folder`] does it.
///
/// Each part of the reference is looked at on its way. Where one is a link, the whole path and the
/// folder are resolved, and the one has to lie below the other. Where none is, the names decide,
/// which [`crate::leads_outside`] looks at. The base is the caller's own: links in it are followed.
///
/// What it leaves open: a link that takes the place of a file or folder between this look and the
/// opening of the file; a hard link, which is the file itself; another file system that is mounted
/// in the folder. What the system reports of a part is [`NamedFault::Io`]: there is no such file,
/// say, or the resolved path is not UTF-8.
pub fn stays_inside<R: Files>(
    rt: &R,
    alloc: Global,
    base: &str,
    path: &str,
) -> Result<bool, NamedFault> {
    if !has_link(rt, alloc, base, path)? {
        return Ok(true);
    }
    let folder = if base.is_empty() { "." } else { base };
    let folder = resolved(rt, alloc, folder)?;
    let mut whole = String::from_str(alloc, base)?;
    whole.push_str(path)?;
    let file = resolved(rt, alloc, whole.as_str())?;
    Ok(file.starts_with(folder.as_path()))
}

/// Whether a part of the reference is a symbolic link.
fn has_link<R: Files>(rt: &R, alloc: Global, base: &str, path: &str) -> Result<bool, NamedFault> {
    let mut way = String::from_str(alloc, base)?;
    for part in path.split('/') {
        way.push_str(part)?;
        match fs::symlink_metadata(rt, way.as_str()) {
            Ok(about) if about.is_symlink() => return Ok(true),
            Ok(_) => way.push_str("/")?,
            Err(cause) => return Err(NamedFault::Io(cause)),
        }
    }
    Ok(false)
}

/// The path with all links followed.
fn resolved<R: Files>(rt: &R, alloc: Global, path: &str) -> Result<PathBuf, NamedFault> {
    match rt.canonicalize(alloc, path) {
        Ok(path) => Ok(path),
        Err(cause) => Err(NamedFault::Io(cause)),
    }
}
