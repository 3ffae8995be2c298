//! Files that are written by way of others.
use crate::fault::PutFault;
use crate::output::Output;
use crate::place::{Place, place_of};
use std::alloc::{AllocError, Global};
use std::fs::{OpenFile, OpenOptions, Permissions};
use std::io::Write;
use std::os::unix::fs::OpenOptionsExt;
use std::rt::Files;
use std::{fs, io};

/// The mode of a file that has not got its permissions yet: nobody else may read it.
const PRIVATE: u32 = 0o600;
/// The mode of a file that is new, less what the process takes away.
const PUBLIC: u32 = 0o666;
/// What stands behind the name of a new file.
const PART: &str = ".part";

/// Writes the bytes to the file of that name, by way of a new one beside it, `NAME.part`, which
/// takes the name once it is whole. Where a write fails, the file is what it was before, and the
/// new one is removed; where that fails too, it is left behind.
///
/// What stands at the name has to be a regular file, a symbolic link to one, or nothing. A link is
/// followed: the file that it leads to is replaced in its place. The new file has the mode of the
/// old one. At last the system is asked to keep the name, so that a power failure does not take it
/// back; where it cannot, the file has its name all the same.
pub fn put<'w>(
    rt: &(impl Files + AllocGlobal),
    name: &'w str,
    bytes: &[u8],
) -> Result<(), PutFault<'w>> {
    let part = write_part(rt, name, PART, bytes)?;
    give_name(rt, &part)?;
    keep_names(rt, folder_of(part.path.as_str()));
    Ok(())
}

/// Writes each of these files, at its path, as [`put`] writes one: first the bytes of all to new
/// files, which then take their names, in order.
///
/// Where a write fails, all files are what they were before, and the new ones are removed. Where a
/// new file cannot take its name, those before it have theirs, and the others are removed. A stop
/// between two names leaves the new files of the first beside the old ones of the others.
pub fn put_all<'w>(
    rt: &(impl Files + AllocGlobal),
    files: &'w [Output<'_>],
) -> Result<(), PutFault<'w>> {
    let parts = write_parts(rt, files)?;
    give_names(rt, &parts)?;
    keep_names_of(rt, &parts);
    Ok(())
}

/// Writes the bytes of each of these files to a new one. Where that fails, those are removed.
pub(crate) fn write_parts<'w>(
    rt: &(impl Files + AllocGlobal),
    files: &'w [Output<'_>],
) -> Result<Vec<NewFile>, PutFault<'w>> {
    let mut parts = Vec::with_capacity(rt.alloc(), files.len())?;
    for file in files {
        let written = match write_part(rt, file.path.as_str(), PART, file.bytes) {
            // There is room for it.
            Ok(part) => parts.push(part).map_err(|_| PutFault::Memory),
            Err(fault) => Err(fault),
        };
        if let Err(fault) = written {
            remove(rt, &parts);
            return Err(fault);
        }
    }
    Ok(parts)
}

/// New files take their paths, in order. Where one cannot, it and those behind it are removed.
pub(crate) fn give_names<'w>(
    rt: &(impl Files + AllocGlobal),
    parts: &[NewFile],
) -> Result<(), PutFault<'w>> {
    for (i, part) in parts.iter().enumerate() {
        if let Err(fault) = give_name(rt, part) {
            remove(rt, &parts[i + 1..]);
            return Err(fault);
        }
    }
    Ok(())
}

/// Has the system keep the names of files, where it can.
pub(crate) fn keep_names_of(rt: &impl Files, parts: &[NewFile]) {
    let mut last = None;
    for part in parts {
        let folder = folder_of(part.path.as_str());
        if last != Some(folder) {
            keep_names(rt, folder);
        }
        last = Some(folder);
    }
}

/// The folder of a path.
fn folder_of(path: &str) -> &str {
    match path.rsplit_once('/') {
        None => ".",
        Some(("", _)) => "/",
        Some((folder, _)) => folder,
    }
}

/// Has the system keep the names in a folder, where it can.
fn keep_names(rt: &impl Files, folder: &str) {
    if let Ok(folder) = OpenOptions::new().read(true).open(rt, folder) {
        // Some file systems cannot: the files have their names all the same.
        let _ = folder.sync_all();
    }
}

/// A new file that is whole, and the path that it is to take.
#[derive(Drop)]
pub(crate) struct NewFile {
    /// Its path now.
    pub(crate) part: String,
    /// That path.
    pub(crate) path: String,
}

/// Writes the bytes to a new file beside the one of that name, whose path has this ending more.
/// Where that fails, the new file is removed.
pub(crate) fn write_part<'w>(
    rt: &(impl Files + AllocGlobal),
    name: &'w str,
    ending: &str,
    bytes: &[u8],
) -> Result<NewFile, PutFault<'w>> {
    let Place { path, permissions } = place_of(rt, name)?;
    let part = followed(rt.alloc(), path.as_str(), ending)?;
    match write_new(rt, part.as_str(), permissions, bytes) {
        Ok(()) => Ok(NewFile { part, path }),
        Err(cause) => Err(PutFault::Write(part, cause)),
    }
}

/// A path with an ending behind it.
pub(crate) fn followed(alloc: Global, path: &str, ending: &str) -> Result<String, AllocError> {
    let mut whole = String::from_str(alloc, path)?;
    whole.push_str(ending)?;
    Ok(whole)
}

/// A new file takes its path. Where that fails, what stood there stands there still, and the new
/// file is removed.
pub(crate) fn give_name<'w>(
    rt: &(impl Files + AllocGlobal),
    file: &NewFile,
) -> Result<(), PutFault<'w>> {
    match fs::rename(rt, file.part.as_str(), file.path.as_str()) {
        Ok(()) => Ok(()),
        Err(cause) => {
            // Where this fails too, the new file is left behind, as the usage says.
            let _ = fs::remove_file(rt, file.part.as_str());
            Err(PutFault::Write(file.part.clone()?, cause))
        }
    }
}

/// Removes new files.
pub(crate) fn remove(rt: &impl Files, files: &[NewFile]) {
    for file in files {
        // Where this fails, the new file is left behind.
        let _ = fs::remove_file(rt, file.part.as_str());
    }
}

/// Writes the bytes to a new file of this name, and removes it where that fails.
pub(crate) fn write_new(
    rt: &impl Files,
    part: &str,
    permissions: Option<Permissions>,
    bytes: &[u8],
) -> io::Result<()> {
    let mode = match permissions {
        Some(_) => PRIVATE,
        None => PUBLIC,
    };
    let mut file = OpenOptions::new()
        .write(true)
        .create_new(true)
        .mode(mode)
        .open(rt, part)?;
    let written = fill(&mut file, bytes, permissions);
    if written.is_err() {
        // Where this fails too, the new file is left behind, as the usage says.
        let _ = fs::remove_file(rt, part);
    }
    written
}

/// Writes the bytes to a file, gives it the permissions, and has the system keep it.
fn fill(
    file: &mut (impl Write + OpenFile),
    bytes: &[u8],
    permissions: Option<Permissions>,
) -> io::Result<()> {
    file.write_all(bytes)?;
    if let Some(permissions) = permissions {
        file.set_permissions(permissions)?;
    }
    file.sync_all()
}
