//! Where the bytes of a file go.
use crate::fault::PutFault;
use std::fs::Permissions;
use std::io::ErrorKind;
use std::rt::Files;
use std::{fs, io};

/// The path of a file, and its permissions where it is there.
#[derive(Drop)]
pub(crate) struct Place {
    /// The path. It is no symbolic link where the file is there.
    pub(crate) path: String,
    /// The permissions; none where there is no such file yet.
    pub(crate) permissions: Option<Permissions>,
}

/// The file that a name leads to, through symbolic links. What stands there has to be a regular
/// file, or nothing.
pub(crate) fn place_of<'w>(
    rt: &(impl Files + AllocGlobal),
    name: &'w str,
) -> Result<Place, PutFault<'w>> {
    let failed = |cause: io::Error| PutFault::Look(name, cause);
    let path = match fs::symlink_metadata(rt, name) {
        Err(cause) if cause.kind() == ErrorKind::NotFound => {
            return Ok(Place {
                path: String::from_str(rt.alloc(), name)?,
                permissions: None,
            });
        }
        Err(cause) => return Err(failed(cause)),
        Ok(found) if found.is_symlink() => {
            fs::canonicalize(rt, name).map_err(failed)?.into_string()
        }
        Ok(_) => String::from_str(rt.alloc(), name)?,
    };
    let found = fs::metadata(rt, path.as_str()).map_err(failed)?;
    if !found.is_file() {
        return Err(PutFault::NoFile(name));
    }
    Ok(Place {
        path,
        permissions: Some(found.permissions()),
    })
}
