//! Which bytes are written where.
ghost use Rattle.std.specs.Prelude.{◌≡◌, ◌∷◌, ◌++◌, [], IfOk, OnOk, map};
ghost use Rattle.gltf_convert.specs.Files.{shown, file_of, beside, beside_some, files_of};

use gltf_detach::Part;
use gltf_put::Output;
use gltf_split::Pieces;
use std::alloc::{AllocError, Global};

/// The files of a text that goes to a path, each in the folder of the text with its own bytes:
/// those of buffers, those of images, and the text itself.
pub(crate) fn files_of<'s>(
    alloc: Global,
    split: &'s Pieces,
    base: &str,
    to: &str,
) -> Result<Vec<Output<'s>>, AllocError>
    ensures { IfOk result (λ files. map shown files.items ≡ files_of base.now to.now split.now) }
{
    let mut files = Vec::with_capacity(alloc, split.buffers.len())?;
    add_parts(alloc, &mut files, base, &split.buffers)?;
    add_some(alloc, &mut files, base, &split.images)?;
    let path = String::from_str(alloc, to)?;
    let bytes = split.json.as_bytes();
    files.push(Output { path, bytes })?;
    Ok(files)
}

/// The files of buffers.
fn add_parts<'s>(
    alloc: Global,
    files: &mut Vec<Output<'s>>,
    base: &str,
    parts: &'s [Part],
) -> Result<(), AllocError>
    ensures { OnOk result (map shown files.new.items
        ≡ map shown files.old.items ++ beside base.now parts.now) }
{
    'parts: for part in parts {
        add_part(alloc, files, base, part)?;
    }
    Ok(())
}

/// Those files of images that are there.
fn add_some<'s>(
    alloc: Global,
    files: &mut Vec<Output<'s>>,
    base: &str,
    parts: &'s [Option<Part>],
) -> Result<(), AllocError>
    ensures { OnOk result (map shown files.new.items
        ≡ map shown files.old.items ++ beside_some base.now parts.now) }
{
    'parts: for part in parts {
        if let Some(part) = part {
            add_part(alloc, files, base, part)?;
        }
    }
    Ok(())
}

/// One file, in the folder of the text.
fn add_part<'s>(
    alloc: Global,
    files: &mut Vec<Output<'s>>,
    base: &str,
    part: &'s Part,
) -> Result<(), AllocError>
    ensures { OnOk result (map shown files.new.items
        ≡ map shown files.old.items ++ (file_of base.now part.now ∷ [])) }
{
    let mut path = String::from_str(alloc, base)?;
    path.push_str(part.name.as_str())?;
    let bytes = part.bytes.as_slice();
    files.push(Output { path, bytes })?;
    Ok(())
}
