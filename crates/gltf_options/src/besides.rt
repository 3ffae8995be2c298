//! Documents without the names that the caller handles.
ghost use Rattle.std.specs.Prelude.{◌≡◌, IfOk, IfErr, map};
ghost use Rattle.gltf.specs.Errors.{OutOfMemoryOr};
ghost use Rattle.gltf_options.specs.Besides.{IsBesides, listed, required_of};
ghost use Rattle.gltf_options.specs.Broken.{RefusesBesides};
ghost use Rattle.gltf_options.specs.Names.{texts, taken_of};
ghost use Rattle.gltf_options.specs.Opened.{IsOpened};
ghost use Rattle.gltf_options.specs.Places.{places_left};

use crate::broken::document_of;
use crate::file::Opened;
use crate::options::Options;
use crate::split::{Parted, split};
use gltf::{Gltf, RawGltf, Result};
use gltf_json::root::Root;
use std::alloc::{AllocError, Global};
use std::mem;

/// A file of which the records are read, without the names that the caller handles, where it breaks
/// no rule then. The error has all broken rules, at their places in the file, or says that memory
/// ran out.
pub fn without_names(alloc: Global, raw: RawGltf, options: &Options<'_>) -> Result<Opened>
    ensures opened { IfOk result (IsOpened (listed options.now) raw.document raw.blob) }
    ensures refused { IfErr result
        (OutOfMemoryOr (RefusesBesides (listed options.now) raw.document)) }
{
    let RawGltf { document, blob } = raw;
    let (root, places, also_required) = besides(
        alloc,
        document.into_json(),
        options.also_supported,
    )?;
    let document = document_of(alloc, root, &places)?;
    Ok(Opened {
        gltf: Gltf { document, blob },
        also_required,
    })
}

/// The records without these names in `extensionsRequired`, where those stood that are left, and
/// the names that were there.
fn besides(
    alloc: Global,
    root: Root,
    also: &[&str],
) -> Result<(Root, Vec<usize>, Vec<String>), AllocError>
    ensures root { IfOk result (λ parts. IsBesides (map (λ k. k.now) also.now) root parts.0) }
    ensures places { IfOk result (λ parts. parts.1.items
        ≡ places_left (map (λ k. k.now) also.now) (required_of root)) }
    ensures names { IfOk result (λ parts. texts parts.2.items
        ≡ taken_of (map (λ k. k.now) also.now) (required_of root)) }
{
    let mut left = root;
    let names = mem::replace(&mut left.extensions_required, Vec::new(alloc));
    let Parted {
        left: others,
        places,
        taken,
    } = split(alloc, names, also)?;
    left.extensions_required = others;
    Ok((left, places, taken))
}
