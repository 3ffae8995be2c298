//! What C holds of a file: one pointer, in memory of its own.

ghost use Rattle.std.specs.Prelude.{◌≡◌, ℕ, Option, Some, None};
ghost use Rattle.std.specs.Option.{option_map};
ghost use Rattle.std.specs.Coded.{coded_option};
ghost use Rattle.gltf_c_handle.specs.Owned.{handle_owns};
ghost use Rattle.gltf_c_open.specs.declared.file.File.{File};
ghost use Rattle.gltf_c_open.specs.contracts.file.File as file_type;

use crate::bare::{Bare, into_bare, into_box};
use gltf_c_open::file::File;
use std::alloc::Global;
use std::marker::Model;
use std::{mem, ptr};

/// An open file, or a closed one: null. C declares the same struct.
#[repr(C)]
pub struct GltfFile {
    at: *mut u8,
    /// The file, as contracts see it; None where the handle is closed.
    pub ghost value: { Option File } by { coded_option file_type.the_row.coded },
}

impl Model for GltfFile {
    ghost also_owns = { λ handle. handle_owns handle.at handle.value };
}

fn closed() -> GltfFile
    ensures { result.value ≡ None }
{
    GltfFile {
        at: ptr::null_mut(),
    }
}

fn sealed(part: Bare<File>) -> GltfFile
    ensures { result.value ≡ Some part.value }
{
    let Bare { at } = part;
    GltfFile { at: at as *mut u8 }
}

fn opened(handle: GltfFile) -> Option<Bare<File>>
    ensures { option_map (λ part. part.value) result ≡ handle.value }
{
    let GltfFile { at } = handle;
    if at.is_null() {
        None
    } else {
        Some(Bare {
            at: at as *mut File,
        })
    }
}

/// Takes the file out of a handle, which is closed then. None where it was closed.
pub(crate) fn take(alloc: Global, handle: &mut GltfFile) -> Option<Box<File>>
    ensures taken { option_map (λ held. held.value) result ≡ handle.old.value }
    ensures closed { handle.new.value ≡ None }
{
    match opened(mem::replace(handle, closed())) {
        Some(part) => Some(into_box(alloc, part)),
        None => None,
    }
}

/// Puts a file into a handle. What it held is freed.
pub(crate) fn put(alloc: Global, handle: &mut GltfFile, held: Box<File>)
    ensures { handle.new.value ≡ Some held.value }
{
    let before = mem::replace(handle, sealed(into_bare(held)));
    if let Some(part) = opened(before) {
        into_box(alloc, part);
    }
}
