//! Files from their bytes, which are lent or given up.
ghost use Rattle.std.specs.Prelude.{◌≡◌, IfOk, IfErr, map};
ghost use Rattle.std.specs.Cow.{cow_slice_items};
ghost use Rattle.gltf_c_open.specs.Opened.{Holds, IsRefused};

use crate::buffers::had_or_awaited;
use crate::file::File;
use crate::refusal::Refusal;
use crate::wanted::Wanted;
use gltf::{Gltf, Result};
use gltf_options::laws::what_shows_the_same_has_the_same_buffers;
use gltf_options::{Opened, Options, from_bytes_with};
use std::alloc::Global;
use std::borrow::CowSlice;

/// The file that these bytes are: a GLB container where they begin with `glTF`, else JSON text
/// (glTF 2.0, sections 2.8, 3.6.1 and 4.4). `also` are the names of extensions that the caller
/// handles.
///
/// The bytes are accepted exactly where the container, the text, the records and the rules hold, as
/// [`from_bytes_with`] says, and each buffer has its bytes; or leads to another file, where those may
/// wait. The refusal is that of the first of these that does not, for the buffers that of the first
/// one with a fault; or [`gltf::Error::Memory`], which says nothing of the bytes.
///
/// Where no buffer may wait and zeros count as bytes, the same bytes are accepted by
/// [`gltf_options::import_bytes_with`], with the same document and the same buffers.
pub fn open(
    alloc: Global,
    bytes: CowSlice<'_, u8>,
    also: &[&str],
    wanted: Wanted,
) -> Result<Box<File>, Refusal>
    ensures held { IfOk result (λ held.
        Holds wanted (map (λ k. k.now) also.now) (cow_slice_items bytes.entry) held.value) }
    ensures refused { IfErr result
        (IsRefused wanted (map (λ k. k.now) also.now) (cow_slice_items bytes.entry)) }
{
    Ok(Box::new(alloc, opened(alloc, bytes, also, wanted)?)?)
}

/// The same, out of its box.
fn opened(
    alloc: Global,
    bytes: CowSlice<'_, u8>,
    also: &[&str],
    wanted: Wanted,
) -> Result<File, Refusal>
    ensures held { IfOk result
        (Holds wanted (map (λ k. k.now) also.now) (cow_slice_items bytes.entry)) }
    ensures refused { IfErr result
        (IsRefused wanted (map (λ k. k.now) also.now) (cow_slice_items bytes.entry)) }
{
    // A law that the proof stands on; the call does nothing.
    what_shows_the_same_has_the_same_buffers();
    let options = Options {
        also_supported: also,
    };
    let Opened { gltf, .. } = from_bytes_with(alloc, bytes, &options)?;
    let Gltf { document, blob } = gltf;
    let (buffers, waiting) = had_or_awaited(alloc, &document.as_json().buffers, blob, wanted)?;
    Ok(File {
        document,
        buffers,
        waiting,
        exact: wanted.exact,
    })
}
