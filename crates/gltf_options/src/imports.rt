//! A document and the bytes of its buffers, with the names of `extensionsRequired` that the caller
//! handles.
ghost use Rattle.std.specs.Prelude.{◌≡◌, ◌≢◌, [], List, IfOk, IfErr, OnOk};
ghost use Rattle.std.specs.Cow.{cow_slice_items};
ghost use Rattle.gltf_buffers.specs.Buffers.{sources_of};
ghost use Rattle.gltf_buffers.specs.Names.{Nowhere, Anywhere, AreKnown, names_of};
ghost use Rattle.gltf_glb.specs.declared.error.Error.TheVariants.{Memory};
ghost use Rattle.gltf_names.specs.Named.{Named};
ghost use Rattle.gltf.specs.Errors.{OutOfMemoryOr};
ghost use Rattle.gltf.specs.Files.{IsNotIo};
ghost use Rattle.gltf.specs.Shown.{bytes_of_each};
ghost use Rattle.gltf_options.specs.Besides.{listed};
ghost use Rattle.gltf_options.specs.Files.{FailsOrRefusesBesides, AcceptsFileBesides};
ghost use Rattle.gltf_options.specs.Files.{RefusesFileAtBesides, IsOnlyFileBesides};
ghost use Rattle.gltf_options.specs.Files.{IsNotAcceptedFileBesides};
ghost use Rattle.gltf_options.specs.Import.{AcceptsBesides, IsOnlyImportBesides};
ghost use Rattle.gltf_options.specs.Import.{RefusesImportBesides, IsNotAcceptedBesides};
ghost use Rattle.gltf_options.specs.Names.{texts};
ghost use Rattle.gltf_options.specs.Room.{BlobStays};

use crate::file::{Opened, from_bytes_with};
use crate::options::Options;
use gltf::buffer::Data;
use gltf::laws::one_text_and_blob;
use gltf::{Document, Folder, Gltf, Name, NamedBytes, Result, base_of};
use gltf_buffers::{Ask, NoNames, read_buffers};
use gltf_json::laws::what_shows_the_same_is_alike_in_each_member;
use std::alloc::Global;
use std::borrow::CowSlice;
use std::rt::HostRuntime;

/// A document that breaks no rule without the names that the caller handles, and its buffers.
#[derive(Debug, Drop)]
pub struct Imported {
    /// The document without these names in `extensionsRequired`.
    pub document: Document,
    /// The bytes of its buffers, by index.
    pub buffers: Vec<Data>,
    /// The names that were left out, in the order of the file; a name that the file repeats comes
    /// as often.
    pub also_required: Vec<String>,
}

/// [`gltf::import_slice`] for a caller who handles further extensions (glTF 2.0, section 3.12).
///
/// The bytes are accepted exactly where the container, the text and the records hold, the rules of
/// the records without these names in `extensionsRequired`, and the buffers. The error is that of
/// the first of these that does not, or [`gltf::Error::Memory`], which says nothing of the bytes.
/// The path of a broken rule is that in the file, at `extensionsRequired` too.
pub fn import_slice_with(alloc: Global, bytes: &[u8], options: &Options<'_>) -> Result<Imported>
    ensures accepted { IfOk result (λ read. AcceptsBesides (listed options.now) Nowhere bytes.now
        read.document (texts read.also_required.items) (bytes_of_each read.buffers.items)) }
    ensures only { IfOk result (λ read. IsOnlyImportBesides (listed options.now) Nowhere bytes.now
        read.document (texts read.also_required.items) (bytes_of_each read.buffers.items)) }
    ensures refused { IfErr result
        (OutOfMemoryOr (RefusesImportBesides (listed options.now) Nowhere bytes.now)) }
    ensures exact { IfErr result (λ e. e ≢ Memory
        → IsNotAcceptedBesides (listed options.now) Nowhere bytes.now) }
{
    import_bytes(alloc, CowSlice::Borrowed(bytes), &mut NoNames, options)
}

/// [`import_slice_with`] of bytes that are lent or given up. The blob of a container is copied where
/// they are lent. Where they are given up, it is handed on in the room that they had, if it has as
/// many bytes as a multiple of four.
pub fn import_bytes_with(
    alloc: Global,
    bytes: CowSlice<'_, u8>,
    options: &Options<'_>,
) -> Result<Imported>
    ensures accepted { IfOk result (λ read. AcceptsBesides (listed options.now) Nowhere
        (cow_slice_items bytes.entry) read.document (texts read.also_required.items)
        (bytes_of_each read.buffers.items)) }
    ensures only { IfOk result (λ read. IsOnlyImportBesides (listed options.now) Nowhere
        (cow_slice_items bytes.entry) read.document (texts read.also_required.items)
        (bytes_of_each read.buffers.items)) }
    ensures refused { IfErr result (OutOfMemoryOr
        (RefusesImportBesides (listed options.now) Nowhere (cow_slice_items bytes.entry))) }
    ensures exact { IfErr result (λ e. e ≢ Memory
        → IsNotAcceptedBesides (listed options.now) Nowhere (cow_slice_items bytes.entry)) }
    ensures moved { IfOk result (λ read.
        BlobStays bytes.entry (sources_of read.document) read.buffers.items) }
{
    import_bytes(alloc, bytes, &mut NoNames, options)
}

/// [`gltf::import_from`] for a caller who handles further extensions (glTF 2.0, section 3.12).
///
/// The same names are asked of the source, in the same order. The answer is that of
/// [`import_slice_with`] over the bytes of the file, with the bytes that the source gives for the
/// names; [`gltf::Error::Io`] says that the source failed at the last name that was asked for, and
/// each other answer that it failed at none.
pub fn import_from_with<S: NamedBytes>(
    alloc: Global,
    source: &mut S,
    path: &str,
    options: &Options<'_>,
) -> Result<Imported>
    ensures accepted { IfOk result (λ read. AcceptsFileBesides (listed options.now)
        (names_of (S.bytes_by_name source.old)) path.now read.document
        (texts read.also_required.items) (bytes_of_each read.buffers.items)) }
    ensures only { AreKnown (names_of (S.bytes_by_name source.old)) → IfOk result (λ read.
        IsOnlyFileBesides (listed options.now) (names_of (S.bytes_by_name source.old)) path.now
        read.document (texts read.also_required.items) (bytes_of_each read.buffers.items)) }
    ensures refused { IfErr result (RefusesFileAtBesides (listed options.now)
        (names_of (S.bytes_by_name source.old)) path.now
        (S.failures source.old) (S.failures source.new)) }
    ensures exact { AreKnown (names_of (S.bytes_by_name source.old)) → IfErr result (λ e.
        e ≢ Memory → IsNotIo e → IsNotAcceptedFileBesides (listed options.now)
        (names_of (S.bytes_by_name source.old)) path.now) }
    ensures fine { OnOk result (S.failures source.new ≡ S.failures source.old) }
    ensures kept { names_of (S.bytes_by_name source.new) ≡ names_of (S.bytes_by_name source.old) }
{
    let bytes = source.ask(alloc, Name::File(path))?;
    import_bytes(alloc, CowSlice::Owned(bytes), source, options)
}

/// [`import_from_with`] over the files of the system, as [`gltf::import`] reads them: any file that
/// the document names is read, wherever it is. For a document that is not trusted, take
/// [`import_slice_with`], or [`import_from_with`] over a source that looks at each name.
pub fn import_with(
    rt: &HostRuntime,
    alloc: Global,
    path: &str,
    options: &Options<'_>,
) -> Result<Imported>
    ensures accepted { IfOk result (λ read. AcceptsFileBesides (listed options.now) Anywhere
        path.now read.document (texts read.also_required.items)
        (bytes_of_each read.buffers.items)) }
    ensures refused { IfErr result (λ e. (failed : List Named)
        × RefusesFileAtBesides (listed options.now) Anywhere path.now [] failed e) }
{
    let mut folder = Folder::new(rt, base_of(path));
    import_from_with(alloc, &mut folder, path, options)
}

/// The document of these bytes and its buffers, whose names are asked of a source.
fn import_bytes<N: Ask>(
    alloc: Global,
    bytes: CowSlice<'_, u8>,
    names: &mut N,
    options: &Options<'_>,
) -> Result<Imported>
    ensures accepted { IfOk result (λ read. AcceptsBesides (listed options.now)
        (N.names names.old) (cow_slice_items bytes.entry) read.document
        (texts read.also_required.items) (bytes_of_each read.buffers.items)) }
    ensures only { AreKnown (N.names names.old) → IfOk result (λ read.
        IsOnlyImportBesides (listed options.now) (N.names names.old)
        (cow_slice_items bytes.entry) read.document (texts read.also_required.items)
        (bytes_of_each read.buffers.items)) }
    ensures refused { IfErr result (FailsOrRefusesBesides (listed options.now)
        (N.names names.old) (cow_slice_items bytes.entry)
        (N.failures names.old) (N.failures names.new)) }
    ensures exact { AreKnown (N.names names.old) → IfErr result (λ e. e ≢ Memory → IsNotIo e
        → IsNotAcceptedBesides (listed options.now) (N.names names.old)
        (cow_slice_items bytes.entry)) }
    ensures fine { OnOk result (N.failures names.new ≡ N.failures names.old) }
    ensures kept { N.names names.new ≡ N.names names.old }
    ensures moved { IfOk result (λ read.
        BlobStays bytes.entry (sources_of read.document) read.buffers.items) }
{
    // Laws that the proof stands on; the calls do nothing.
    what_shows_the_same_is_alike_in_each_member();
    one_text_and_blob();
    let opened = from_bytes_with(alloc, bytes, options)?;
    let Opened {
        gltf: Gltf { document, blob },
        also_required,
    } = opened;
    let buffers = read_buffers(alloc, &document.as_json().buffers, names, blob)?;
    Ok(Imported {
        document,
        buffers,
        also_required,
    })
}
