//! A document as it is mended, and the bytes of its buffers.
ghost use Rattle.std.specs.Prelude.{◌≡◌, ◌≢◌, [], List, IfOk, IfErr, OnOk};
ghost use Rattle.std.specs.Cow.{cow_slice_items};
ghost use Rattle.gltf_glb.specs.declared.error.Error.TheVariants.{Memory};
ghost use Rattle.gltf.specs.Errors.{OutOfMemoryOr};
ghost use Rattle.gltf.specs.Files.{IsNotIo};
ghost use Rattle.gltf.specs.Shown.{bytes_of_each};
ghost use Rattle.gltf_buffers.specs.Names.{Nowhere, Anywhere, AreKnown, names_of};
ghost use Rattle.gltf_names.specs.Named.{Named};
ghost use Rattle.gltf_options.specs.Names.{texts};
ghost use Rattle.gltf_lenient.specs.Import.{AcceptsMended, IsOnlyMendedImport};
ghost use Rattle.gltf_lenient.specs.Import.{RefusesMendedImport, IsNotAcceptedMended};
ghost use Rattle.gltf_lenient.specs.Files.{AcceptsMendedFile, IsOnlyMendedFile};
ghost use Rattle.gltf_lenient.specs.Files.{RefusesMendedFileAt, IsNotAcceptedMendedFile};
ghost use Rattle.gltf_lenient.specs.Files.{FailsOrRefusesMended};

use crate::file::from_bytes_with;
use crate::options::Options;
use gltf::{Folder, Gltf, Name, NamedBytes, Result, base_of};
use gltf_buffers::{Ask, NoNames, read_buffers};
use gltf_options::laws::what_shows_the_same_has_the_same_buffers;
use gltf_options::{Imported, Opened};
use std::alloc::Global;
use std::borrow::CowSlice;
use std::rt::HostRuntime;

/// [`gltf::import_slice`] for a caller who handles further extensions, of a document that is
/// mended.
///
/// The bytes are accepted exactly where [`crate::from_slice_with`] accepts them, and the buffers
/// hold. The error is that of that call, or of the first buffer that does not hold.
pub fn import_slice_with(alloc: Global, bytes: &[u8], options: &Options<'_>) -> Result<Imported>
    ensures accepted { IfOk result (λ read. AcceptsMended options.now Nowhere bytes.now
        read.document (texts read.also_required.items) (bytes_of_each read.buffers.items)) }
    ensures only { IfOk result (λ read. IsOnlyMendedImport options.now Nowhere bytes.now
        read.document (texts read.also_required.items) (bytes_of_each read.buffers.items)) }
    ensures refused { IfErr result
        (OutOfMemoryOr (RefusesMendedImport options.now Nowhere bytes.now)) }
    ensures exact { IfErr result (λ e. e ≢ Memory
        → IsNotAcceptedMended options.now Nowhere bytes.now) }
{
    import_bytes(alloc, CowSlice::Borrowed(bytes), &mut NoNames, options)
}

/// [`import_slice_with`] of bytes that are lent or given up. The blob of a container is copied
/// where they are lent.
pub fn import_bytes_with(
    alloc: Global,
    bytes: CowSlice<'_, u8>,
    options: &Options<'_>,
) -> Result<Imported>
    ensures accepted { IfOk result (λ read. AcceptsMended options.now Nowhere
        (cow_slice_items bytes.entry) read.document (texts read.also_required.items)
        (bytes_of_each read.buffers.items)) }
    ensures only { IfOk result (λ read. IsOnlyMendedImport options.now Nowhere
        (cow_slice_items bytes.entry) read.document (texts read.also_required.items)
        (bytes_of_each read.buffers.items)) }
    ensures refused { IfErr result (OutOfMemoryOr
        (RefusesMendedImport options.now Nowhere (cow_slice_items bytes.entry))) }
    ensures exact { IfErr result (λ e. e ≢ Memory
        → IsNotAcceptedMended options.now Nowhere (cow_slice_items bytes.entry)) }
{
    import_bytes(alloc, bytes, &mut NoNames, options)
}

/// [`gltf::import_from`] for a caller who handles further extensions, of a document that is
/// mended. The names of files are asked of the source, that of the path first; the answer is that
/// of [`import_slice_with`] over the bytes of that file, with the bytes that the source gives for
/// the names. [`gltf::Error::Io`] says that the source failed at the last name that was asked for,
/// and each other answer that it failed at none.
pub fn import_from_with<S: NamedBytes>(
    alloc: Global,
    source: &mut S,
    path: &str,
    options: &Options<'_>,
) -> Result<Imported>
    ensures accepted { IfOk result (λ read. AcceptsMendedFile options.now
        (names_of (S.bytes_by_name source.old)) path.now read.document
        (texts read.also_required.items) (bytes_of_each read.buffers.items)) }
    ensures only { AreKnown (names_of (S.bytes_by_name source.old)) → IfOk result (λ read.
        IsOnlyMendedFile options.now (names_of (S.bytes_by_name source.old)) path.now
        read.document (texts read.also_required.items) (bytes_of_each read.buffers.items)) }
    ensures refused { IfErr result (RefusesMendedFileAt options.now
        (names_of (S.bytes_by_name source.old)) path.now
        (S.failures source.old) (S.failures source.new)) }
    ensures exact { AreKnown (names_of (S.bytes_by_name source.old)) → IfErr result (λ e.
        e ≢ Memory → IsNotIo e → IsNotAcceptedMendedFile options.now
        (names_of (S.bytes_by_name source.old)) path.now) }
    ensures fine { OnOk result (S.failures source.new ≡ S.failures source.old) }
    ensures kept { names_of (S.bytes_by_name source.new) ≡ names_of (S.bytes_by_name source.old) }
{
    let bytes = source.ask(alloc, Name::File(path))?;
    import_bytes(alloc, CowSlice::Owned(bytes), source, options)
}

/// [`import_from_with`] over the files of the system, as [`gltf::import`] reads them: any file that
/// the document names is read, wherever it is. For a document that is not trusted, take
/// [`import_slice_with`], or [`import_from_with`] over a source that looks at each name.
pub fn import_with(
    rt: &HostRuntime,
    alloc: Global,
    path: &str,
    options: &Options<'_>,
) -> Result<Imported>
    ensures accepted { IfOk result (λ read. AcceptsMendedFile options.now Anywhere path.now
        read.document (texts read.also_required.items) (bytes_of_each read.buffers.items)) }
    ensures refused { IfErr result (λ e. (failed : List Named)
        × RefusesMendedFileAt options.now Anywhere path.now [] failed e) }
{
    let mut folder = Folder::new(rt, base_of(path));
    import_from_with(alloc, &mut folder, path, options)
}

/// The document of these bytes and its buffers, whose names are asked of a source.
fn import_bytes<N: Ask>(
    alloc: Global,
    bytes: CowSlice<'_, u8>,
    names: &mut N,
    options: &Options<'_>,
) -> Result<Imported>
    ensures accepted { IfOk result (λ read. AcceptsMended options.now (N.names names.old)
        (cow_slice_items bytes.entry) read.document (texts read.also_required.items)
        (bytes_of_each read.buffers.items)) }
    ensures only { AreKnown (N.names names.old) → IfOk result (λ read.
        IsOnlyMendedImport options.now (N.names names.old) (cow_slice_items bytes.entry)
        read.document (texts read.also_required.items) (bytes_of_each read.buffers.items)) }
    ensures refused { IfErr result (FailsOrRefusesMended options.now (N.names names.old)
        (cow_slice_items bytes.entry) (N.failures names.old) (N.failures names.new)) }
    ensures exact { AreKnown (N.names names.old) → IfErr result (λ e. e ≢ Memory → IsNotIo e
        → IsNotAcceptedMended options.now (N.names names.old) (cow_slice_items bytes.entry)) }
    ensures fine { OnOk result (N.failures names.new ≡ N.failures names.old) }
    ensures kept { N.names names.new ≡ N.names names.old }
{
    // A law that the proof stands on; the call does nothing.
    what_shows_the_same_has_the_same_buffers();
    let opened = from_bytes_with(alloc, bytes, options)?;
    let Opened {
        gltf: Gltf { document, blob },
        also_required,
    } = opened;
    let buffers = read_buffers(alloc, &document.as_json().buffers, names, blob)?;
    Ok(Imported {
        document,
        buffers,
        also_required,
    })
}
