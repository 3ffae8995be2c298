//! A document and the bytes of its buffers, from the bytes of a file or from files by their names.
ghost use Rattle.std.specs.Prelude.{◌≡◌, ◌≢◌, List, [], IfOk, IfErr, OnOk};
ghost use Rattle.gltf_buffers.specs.Names.{Anywhere, AreKnown, names_of};
ghost use Rattle.gltf_glb.specs.declared.error.Error.TheVariants.{Memory};
ghost use Rattle.gltf_names.specs.Named.{Named};
ghost use Rattle.gltf.specs.Errors.{OutOfMemoryOr};
ghost use Rattle.gltf.specs.Files.{AcceptsFile, RefusesFileAt, IsOnlyFile, IsNotAcceptedFile};
ghost use Rattle.gltf.specs.Files.{IsNotIo, IsBaseOf};
ghost use Rattle.gltf.specs.Import.{Accepts, RefusesImport, IsOnlyImport, IsNotAccepted};
ghost use Rattle.gltf.specs.Shown.{bytes_of_each};

mod buffers;

use crate::buffer::Data;
use crate::document::Document;
use crate::layers::document_of;
use buffers::with_buffers;
pub use buffers::{
    import_buffers, import_buffers_from, import_each_buffer, import_each_buffer_from,
};
use gltf_buffers::{Ask, NoNames};
use gltf_glb::Result;
use gltf_json::laws::what_shows_the_same_is_alike_in_each_member;
use gltf_names::{Folder, Name, NamedBytes};
use std::alloc::Global;
use std::borrow::CowSlice;
use std::rt::HostRuntime;

/// The document and the bytes of its buffers, by index, from the bytes of a file: a GLB container
/// where they begin with `glTF`, else JSON text (glTF 2.0, sections 2.8, 3.6.1 and 4.4).
///
/// The bytes are accepted exactly where the container, the text, the records, the rules and the
/// buffers hold; the error is that of the first of these that does not, or
/// [`gltf_glb::Error::Memory`], which says nothing of the bytes. No name is asked for: a URI that
/// leads outside is [`gltf_glb::Error::ExternalReferenceInSliceImport`].
pub fn import_slice(alloc: Global, bytes: &[u8]) -> Result<(Document, Vec<Data>)>
    ensures accepted { IfOk result (λ read. Accepts bytes.now read.0
        (bytes_of_each read.1.items)) }
    ensures only { IfOk result (λ read. IsOnlyImport bytes.now read.0
        (bytes_of_each read.1.items)) }
    ensures refused { IfErr result (OutOfMemoryOr (RefusesImport bytes.now)) }
    ensures exact { IfErr result (λ e. e ≢ Memory → IsNotAccepted bytes.now) }
{
    // A law that the proof stands on; the call does nothing.
    what_shows_the_same_is_alike_in_each_member();
    let (document, blob) = document_of(alloc, CowSlice::Borrowed(bytes))?;
    with_buffers(alloc, document, &mut NoNames, blob)
}

/// The document and the bytes of its buffers, by index, of a file by its path, where files are
/// asked of a source: the path as [`Name::File`], then each URI of a buffer that leads outside, by
/// index (glTF 2.0, sections 2.8 and 3.6.1).
///
/// The answer is that of [`import_slice`] over the bytes of the file, with the bytes that the
/// source gives for the names. [`gltf_glb::Error::Io`] says that the source failed at the last name
/// that was asked for; each other answer says that it failed at none.
pub fn import_from<S: NamedBytes>(
    alloc: Global,
    source: &mut S,
    path: &str,
) -> Result<(Document, Vec<Data>)>
    ensures accepted { IfOk result (λ read. AcceptsFile (names_of (S.bytes_by_name source.old))
        path.now read.0 (bytes_of_each read.1.items)) }
    ensures only { AreKnown (names_of (S.bytes_by_name source.old)) → IfOk result (λ read.
        IsOnlyFile (names_of (S.bytes_by_name source.old)) path.now read.0
        (bytes_of_each read.1.items)) }
    ensures refused { IfErr result (RefusesFileAt (names_of (S.bytes_by_name source.old)) path.now
        (S.failures source.old) (S.failures source.new)) }
    ensures exact { AreKnown (names_of (S.bytes_by_name source.old)) → IfErr result (λ e.
        e ≢ Memory → IsNotIo e
        → IsNotAcceptedFile (names_of (S.bytes_by_name source.old)) path.now) }
    ensures fine { OnOk result (S.failures source.new ≡ S.failures source.old) }
    ensures kept { names_of (S.bytes_by_name source.new) ≡ names_of (S.bytes_by_name source.old) }
{
    // A law that the proof stands on; the call does nothing.
    what_shows_the_same_is_alike_in_each_member();
    let bytes = source.ask(alloc, Name::File(path))?;
    let (document, blob) = document_of(alloc, CowSlice::Owned(bytes))?;
    with_buffers(alloc, document, source, blob)
}

/// [`import_from`] over the files of the system: those that the document names by relative
/// references are looked for in the folder of the file, which [`base_of`] gives.
///
/// Any file that the document names is read, wherever it is, whole and as often as a buffer names
/// it. For a document that is not trusted, take [`import_slice`], or [`import_from`] over a source
/// that looks at each name.
pub fn import(rt: &HostRuntime, alloc: Global, path: &str) -> Result<(Document, Vec<Data>)>
    ensures accepted { IfOk result (λ read. AcceptsFile Anywhere path.now read.0
        (bytes_of_each read.1.items)) }
    ensures refused { IfErr result (λ e. (failed : List Named)
        × RefusesFileAt Anywhere path.now [] failed e) }
{
    let mut folder = Folder::new(rt, base_of(path));
    import_from(alloc, &mut folder, path)
}

/// The folders of a path: its text up to and with the last `/`, and none where it has no `/`.
pub fn base_of(path: &str) -> &str
    ensures { IsBaseOf path.now result.now }
{
    match path.rsplit_once('/') {
        Some((folders, _)) => &path[..folders.len() + 1],
        None => "",
    }
}
