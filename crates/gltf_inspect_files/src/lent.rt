//! All that is found in a file whose buffers share the bytes of the files that they name.
ghost use Rattle.std.specs.Prelude.{◌≡◌, ◌⊎◌, IfOk, IfErr, IsSome};
ghost use Rattle.gltf_buffers.specs.Errors.{IsUnanswered};
ghost use Rattle.gltf_buffers.specs.Names.{Nowhere};
ghost use Rattle.gltf_glb.specs.declared.error.Error.TheVariants.{Memory};
ghost use Rattle.gltf_names.specs.Named.{File};
ghost use Rattle.gltf_findings.specs.Reports.{refusal_count};
ghost use Rattle.gltf_shared.specs.Shown.{bytes_of_each as shared_bytes};
ghost use Rattle.gltf.specs.Shown.{bytes_of_each};
ghost use Rattle.gltf_inspect_files.specs.Layers.{IsShared};
ghost use Rattle.gltf_inspect_files.specs.Reports.{imported_of, lent_of};
ghost use Rattle.gltf_inspect_files.specs.Unkept.{IsWholeLent, IsWholeLentOfFile};

use crate::inspect::Inspected;
use crate::laws::what_is_refused_is_reported;
use crate::unkept::inspect_whole;
use gltf::buffer::Data;
use gltf::{Document, Error, Name};
use gltf_buffers::NoNames;
use gltf_findings::report::Report;
use gltf_shared::AskUpTo;
use std::alloc::{AllocError, Global};
use std::rc::Rc;

/// A file that was looked at, as [`Inspected`], but that buffers which lead to one name share its
/// bytes.
#[derive(Debug, Drop)]
pub struct Lent {
    /// What is found in it.
    pub report: Report,
    /// Why the file holds no document: what is wrong with its container, its text or its records.
    /// `None` where it holds one, whether its rules are broken or not.
    pub cause: Option<Error>,
    /// The document and the bytes of its buffers, where the file is accepted.
    pub imported: Option<(Document, Vec<Rc<Data>>)>,
}

/// All that is found in the bytes of a file, and what is imported where they are accepted, as
/// [`crate::inspect::inspect_slice`] says. Fails where there is no memory.
///
/// With a share, items are looked at as far as a budget goes: so many bytes of them for each byte
/// of the file and of its buffers, where those of one name count once. Accessors are taken one after
/// the other. One for whose items what is left is not enough is left out; one that reads the same as
/// an accessor before it goes with that one. The report has
/// [`Code::ItemsNotLookedAt`](gltf_findings::code::Code::ItemsNotLookedAt) at each that is left out,
/// and nothing of its items, of indices of primitives and of times of samplers that it has.
pub fn inspect_lent_slice(
    alloc: Global,
    bytes: &[u8],
    share: Option<u32>,
) -> Result<Lent, AllocError>
    ensures whole { IfOk result (IsWholeLent share Nowhere bytes.now) }
    ensures shared { IfOk result IsShared }
{
    inspect_whole(alloc, &mut NoNames, bytes, share)
}

/// All that is found in the file at a path of a source, and in those that its buffers name, and
/// what is imported where it is accepted, as [`crate::inspect::inspect_from`] says. The source is
/// asked for the file, and then for names of its buffers alone, none of them twice. With a share
/// items are looked at as [`inspect_lent_slice`] has it.
///
/// The error is that the file itself cannot be read, or [`Error::Memory`].
pub fn inspect_lent_from<N: AskUpTo>(
    alloc: Global,
    source: &mut N,
    path: &str,
    share: Option<u32>,
) -> gltf::Result<Lent>
    ensures report { IfOk result (λ file. IsWholeLentOfFile share (N.names source.old) N.asks
        path.now file source.old source.new) }
    ensures shared { IfOk result IsShared }
    ensures fine { IfOk result (λ file. refusal_count file.report ≡ 0
        → IsSome file.imported) }
    ensures unread { IfErr result (λ e. (e ≡ Memory)
        ⊎ IsUnanswered (N.names source.old) (File path.now)
        (N.failures source.old) (N.failures source.new) e) }
{
    // A law that the proof stands on; the call does nothing.
    what_is_refused_is_reported();
    let bytes = source.ask_up_to(alloc, Name::File(path), None)?;
    let file = inspect_whole(alloc, source, &bytes, share)?;
    Ok(file)
}

/// The same file, each buffer with bytes of its own.
pub(crate) fn owned(alloc: Global, file: Lent) -> Result<Inspected, AllocError>
    ensures report { IfOk result (λ own. own.report ≡ file.report) }
    ensures cause { IfOk result (λ own. own.cause ≡ file.cause) }
    ensures imported { IfOk result (λ own. imported_of own.imported ≡ lent_of file.imported) }
{
    let Lent {
        report,
        cause,
        imported,
    } = file;
    let imported = match imported {
        Some((document, buffers)) => Some((document, copies(alloc, buffers)?)),
        None => None,
    };
    Ok(Inspected {
        report,
        cause,
        imported,
    })
}

/// The bytes of each buffer. They are copied where another buffer shares them.
fn copies(alloc: Global, buffers: Vec<Rc<Data>>) -> Result<Vec<Data>, AllocError>
    ensures { IfOk result (λ own. bytes_of_each own.items ≡ shared_bytes buffers.items) }
{
    let mut own = Vec::with_capacity(alloc, buffers.len())?;
    for buffer in buffers {
        own.push(own_data(alloc, buffer)?)?;
    }
    Ok(own)
}

fn own_data(alloc: Global, buffer: Rc<Data>) -> Result<Data, AllocError>
    ensures { IfOk result (λ own. own.0.items ≡ buffer.value.0.items) }
{
    match Rc::try_unwrap(buffer) {
        Ok(data) => Ok(data),
        Err(shared) => Ok(Data(Vec::from_slice(alloc, &shared.0)?)),
    }
}
