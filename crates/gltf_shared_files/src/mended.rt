//! The same of a document that is mended, or requires extensions which the caller handles.
ghost use Rattle.std.specs.Prelude.{◌≡◌, ◌⊎◌, Ok, IfOk, IfErr, OnOk, map};
ghost use Rattle.gltf_buffers.specs.Buffers.{sources_of};
ghost use Rattle.gltf_buffers.specs.Names.{CanBeAsked};
ghost use Rattle.gltf_glb.specs.declared.error.Error.TheVariants.{Memory};
ghost use Rattle.gltf_names.specs.Named.{File};
ghost use Rattle.gltf_options.specs.Names.{texts};
ghost use Rattle.gltf_lenient.specs.Files.{AcceptsMendedFile, RefusesMendedFileAt};
ghost use Rattle.gltf_shared.specs.Asked.{AsksForFile};
ghost use Rattle.gltf_shared.specs.Shared.{AreShared};
ghost use Rattle.gltf_shared.specs.Shown.{bytes_of_each};

use crate::import::shared_buffers;
use gltf::buffer::Data;
use gltf::{Document, Gltf, Name};
use gltf_glb::Result;
use gltf_lenient::{Opened, Options, from_bytes_with};
use gltf_shared::AskUpTo;
use std::alloc::Global;
use std::borrow::CowSlice;
use std::rc::Rc;

/// A document that breaks no rule as it is mended, without the names that the caller handles, and
/// its buffers.
#[derive(Drop)]
pub struct SharedImport {
    /// The mended document without these names in `extensionsRequired`.
    pub document: Document,
    /// The bytes of its buffers, by index. Buffers that lead to one name share them.
    pub buffers: Vec<Rc<Data>>,
    /// The names that were left out, in the order of the file; a name that the file repeats comes
    /// as often.
    pub also_required: Vec<String>,
}

/// [`crate::import_shared`] for a caller who handles further extensions (glTF 2.0, section 3.12),
/// of a document that is mended: what [`gltf_lenient::import_from_with`] gives, but that the source
/// is asked for no name of a buffer twice.
///
/// [`gltf_glb::Error::Io`] says that the source failed at the file, or at the name of a buffer, and
/// has noted which one it was.
pub fn import_shared_with<N: AskUpTo>(
    alloc: Global,
    source: &mut N,
    path: &str,
    options: &Options<'_>,
) -> Result<SharedImport>
    ensures accepted { IfOk result (λ read. AcceptsMendedFile options.now (N.names source.old)
        path.now read.document (texts read.also_required.items)
        (bytes_of_each read.buffers.items)) }
    ensures shared { IfOk result (λ read. AreShared (sources_of read.document)
        (map Ok (bytes_of_each read.buffers.items))) }
    ensures refused { IfErr result (λ e. (e ≡ Memory)
        ⊎ RefusesMendedFileAt options.now (N.names source.old) path.now
        (N.failures source.old) (N.failures source.new) e) }
    ensures fine { OnOk result (N.failures source.new ≡ N.failures source.old) }
    ensures asked { CanBeAsked (N.names source.old) → IfOk result (λ read.
        AsksForFile N.asks (File path.now) (sources_of read.document) source.old source.new) }
    ensures kept { N.names source.new ≡ N.names source.old }
{
    let bytes = source.ask_up_to(alloc, Name::File(path), None)?;
    let opened = from_bytes_with(alloc, CowSlice::Owned(bytes), options)?;
    let Opened {
        gltf: Gltf { document, blob },
        also_required,
    } = opened;
    let buffers = shared_buffers(alloc, &document, source, blob)?;
    Ok(SharedImport {
        document,
        buffers,
        also_required,
    })
}

#[cfg(test)]
mod tests {
    use super::*;
    use gltf::Shelf;
    use std::test::Fail;

    const TEXT: &str =
        "{\"asset\":{\"version\":\"2.0\"},\"extensionsRequired\":[\"KHR_draco\",\"A_b\"],\
        \"buffers\":[{\"byteLength\":4,\"uri\":\"a.bin\"},{\"byteLength\":3,\"uri\":\"a.bin\"}]}";

    #[test]
    fn extensions_pass_and_buffers_share(rt: HostRuntime) -> std::result::Result<(), Fail> {
        let alloc = rt.alloc();
        let mut shelf = Shelf::new(alloc);
        shelf.put(Name::File("a.gltf"), TEXT.as_bytes())?;
        shelf.put(Name::Relative("a.bin"), &[1, 2, 3, 4])?;
        let one = Options {
            also_supported: &["A_b"],
            ..Options::new()
        };
        assert!(rt; import_shared_with(alloc, &mut shelf, "a.gltf", &one).is_err());
        let both = Options {
            also_supported: &["A_b", "KHR_draco"],
            ..Options::new()
        };
        // The third read fails, whatever it asks for: the text is read, and then the bytes.
        shelf.fail_at(2);
        let read = import_shared_with(alloc, &mut shelf, "a.gltf", &both)?;
        assert_eq!(rt; read.buffers.len(), 2);
        assert_eq!(rt; read.also_required.len(), 2);
        Ok(())
    }
}
