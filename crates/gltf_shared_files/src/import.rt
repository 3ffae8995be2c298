//! A document and the bytes of its buffers, from files by their names, each of which is asked for
//! once.
ghost use Rattle.std.specs.Prelude.{◌≡◌, ◌⊎◌, Ok, IfOk, IfErr, OnOk, map, length};
ghost use Rattle.gltf_buffers.specs.Buffers.{sources_of, AreBytes, HasBufferFault, IsAskedFor};
ghost use Rattle.gltf_buffers.specs.Errors.{FailsOrNames};
ghost use Rattle.gltf_buffers.specs.Shown.{blob_bytes};
ghost use Rattle.gltf_buffers.specs.Names.{CanBeAsked};
ghost use Rattle.gltf_glb.specs.declared.error.Error.TheVariants.{Memory};
ghost use Rattle.gltf_names.specs.Named.{File};
ghost use Rattle.gltf.specs.Files.{AcceptsFile, RefusesFileAt};
ghost use Rattle.gltf_shared.specs.Asked.{AsksForFile, AsksOnce, UnlessMemory};
ghost use Rattle.gltf_shared.specs.Shared.{AreShared};
ghost use Rattle.gltf_shared.specs.Shown.{bytes_of_each};

use gltf::buffer::Data;
use gltf::{Document, Gltf, Name};
use gltf_glb::Result;
use gltf_shared::{AskUpTo, read_shared};
use std::alloc::Global;
use std::rc::Rc;

/// The document and the bytes of its buffers, by index, of a file by its path, as
/// [`gltf::import_from`] gives them, but that the source is asked for no name of a buffer twice:
/// buffers which lead to one name share its bytes. How many bytes are asked for is as
/// [`read_shared`] says.
///
/// [`gltf_glb::Error::Io`] says that the source failed at the file, or at the name of a buffer, and
/// has noted which one it was.
pub fn import_shared<N: AskUpTo>(
    alloc: Global,
    source: &mut N,
    path: &str,
) -> Result<(Document, Vec<Rc<Data>>)>
    ensures accepted { IfOk result (λ read. AcceptsFile (N.names source.old) path.now read.0
        (bytes_of_each read.1.items)) }
    ensures shared { IfOk result (λ read. AreShared (sources_of read.0)
        (map Ok (bytes_of_each read.1.items))) }
    ensures refused { IfErr result (λ e. (e ≡ Memory)
        ⊎ RefusesFileAt (N.names source.old) path.now (N.failures source.old)
        (N.failures source.new) e) }
    ensures fine { OnOk result (N.failures source.new ≡ N.failures source.old) }
    ensures asked { CanBeAsked (N.names source.old) → IfOk result (λ read.
        AsksForFile N.asks (File path.now) (sources_of read.0) source.old source.new) }
    ensures kept { N.names source.new ≡ N.names source.old }
{
    let bytes = source.ask_up_to(alloc, Name::File(path), None)?;
    let file = Gltf::from_vec(alloc, bytes)?;
    let Gltf { document, blob } = file;
    let buffers = shared_buffers(alloc, &document, source, blob)?;
    Ok((document, buffers))
}

/// The bytes of the buffers of a document.
pub(crate) fn shared_buffers<N: AskUpTo>(
    alloc: Global,
    document: &Document,
    names: &mut N,
    blob: Option<Vec<u8>>,
) -> Result<Vec<Rc<Data>>>
    ensures ok { IfOk result (λ all. AreBytes (N.names names.old) (sources_of document.now)
        (blob_bytes blob) (length (sources_of document.now)) (bytes_of_each all.items)) }
    ensures shared { IfOk result (λ all. AreShared (sources_of document.now)
        (map Ok (bytes_of_each all.items))) }
    ensures err { IfErr result (λ e. (e ≡ Memory) ⊎ FailsOrNames
        (HasBufferFault (N.names names.old) (sources_of document.now) (blob_bytes blob))
        (IsAskedFor (N.names names.old) (sources_of document.now) (blob_bytes blob))
        (N.failures names.old) (N.failures names.new) e) }
    ensures fine { OnOk result (N.failures names.new ≡ N.failures names.old) }
    ensures asked { CanBeAsked (N.names names.old) → UnlessMemory result
        (AsksOnce N.asks (sources_of document.now) names.old names.new) }
    ensures kept { N.names names.new ≡ N.names names.old }
{
    read_shared(alloc, &document.as_json().buffers, names, blob)
}

#[cfg(test)]
mod tests {
    use super::*;
    use gltf::Shelf;
    use std::test::Fail;

    const TEXT: &str =
        "{\"asset\":{\"version\":\"2.0\"},\"buffers\":[{\"byteLength\":4,\"uri\":\"a.bin\"},\
        {\"byteLength\":3,\"uri\":\"a.bin\"}]}";

    /// The third read fails, whatever it asks for: the text is read, and then the bytes.
    #[test]
    fn buffers_of_one_name_are_read_once(rt: HostRuntime) -> Result<(), Fail> {
        let alloc = rt.alloc();
        let mut shelf = Shelf::new(alloc);
        shelf.put(Name::File("a.gltf"), TEXT.as_bytes())?;
        shelf.put(Name::Relative("a.bin"), &[1, 2, 3, 4])?;
        shelf.fail_at(2);
        let (_document, buffers) = import_shared(alloc, &mut shelf, "a.gltf")?;
        assert_eq!(rt; buffers.len(), 2);
        for buffer in &buffers {
            assert_eq!(rt; buffer.0.as_slice(), [1u8, 2, 3, 4].as_slice());
        }
        Ok(())
    }
}
