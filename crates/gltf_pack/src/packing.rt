//! One container out of the bytes of a file.
ghost use Rattle.std.specs.Prelude.{◌≢◌, IfOk, IfErr};
ghost use Rattle.std.specs.Cow.{cow_slice_items};
ghost use Rattle.gltf_glb.specs.Glb.{items_of, IsWritten, RefusesToWrite};
ghost use Rattle.gltf_glb.specs.declared.error.Error.TheVariants.{Memory};
ghost use Rattle.gltf_pack.specs.Repacked.{IsRepacked, RefusesToRepack, IsOnlyAnswer, HasNoAnswer};
ghost use Rattle.gltf_pack.specs.Laws.{SameImport, IsFixed};

use crate::laws::{import_kept, one_answer, repacked_again};
use gltf::laws::one_text_and_blob;
use gltf::text_and_blob;
use gltf_glb::binary::Header;
use gltf_glb::{Glb, Result};
use std::alloc::Global;
use std::borrow::CowSlice;

/// The JSON text and the blob of a file, written anew as one GLB container (glTF 2.0, section 4.4).
///
/// A file that begins with `glTF` is a container: chunks of unknown type, what follows its BIN
/// chunk and what follows its declared length are dropped. Any other file is JSON text whole. The
/// text is not read: the answer is imported where the file is, with the same document and the same
/// buffers, and refused with the same faults. Repacking the answer gives the answer again.
///
/// Answers [`gltf_glb::Error::Binary`] with its one fault for what begins with `glTF` and is no
/// container, [`gltf_glb::Error::Io`] where the whole would be longer than 4294967295 bytes, before
/// any memory is taken, and [`gltf_glb::Error::Memory`] where there is not enough. The answer is
/// reserved once.
pub fn repack(alloc: Global, bytes: &[u8]) -> Result<Vec<u8>>
    ensures written { IfOk result (λ answer. IsRepacked bytes.now answer.items) }
    ensures only { IfOk result (λ answer. IsOnlyAnswer bytes.now answer.items) }
    ensures kept { IfOk result (λ answer. SameImport bytes.now answer.items) }
    ensures again { IfOk result (λ answer. IsFixed answer.items) }
    ensures refused { IfErr result (RefusesToRepack bytes.now) }
    ensures exact { IfErr result (λ e. e ≢ Memory → HasNoAnswer bytes.now) }
{
    // Laws that the proof stands on; the calls do nothing.
    one_text_and_blob();
    one_answer();
    import_kept();
    repacked_again();
    container_of(alloc, bytes)
}

/// The text and the blob of a file as one container, without what the laws say of it.
fn container_of(alloc: Global, bytes: &[u8]) -> Result<Vec<u8>>
    ensures written { IfOk result (λ answer. IsRepacked bytes.now answer.items) }
    ensures refused { IfErr result (RefusesToRepack bytes.now) }
{
    let (json, blob) = text_and_blob(bytes)?;
    container(alloc, json, blob)
}

/// A JSON text and a blob as one container (glTF 2.0, section 4.4), as [`Glb::to_vec`] writes it.
pub fn container(
    alloc: Global,
    json: CowSlice<'_, u8>,
    blob: Option<CowSlice<'_, u8>>,
) -> Result<Vec<u8>>
    ensures written { IfOk result (IsWritten (cow_slice_items json.entry) (items_of blob.entry)) }
    ensures refused { IfErr result
        (RefusesToWrite (cow_slice_items json.entry) (items_of blob.entry)) }
{
    // The header is that of no file: it is not looked at when the parts are written.
    let glb = Glb {
        header: Header {
            magic: *b"glTF",
            version: 2,
            length: 0,
        },
        json,
        bin: blob,
    };
    glb.to_vec(alloc)
}
