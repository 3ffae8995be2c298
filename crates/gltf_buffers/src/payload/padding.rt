//! Zeros after the bytes of a buffer.
ghost use Rattle.std.specs.Prelude.{◌≡◌, ◌+◌, ◌%◌, ◌<◌, OnOk, OnErr, vec_len, length};
ghost use Rattle.gltf_buffers.specs.Padding.{padded};

use std::alloc::AllocError;

/// Puts zeros after the bytes, up to the next multiple of four.
///
/// A buffer's bytes may be up to three more than its `byteLength`, as in the BIN chunk of a GLB
/// (glTF 2.0, section 3.6.1.2). Where none is wanted, they stay in the memory that they have. Where
/// there is not enough memory, the bytes stay as they are.
#[tactic(auto, unfolding(crate::specs::Padding::padded))]
pub fn pad_to_four(bytes: &mut Vec<u8>) -> Result<(), AllocError>
    ensures ok { OnOk result (bytes.new.items ≡ padded bytes.old.items) }
    ensures whole { OnOk result (vec_len bytes.new % 4 ≡ 0) }
    ensures least { OnOk result (vec_len bytes.new < vec_len bytes.old + 4) }
    ensures err { OnErr result (bytes.new.items ≡ bytes.old.items) }
    ensures same { length bytes.old.items % 4 ≡ 0 → bytes.new ≡ bytes.old }
{
    let length = bytes.len();
    if length % 4 == 0 {
        return Ok(());
    }
    bytes.resize(length + (4 - length % 4), 0)
}
