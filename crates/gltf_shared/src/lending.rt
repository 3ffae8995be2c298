//! The bytes of buffers, lent.
ghost use Rattle.std.specs.Prelude.{◌≡◌, IfOk};
ghost use Rattle.gltf_buffers.specs.Shown.{bytes_of_each as own_bytes};
ghost use Rattle.gltf_shared.specs.Shown.{bytes_of_each, lent_bytes};

use gltf_buffers::Data;
use std::alloc::{AllocError, Global};
use std::rc::Rc;

/// The bytes of each buffer, lent, in a list.
pub fn lent(alloc: Global, buffers: &[Data]) -> Result<Vec<&[u8]>, AllocError>
    ensures { IfOk result (λ lent. lent_bytes lent.items ≡ own_bytes buffers.now) }
{
    let mut lent = Vec::with_capacity(alloc, buffers.len())?;
    for buffer in buffers {
        lent.push(buffer.0.as_slice())?;
    }
    Ok(lent)
}

/// The same of buffers that share bytes.
pub fn slices(alloc: Global, buffers: &[Rc<Data>]) -> Result<Vec<&[u8]>, AllocError>
    ensures { IfOk result (λ lent. lent_bytes lent.items ≡ bytes_of_each buffers.now) }
{
    let mut lent = Vec::with_capacity(alloc, buffers.len())?;
    for data in buffers {
        lent.push(data.0.as_slice())?;
    }
    Ok(lent)
}
