//! Views of one buffer.
use crate::text::File;
use std::alloc::AllocError;

/// Adds views of so many bytes, one behind the other, and gives how many bytes they take.
pub fn views(file: &mut File, lengths: &[u32]) -> Result<u64, AllocError> {
    let mut offset = 0u64;
    for length in lengths {
        if offset != 0 {
            file.text(",")?;
        }
        file.text("{\"buffer\": 0, \"byteOffset\": ")?;
        file.number(offset)?;
        file.text(", \"byteLength\": ")?;
        file.number(u64::from(*length))?;
        file.text("}")?;
        offset = offset.wrapping_add(u64::from(*length));
    }
    Ok(offset)
}
