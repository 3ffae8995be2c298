//! The bytes of views.
ghost use Rattle.std.specs.Prelude.{◌≡◌, option_copied};
ghost use Rattle.serde_json.specs.View.{view};
ghost use Rattle.gltf_buffers.specs.Shown.{bytes_of_each};
ghost use Rattle.gltf_split.specs.Views.{view_bytes, bytes_in, bytes_at, cut};

use gltf::buffer::Data;
use gltf_edit::size_at;
use serde_json::Value;

/// The bytes of the view at an index of the document's list. None where it is not there, or does
/// not lie in its buffer.
pub(crate) fn view_bytes<'a>(document: &Value, index: u64, buffers: &'a [Data]) -> Option<&'a [u8]>
    ensures { option_copied result
        ≡ view_bytes (bytes_of_each buffers.now) (view document.now) index }
{
    let one = document.get("bufferViews")?.get(index as usize)?;
    bytes_in(one, buffers)
}

/// The bytes of a view. None where it does not lie in its buffer.
fn bytes_in<'a>(one: &Value, buffers: &'a [Data]) -> Option<&'a [u8]>
    ensures { option_copied result ≡ bytes_in (bytes_of_each buffers.now) (view one.now) }
{
    let bytes = bytes_at(buffers, size_at(one, "buffer")?)?;
    let offset = size_at(one, "byteOffset").unwrap_or(0);
    let length = size_at(one, "byteLength").unwrap_or(0);
    cut(bytes, offset, length)
}

/// The bytes of the buffer at an index.
fn bytes_at(buffers: &[Data], index: u64) -> Option<&[u8]>
    ensures { option_copied result ≡ bytes_at (bytes_of_each buffers.now) index }
{
    match buffers.get(index as usize) {
        Some(buffer) => Some(buffer.0.as_slice()),
        None => None,
    }
}

/// So many of the bytes from a place on, where there are as many.
fn cut(bytes: &[u8], offset: u64, length: u64) -> Option<&[u8]>
    ensures { option_copied result ≡ cut offset length bytes.now }
{
    let room = bytes.len() as u64;
    if offset > room || length > room - offset {
        return None;
    }
    Some(&bytes[offset as usize..(offset + length) as usize])
}
