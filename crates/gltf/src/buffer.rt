//! Buffers, their views and their bytes (glTF 2.0, section 3.6.1, "Buffers and Buffer Views").

ghost use Rattle.std.specs.Prelude.{◌≡◌, slice_get};
ghost use Rattle.std.specs.Option.{option_copied};
ghost use Rattle.gltf_handles.specs.Buffers.{buffer_handle};
ghost use Rattle.gltf.specs.Shown.{bytes_of_each};

pub use gltf_buffers::Data;
pub use gltf_data::buffer::{Buffer, Source, Target, View};

/// The bytes of a buffer, among those of all, by index; None where there are not so many. In a
/// closure it gives readers and [`crate::accessor::Iter::new`] what they ask for.
pub fn bytes_of<'s>(buffers: &'s [Data], buffer: Buffer) -> Option<&'s [u8]>
    ensures { option_copied result ≡ slice_get (bytes_of_each buffers.entry.now)
        (buffer_handle buffer.entry).index }
{
    let data = buffers.get(buffer.index())?;
    Some(data.0.as_slice())
}
