//! Items that lie one right behind the other in a view: their bytes there are those of all items.

ghost use Rattle.std.specs.Prelude.{◌≡◌, true};
ghost use Rattle.std.specs.Option.{option_copied};
ghost use Rattle.gltf_handles.specs.Accessors.{accessor_handle};
ghost use Rattle.gltf_access.specs.Packed.{IsPacked, ArePackedItems, IsCopied};

use crate::flat::NotWritten;
use crate::raw::accessor_bytes;
use gltf_data::accessor::Accessor;
use gltf_data::buffer::Buffer;

/// Whether all items lie in a view, with nothing between them.
pub(crate) fn is_packed(accessor: Accessor) -> bool
    ensures { let a = accessor_handle accessor.entry in
        result ≡ true → IsPacked a.document a.json }
{
    let size = accessor.size();
    match accessor.view() {
        Some(view) => {
            size > 0 && accessor.sparse().is_none() && view.stride().unwrap_or(size) == size
        }
        None => false,
    }
}

/// The bytes of all items where they lie, by one answer of the closure. None where the accessor
/// cannot be read.
pub(crate) fn packed_bytes<'s, F: Fn(Buffer) -> Option<&'s [u8]>>(
    accessor: Accessor,
    get_buffer_data: &F,
) -> Option<&'s [u8]>
    requires callable { F.IsAlwaysCallable get_buffer_data.now }
    requires packed { IsPacked (accessor_handle accessor).document (accessor_handle accessor).json }
    ensures { let a = accessor_handle accessor.entry in
        ArePackedItems (λ b o. F.post get_buffer_data.now b o) a.document a.json
        (option_copied result) }
{
    match accessor_bytes(accessor, get_buffer_data) {
        Some(raw) => Some(raw.bytes),
        None => None,
    }
}

/// Writes these bytes to the front of `out`, where there are bytes and room for them.
pub(crate) fn write_packed(bytes: Option<&[u8]>, out: &mut [u8]) -> Result<usize, NotWritten>
    ensures { IsCopied (option_copied bytes.entry) result out.old out.new }
{
    let Some(bytes) = bytes else {
        return Err(NotWritten::Unreadable);
    };
    let size = bytes.len();
    if size <= out.len() {
        out[..size].copy_from_slice(bytes);
        Ok(size)
    } else {
        Err(NotWritten::NoRoom)
    }
}
