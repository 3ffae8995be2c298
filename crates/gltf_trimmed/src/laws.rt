//! The laws of reading. Each is a statement over definitions, proved as the contract of a function
//! that does nothing.
ghost use Rattle.gltf_trimmed.specs.Laws.{KeepsItems, KeepsBytes, IsReadTrimmed};

use gltf_data::laws::alike_documents_are_read_alike;
use gltf_items::Item;
use gltf_json::laws::what_shows_the_same_is_alike_in_each_member;

/// A document without the views at the end that only images name, and with the shorter buffers, has
/// the same items at each accessor as before, over the bytes that are left.
pub fn items_are_kept<T: Item>()
    ensures { KeepsItems ⟦<T as Item>⟧ }
{
    what_shows_the_same_is_alike_in_each_member();
    alike_documents_are_read_alike::<T>();
}

/// Each byte of a buffer that is in a view that stays, or in none that goes, is left at its place,
/// where zeros stand behind the end of a buffer.
pub fn bytes_are_kept()
    ensures { KeepsBytes }
{}

/// Such a document is read as records wherever the document before is, and each of its buffers
/// declares no more bytes than are left.
pub fn documents_are_read()
    ensures { IsReadTrimmed }
{}
