//! The laws of reading. Each is a statement over definitions, proved as the contract of a function
//! that does nothing.
ghost use Rattle.gltf_detached.specs.Laws.{KeepsItems, NamesBuffers, NamesImages, LeadToNames};
ghost use Rattle.gltf_detached.specs.Laws.{ReadsFiles};

use gltf_data::laws::alike_documents_are_read_alike;
use gltf_items::Item;
use gltf_json::laws::what_shows_the_same_is_alike_in_each_member;

/// A document whose buffers and images are in files of their own has the same items at each
/// accessor as before, whatever the bytes of its buffers are.
pub fn items_are_kept<T: Item>()
    ensures { KeepsItems ⟦<T as Item>⟧ }
{
    what_shows_the_same_is_alike_in_each_member();
    alike_documents_are_read_alike::<T>();
}

/// It has as many buffers as before, and each that has a file has the URI of this file and declares
/// as many bytes as before.
pub fn buffers_are_named()
    ensures { NamesBuffers }
{}

/// Each image that has a file has the URI of this file, its media type as before, and no view.
pub fn images_are_named()
    ensures { NamesImages }
{}

/// The URI of each file leads to its name, in the folder of the document.
pub fn uris_lead_to_names()
    ensures { LeadToNames }
{}

/// Where each buffer of a document names a file, and a source has these files, the buffers are
/// their bytes, with zeros up to a multiple of four.
pub fn files_are_read()
    ensures { ReadsFiles }
{
    uris_lead_to_names();
}
