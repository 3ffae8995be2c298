//! Laws of splits. Each is a statement over definitions, proved as the contract of a function that
//! does nothing.
ghost use Rattle.gltf_split.specs.Laws.{IsTakenOver, HasItsBuffers, KeepsItems, ShowsImages};
ghost use Rattle.gltf_split.specs.Laws.{HasFiles, HasLinkedFiles, HasNamesApart};

use gltf_detached::laws::{
    buffers_are_named, files_are_read, images_are_named, uris_lead_to_names,
};
use gltf_items::Item;
use gltf_trimmed::laws::documents_are_read;

/// Over each source that has the files of its buffers, the text of a set is imported.
pub fn text_is_accepted()
    ensures { IsTakenOver }
{
    buffers_are_named();
    uris_lead_to_names();
    documents_are_read();
}

/// Whatever document and buffers the text of a set is imported as, over a source that has the files
/// of its buffers, the document is what is left of that of the file, whose buffers and images name
/// files, and the buffers are what is left of those of the file.
pub fn same_buffers()
    ensures { HasItsBuffers }
{
    buffers_are_named();
    files_are_read();
    documents_are_read();
}

/// Each accessor of it has the items that it has in the file.
pub fn items_are_kept<T: Item>()
    ensures { KeepsItems ⟦<T as Item>⟧ }
{
    same_buffers();
    documents_are_read();
    gltf_trimmed::laws::items_are_kept::<T>();
    gltf_detached::laws::items_are_kept::<T>();
}

/// Each image that has a file is, in whatever the text is imported as over a source that has this
/// file, one whose URI leads to the bytes of the file, with the media type that it has.
pub fn images_are_shown()
    ensures { ShowsImages }
{
    images_are_named();
    uris_lead_to_names();
    documents_are_read();
}

/// Each image of the file that names a view, which lies in its buffer, has a file with the bytes of
/// the view, unless images are kept.
pub fn images_in_views_have_files()
    ensures { HasFiles }
{}

/// Each image of the file that has a URI and names no view has a file with the bytes that the URI
/// leads to, where no image may stay.
pub fn images_with_uris_have_files()
    ensures { HasLinkedFiles }
{}

/// No two files of a set have the same name, and none has that of the text, `STEM.gltf`.
pub fn names_are_apart()
    ensures { HasNamesApart }
{}
