//! Laws of two conversions, one after the other. Each is a statement over definitions, proved as
//! the contract of a function that does nothing.
ghost use Rattle.gltf_converted.specs.Laws.{KeepsItemsThere, KeepsItemsBack, KeepsImagesThere};
ghost use Rattle.gltf_converted.specs.Laws.{HoldsEachImage, KeepsImagesBack};

use gltf_items::Item;

/// Where a file is split, and the set is bundled over a source that has its files, each accessor of
/// the container has the items that it has in the file.
pub fn items_are_kept_by_bundles<T: Item>()
    ensures { KeepsItemsThere ⟦<T as Item>⟧ }
{
    gltf_split::laws::items_are_kept::<T>();
    gltf_bundle::laws::items_are_kept::<T>();
}

/// Where a file is bundled, and the container is split, each accessor of the set, over a source
/// that has its files, has the items that it has in the file.
pub fn items_are_kept_by_sets<T: Item>()
    ensures { KeepsItemsBack ⟦<T as Item>⟧ }
{
    gltf_bundle::laws::items_are_kept::<T>();
    gltf_split::laws::items_are_kept::<T>();
}

/// Where a file is split, and the set is bundled over a source that has its files, each image that
/// has a file has its bytes in the container, with its media type where it has one of images.
pub fn images_are_kept_by_bundles()
    ensures { KeepsImagesThere }
{
    gltf_split::laws::images_are_shown();
    gltf_bundle::laws::images_are_shown();
}

/// Where a file is split, and the set is bundled over a source that has its files, each image of the
/// file, in a view or with a URI alone, has the same bytes in the container, and the media type that
/// it has in the file: but for one that a `data:` URI alone names, which the text of a set does not
/// keep.
pub fn each_image_is_kept_by_bundles()
    ensures { HoldsEachImage }
{
    gltf_detached::laws::uris_lead_to_names();
    gltf_split::laws::images_in_views_have_files();
    gltf_split::laws::images_with_uris_have_files();
    images_are_kept_by_bundles();
}

/// Where a file is bundled, and the container is split, each image of the file has in the set, over
/// a source that has its files, a file of its own with the same bytes: one that names a view with
/// the same media type, one with a URI alone with the media type that the container has for it.
pub fn images_are_kept_by_sets()
    ensures { KeepsImagesBack }
{
    gltf_bundle::laws::images_are_shown();
    gltf_bundle::laws::images_in_views_are_kept();
    gltf_split::laws::images_in_views_have_files();
    gltf_split::laws::images_are_shown();
}
