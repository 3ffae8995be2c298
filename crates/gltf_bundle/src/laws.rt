//! Laws of bundles. Each is a statement over definitions, proved as the contract of a function that
//! does nothing.
ghost use Rattle.gltf_bundle.specs.Laws.{HasOneBuffer, NeedsNoFile, KeepsItems, ShowsImages};
ghost use Rattle.gltf_bundle.specs.Laws.{KeepsImages, BundlesAgain, LacksOnlyMemoryAgain};

use gltf::laws::one_text_and_blob;
use gltf_glb::laws::reads_back;
use gltf_items::Item;
use gltf_json::laws::what_shows_the_same_is_alike_in_each_member;
use gltf_options::laws::{
    the_same_rules_are_broken_without_the_names, what_shows_the_same_breaks_the_same_rules_besides,
    what_shows_the_same_has_the_same_buffers, what_shows_the_same_is_left_alike,
};
use gltf_pack::laws::spaces_behind;
use gltf_validation::laws::what_shows_the_same_breaks_the_same_rules;

/// Whatever document and buffers a bundle is imported as, the document is that of the file whose
/// images went into buffers of their own and whose buffers became one, and its buffer is all
/// buffers.
pub fn one_buffer()
    ensures { HasOneBuffer }
{
    one_text_and_blob();
    reads_back();
    spaces_behind();
}

/// No buffer of a bundle has a URI, and no image has one, unless images are kept.
pub fn needs_no_file()
    ensures { NeedsNoFile }
{
    one_text_and_blob();
    reads_back();
    spaces_behind();
}

/// Each accessor of a bundle has the items that it has in the file.
pub fn items_are_kept<T: Item>()
    ensures { KeepsItems ⟦<T as Item>⟧ }
{
    one_buffer();
    gltf_moved::laws::items_are_kept::<T>();
}

/// Each image of the file that has a URI and names no view is, in a bundle where images are not
/// kept, in a view of the bytes that the URI leads to.
pub fn images_are_shown()
    ensures { ShowsImages }
{
    one_text_and_blob();
    reads_back();
    spaces_behind();
    gltf_moved::laws::images_are_shown();
}

/// Each image of the file that names a view is, in a bundle, one that names a view of the same
/// bytes, with the same media type.
pub fn images_in_views_are_kept()
    ensures { KeepsImages }
{
    one_text_and_blob();
    reads_back();
    spaces_behind();
    gltf_moved::laws::images_stay();
    gltf_moved::laws::views_are_kept();
}

/// A bundle that is bundled again has the same JSON value and the same binary buffer, and where the
/// value has no float, it is the same bytes. Where images were kept they have to be kept again:
/// else those with URIs are taken in.
pub fn bundled_again()
    ensures { BundlesAgain }
{
    one_text_and_blob();
    reads_back();
    spaces_behind();
}

/// A bundle that is bundled again, out of a source that has it and does not fail, with extensions
/// that pass for it, is refused only where there is not enough memory, if the value has no float:
/// what a float is spelled as is not determined, so that a longer text could be too long. Where
/// images could stay, all do.
pub fn again_lacks_only_memory()
    ensures { LacksOnlyMemoryAgain }
{
    one_text_and_blob();
    reads_back();
    spaces_behind();
    what_shows_the_same_is_alike_in_each_member();
    what_shows_the_same_breaks_the_same_rules();
    what_shows_the_same_breaks_the_same_rules_besides();
    the_same_rules_are_broken_without_the_names();
    what_shows_the_same_is_left_alike();
    what_shows_the_same_has_the_same_buffers();
}
