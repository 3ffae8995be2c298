//! The laws of reading. Each is a statement over definitions, proved as the contract of a function
//! that does nothing.
ghost use Rattle.gltf_moved.specs.Images.{ShowsImages, KeepsImages};
ghost use Rattle.gltf_moved.specs.Laws.{KeepsItems};
ghost use Rattle.gltf_moved.specs.Views.{KeepsViews};

use gltf_data::laws::alike_documents_are_read_alike;
use gltf_items::Item;
use gltf_json::laws::what_shows_the_same_is_alike_in_each_member;
use gltf_validation::laws::no_rule_is_broken_where_all_hold;

/// A document whose images went into buffers of their own, and whose buffers became one, has the
/// same items at each accessor as before, over the one buffer, where each view lies in its buffer.
pub fn items_are_kept<T: Item>()
    ensures { KeepsItems ⟦<T as Item>⟧ }
{
    what_shows_the_same_is_alike_in_each_member();
    no_rule_is_broken_where_all_hold();
    alike_documents_are_read_alike::<T>();
}

/// Each image that went into a buffer of its own names a view of the one buffer, of its bytes.
pub fn images_are_shown()
    ensures { ShowsImages }
{}

/// Each view is at its index, and has in the one buffer the bytes that it has in its own.
pub fn views_are_kept()
    ensures { KeepsViews }
{
    no_rule_is_broken_where_all_hold();
}

/// Each image that did not go into a buffer of its own shows what it showed, and names the same
/// view, which has the same bytes ([`views_are_kept`]). Where there are pictures, one that names a
/// view has no URI beside it.
pub fn images_stay()
    ensures { KeepsImages }
{}
