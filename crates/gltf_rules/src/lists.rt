//! Elements of lists whose rules hold.
ghost use Rattle.std.specs.Prelude.{◌≡◌, ◌<◌, length, slice_get, Some};
ghost use Rattle.gltf_validation.specs.declared.counts.Counts.{Counts};
ghost use Rattle.gltf_validation.specs.Members.{list_rules};
ghost use Rattle.gltf_validation.specs.Rules.{Hold};

use gltf_validation::validate::Validate;

/// The element at an index of a list. Its rules hold where those of the list do, for whatever
/// counts: those of a document, or those within an animation.
pub fn element<T: Validate>(list: &[T], index: usize) -> &T
    requires { index < length list.now }
    ensures at { slice_get list.now index ≡ Some result.now }
    ensures hold { (c : Counts) → Hold (list_rules (T.rules c) list.now)
        → Hold (T.rules c result.now) }
{
    &list[index]
}
